//! Items that are still to be walked, the next first: what goes through a tree without recursion puts its parts here.
#![tactic(auto)]

mod stack;

pub use stack::Stack;
