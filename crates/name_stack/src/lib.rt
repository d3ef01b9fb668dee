//! Names that are put on a stack and taken off it, each found where it stands last.
#![tactic(auto)]

mod stack;

pub use stack::NameStack;
