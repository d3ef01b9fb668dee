//! Whether an action of a P4_16 program counts a direct counter outside its table, which breaks rule T9.
#![tactic(auto)]

mod outside;
mod pairs;

pub use outside::counts_outside;
