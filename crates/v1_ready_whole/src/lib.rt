//! The blocks of a P4_16 program made ready: its parser and its five controls, from its syntax.
#![tactic(auto)]

mod blocks;
mod callees;
mod names;
mod parser;
mod program;
mod slots;

pub use program::{ReadyBlocks, ready_blocks};
