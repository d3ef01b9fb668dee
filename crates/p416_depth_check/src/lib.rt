//! Whether blocks or expressions of a P4_16 program nest too deep, which breaks rule T12.
#![tactic(auto)]

mod blocks;
mod bodies;
mod controls;
mod expressions;
mod parsers;
mod program;

pub use program::{is_too_deep, some_too_deep};
