//! The check of a whole P4_14 program: the program of a syntax that breaks none of the rules C1 to C28, and else the least of
//! them that it breaks.
#![tactic(auto)]

mod bodies;
mod each;
mod fault;
mod judge;
mod parsers;
mod program;

pub use fault::Check14;
pub use program::{Program14, check14};
