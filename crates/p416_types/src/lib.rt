//! The check of a whole P4_16 program: the program of a syntax that breaks none of the rules T1 to T12, and else the least of
//! them that it breaks.
#![tactic(auto)]

mod each;
mod fault;
mod judge;
mod program;
mod seen;
mod steps;

pub use fault::Check16;
pub use p416_program::Program16;
pub use program::check16;
