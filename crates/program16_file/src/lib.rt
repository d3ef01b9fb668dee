//! The P4_16 program of a file: what it reads as, where it breaks no rule.
#![tactic(auto)]

mod file;

pub use file::read_program16;
