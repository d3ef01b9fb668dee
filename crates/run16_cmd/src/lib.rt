//! The command `run16`: a program of P4_16 with entries runs the packets of a capture.
#![tactic(auto)]

mod beginning;
mod command;
mod runner;
mod runs;

pub use command::run16;
