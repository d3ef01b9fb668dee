//! The run of a ready parser on a packet: its headers become invalid, its variables start, and its states run, each with its
//! statements on the frame and its transition.
#![tactic(auto)]

mod machine;
mod states;
mod steps;

pub use machine::{ParserMachine, ParserRoom};
pub use states::parse_ready;
