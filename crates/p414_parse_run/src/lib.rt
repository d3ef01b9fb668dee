//! The parser of a P4_14 program, run on the state of a packet.
#![tactic(auto)]

mod extract;
mod fields;
mod going;
mod program;
mod run;
mod selects;
mod statements;

pub use p414_sem::Parsed;
pub use program::{parse14, ready14};
pub use run::parse_ready;
