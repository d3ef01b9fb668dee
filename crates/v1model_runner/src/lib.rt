//! The runner of v1model: a P4_16 program that is made ready, run on one packet after another or on a list of packets.
#![tactic(auto)]

mod ready;
mod run;

pub use ready::{ReadyBlocks, ReadyProgram16};
pub use run::{one_more, run_ready16, runner16};
