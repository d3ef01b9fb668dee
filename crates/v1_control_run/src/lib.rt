//! The parser and the five controls of a P4_16 program, run on the frame of a packet by its ready blocks.
#![tactic(auto)]

mod blocks;
mod packet;
mod prepared;
mod runners;
mod spare;

pub use blocks::PreparedBlocks;
pub use prepared::Prepared;
