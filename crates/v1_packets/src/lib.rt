//! What the passes of a packet under a P4_16 program do to its frame between two blocks: how a frame begins, which metadata is
//! kept for another pass, how egress begins, and what a clone made behind egress has.
#![tactic(auto)]

mod fill;
mod keep;
mod packets;

pub use packets::Packets;
