//! The passes of a packet under a P4_16 program, over whatever runs its blocks: what is kept between two passes and held between
//! ingress and egress, requests turned into items, and the order of the blocks (`v1model.p4`, `V1Switch`; the order of clones,
//! resubmit, drop and recirculate is this project's own).
#![tactic(auto)]

mod blocks;
mod held;
mod passes;
mod run;

pub use blocks::{Blocks, ParseEnd};
pub use held::{Held16, Kept16};
pub use passes::Passes16;
pub use run::{Runner16, one_packet_more, run_blocks};
