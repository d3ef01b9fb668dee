//! The checksums and hashes of field list calculations, as functions on bit lists of any length. None of them takes memory.
#![tactic(auto)]

mod crcs;
mod sums;
mod tables;

pub use crcs::{crc16, crc32};
pub use sums::{csum16, identity};
