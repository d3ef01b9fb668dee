//! The l-values of a P4_16 program made ready: where what a statement writes to stands in the frames of the program, and which
//! slot or which parts that are.
#![tactic(auto)]

mod chain;
mod kinds;
mod meant;
mod targets;

pub use chain::ready_place;
pub use kinds::kind_of;
pub use meant::{Meant, whole};
pub use targets::{fixed_range, parts_of, range_of, range_place_of, slot_place_of, target_of};
