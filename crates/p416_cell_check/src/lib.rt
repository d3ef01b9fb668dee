//! Whether the stateful objects of a P4_16 program have too many cells, or one of them too many or none, which breaks rule
//! T12.
#![tactic(auto)]

mod cells;
mod sums;

pub use sums::has_bad_cells;
