//! Whether `main` of a P4_16 program names six blocks with their parameters, which rule T11 asks; what its headers and metadata
//! are; and at which places a name stands in it.
#![tactic(auto)]

mod block;
mod places;
mod six;
mod structs;

pub use places::MainPlaces;
pub use six::{MainKinds, is_main, main_kinds};
