//! Names in order, each found by its octets.
#![tactic(auto)]

mod numbering;

pub use numbering::{Numbering, narrow, number_names};
