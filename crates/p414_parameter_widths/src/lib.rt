//! How wide the parameters of the actions of a P4_14 program are: as wide as the widest of their uses asks.
#![tactic(auto)]

mod placed;
mod row;
mod uses;
mod widths;

pub use uses::bits_of_ref;
pub use widths::{parameter_widths, widths_of_action};
