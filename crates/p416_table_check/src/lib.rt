//! What T9 asks of the tables and actions of a P4_16 program, as far as it doesn't depend on what names mean: keys, default
//! actions, and the order of parameters.
#![tactic(auto)]

mod keys;
mod listed;
mod parameters;

pub use keys::has_bad_keys;
pub use listed::{has_outside_default, is_outside_actions};
pub use parameters::is_behind;
