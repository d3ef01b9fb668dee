//! What T9 asks of the tables of a P4_16 program with the actions that they list, and of the labels of `switch`.
#![tactic(auto)]

mod actions;
mod labels;
mod pairs;
mod planes;
mod tables;

pub use labels::{Listings, has_outside_label};
pub use pairs::{PairSet, add_actions};
pub use tables::is_bad_table;
