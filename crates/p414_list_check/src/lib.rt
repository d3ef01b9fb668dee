//! The rule C8 of P4_14 programs: their field lists, what these come to when they are expanded, and calculated fields.
#![tactic(auto)]

mod calculated;
mod expanded;
mod graph;
mod inputs;
mod lists;

pub use calculated::calculation_of;
pub use expanded::{inner_number, list_number};
pub use graph::list_graph;
pub use lists::{has_bad_list, list_lengths};
