//! The tables that egress applies, and the copies of actions: one for each pipeline whose tables list the action, and one for
//! each table with a direct counter that lists it.
#![tactic(auto)]

mod applied;
mod applied_graph;
mod copies;

pub use applied::egress_tables;
pub use copies::{ActionCopy, action_copies};
