//! What a control of a P4_16 program declares, made ready: its actions with their parameters and bodies, and its
//! variables, actions and tables with their numbers.
#![tactic(auto)]

mod actions;
mod own;

pub use actions::{ready_actions, slot_of};
pub use own::{action_names, own_actions, own_tables, own_variables, table_names};
