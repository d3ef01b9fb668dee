//! The tables of a P4_14 program made ready to be applied: keys, actions and direct counters by number, the entries that fill them,
//! and the actions that they run.
#![tactic(auto)]

mod actions;
mod applied;
mod apply;
mod calls;
mod defaults;
mod keys;
mod making;
mod ready;
mod tables;

pub use applied::ReadyApplied;
pub use ready::{ReadyTables, ready_tables};
