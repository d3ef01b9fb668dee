//! The tables of a P4_16 control made ready: keys become expressions over slots, and tables, counters and actions numbers.
#![tactic(auto)]

mod actions;
mod defaults;
mod keys;
mod listed;
mod names;
mod tables;

pub use names::TableNames;
pub use tables::ready_tables;
