//! Whether the states of the parsers of a P4_16 program keep rule T7: one is named `start`, and each cycle of them
//! extracts.
#![tactic(auto)]

mod body;
mod graph;
mod states;

pub use states::{do_states_break, has_bad_states};
