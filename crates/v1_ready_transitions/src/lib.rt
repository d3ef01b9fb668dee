//! The transitions of a P4_16 parser made ready: their keys become expressions over slots, and their cases rows.
#![tactic(auto)]

mod transitions;

pub use transitions::ready_transition;
