//! The transitions of a P4_16 parser made ready: keys are expressions over slots, cases are numbers, masks and ranges, and states
//! are numbers; and where a transition leads.
#![tactic(auto)]

mod cases;
mod laws;
mod rows;
mod selects;

pub use cases::{next_for, rows_of_cases};
pub use laws::{numbers_tell_states, rows_lead_alike};
pub use rows::{CaseRow, CaseTest, KeyTest, Led, Next, ReadyTransition};
pub use selects::SelectKeys;
