//! The calculated fields of a P4_14 program, verified and updated in the state of a packet.
#![tactic(auto)]

mod fields;
mod making;
mod program;
mod rows;

pub use fields::CalculatedFields;
pub use program::{calculated_fields14, update14, verify14};
pub use rows::{CalculatedRow, EntryRow, EntryTest};
