//! The field lists that calls of a P4_14 program preserve, their marks in P4_16, and the marks of each field.
#![tactic(auto)]

mod fields;
mod listed;
mod marks;
mod preserved;
mod table;

pub use fields::field_marks;
pub use marks::{Marked, mark_rows, marked_rows};
pub use preserved::preserved_flags;
pub use table::FieldMarks;
