//! The P4_16 names of what a P4_14 program declares. A name stays where it can; else it begins as it did, and ends in `_`, a
//! letter, a number and `_`.
#![tactic(auto)]

mod fields;
mod making;
mod members;
mod once;
mod renamed;
mod staying;
mod words;

pub use fields::{FieldName, new_field_names};
pub use making::{called, made};
pub use members::{new_field, new_fields, new_parameters};
pub use once::{is_at, is_new};
pub use renamed::{Renamed, new_name, new_names};
