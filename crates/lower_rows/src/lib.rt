//! Rows of the new names by which a lowering writes the instances, fields, objects and calculations of a P4_14 program, each by its
//! number.
#![tactic(auto)]

mod calculations;
mod instances;
mod objects;

pub use calculations::{CalculationRow, HashItem};
pub use instances::{FieldRow, Form, InstanceRow};
pub use objects::{ObjectForm, ObjectRow};
