//! What the instances of a P4_14 program are made of: of each its kind, the elements of a stack, and where each field lies,
//! found once for a program.
#![tactic(auto)]

mod fields;
mod layout;
mod shape;

pub use fields::{FieldPlace, FieldPlaces};
pub use layout::{Layout, layout_of};
pub use shape::Shape;
