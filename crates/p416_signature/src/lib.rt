//! The signature of a P4_16 program: what a control plane sees of it, its tables and its stateful objects.
#![tactic(auto)]

mod actions;
mod by_name;
mod control;
mod keys;
mod objects;
mod order;
mod shapes;
mod signature;
mod tables;

pub use actions::{Listed, listed_actions};
pub use by_name::ByName;
pub use objects::{Found, Objects, all_objects, number_of, object_names, plane_in};
pub use order::in_order;
pub use shapes::plane_name;
pub use signature::signature16;
