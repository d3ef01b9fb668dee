//! The signature of a P4_14 program: what a control plane sees of it, its tables and its stateful objects.
#![tactic(auto)]

mod directs;
mod keys;
mod objects;
mod order;
mod shapes;
mod signature;
mod tables;

pub use order::object_names;
pub use signature::signature_of;
