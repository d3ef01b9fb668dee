//! The rule C13 of P4_14 programs after expansion: what is given for a parameter of an action fits each place of a primitive
//! at which the parameter ends.
#![tactic(auto)]

mod expanded;
mod flow;
mod forms;
mod marks;
mod refused;

pub use expanded::expands_to_wrong_call;
