//! Assignments, variables and calls of a P4_16 block made ready: what is written to is a slot or parts of the frame,
//! what is assigned a test or parts, and what is called an action of the block, a function of `v1model.p4`, or a
//! method.
#![tactic(auto)]

mod assignments;
mod calls;

pub use assignments::{assigned, ready_assignment, ready_initial, ready_start};
pub use calls::ready_call;
