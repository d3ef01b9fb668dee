//! The expressions of a P4_16 program made ready: every name is found once, and what is left speaks of slots, headers and stacks
//! of the program's frames alone.
#![tactic(auto)]

pub mod asks;
pub mod build;
mod expressions;
mod leaves;
mod names;
pub mod plans;
mod scope;
pub mod spots;
pub mod ways;

pub use expressions::ready_expression;
pub use names::NamedSeats;
pub use plans::Around;
