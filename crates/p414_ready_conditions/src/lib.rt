//! The conditions of a P4_14 program's controls, made ready to be asked of the state of a packet: names stand by number, each
//! comparison knows its width, and operands stand in front of their operators.
#![tactic(auto)]

mod conditions;
mod making;
mod numbers;
mod rows;
mod stack;
mod widths;

pub use conditions::ReadyCondition;
pub use making::ready_condition;
pub use rows::ConditionRow;
pub use stack::{NumberStack, read_field};
