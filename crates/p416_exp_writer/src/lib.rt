//! Expressions and types of P4_16 that are written.
#![tactic(auto)]

mod layout;
mod operators;
mod parts;
mod pushes;
mod work;
mod write;

pub use parts::write_type;
pub use pushes::{push_five, push_four};
pub use work::Form;
pub use write::write_expression;
