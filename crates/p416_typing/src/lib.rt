//! What each expression within an expression of P4_16 is: found once for all of them, from the innermost outwards.
#![tactic(auto)]

mod parts;
mod row;
mod steps;
mod typed;

pub use parts::member_kind;
pub use row::Row;
pub use typed::{Typed, typed_expression};
