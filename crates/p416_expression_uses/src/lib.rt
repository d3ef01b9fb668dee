//! Expressions, types and numbers of P4_16 are judged: which rule of T1 to T6, T8 and T10 is the first that one breaks in its
//! place, or something within it in the place that it has there, and what questions about more than one of them need.
#![tactic(auto)]

mod first;
mod found;
mod numbers;
mod operands;
mod places;
mod spots;
mod types;
mod walk;

pub use first::lower;
pub use found::{Counted, Findings};
pub use numbers::{see_number, see_width};
pub use operands::{cast_place, chosen_place, left_place, right_place, unary_place};
pub use places::{Arguments, Places};
pub use types::{TypePlace, see_type};
pub use walk::see_expression;
