//! The rules of P4_14 programs that are asked of declarations one by one: keys and defaults of tables, conditions of
//! calculated fields, cells, expressions, and what this profile leaves out.
#![tactic(auto)]

mod calculated;
mod cells;
mod depths;
mod expressions;
mod tables;
mod unsupported;

pub use calculated::has_calculated_condition;
pub use cells::has_bad_cells;
pub use depths::has_deep_expression;
pub use expressions::{has_minus_sign, has_mistyped_expression};
pub use tables::{has_bad_default, has_bad_key, has_two_lpm_keys};
pub use unsupported::{declares_unsupported, uses_unsupported};
