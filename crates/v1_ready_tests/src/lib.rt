//! The expressions of a P4_16 block in which tables may be applied, made ready: what applies no table is a ready
//! expression, and what stands around an application is a test; and the arguments of externs: values, and the items of
//! lists in braces, one after another.
#![tactic(auto)]

mod applied;
mod arguments;
mod made;
mod plans;
mod putting;
mod tests;
mod views;

pub use arguments::{list_before, no_arguments, value_before};
pub use tests::ready_test;
pub use views::arguments_in;
