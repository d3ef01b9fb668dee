//! The one-table form of P4_14: programs with one header, one parser state that extracts it, and one table without keys whose one
//! action sends to a port. Here a syntax is found to be of the form, with the names and numbers that are free in it.
#![tactic(auto)]

mod fields;
mod form;
mod parts;
mod program;

pub use form::one_table_of;
pub use program::{Field, OneTable14};
