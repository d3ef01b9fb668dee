//! The names that a P4_14 program uses, each with what is wanted there, in the order of the text.
#![tactic(auto)]

mod collect;
mod uses;

pub use collect::{last_extracted, uses_of};
pub use uses::Use;
