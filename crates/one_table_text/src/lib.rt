//! P4_16 programs with one header, one parser state and one table without keys: their syntax, which keeps the rules, and their text.
#![tactic(auto)]

mod bodies;
mod build;
mod expressions;
mod keeping;
mod one_table;
mod parts;
mod text;

pub use build::syntax_of;
pub use keeping::written_programs_keep_the_rules;
pub use one_table::OneTable16;
pub use text::{program_of, text_of};
