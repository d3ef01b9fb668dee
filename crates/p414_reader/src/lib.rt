//! The reader of P4_14: a text's one syntax, or the rule that it breaks and the place.
#![tactic(auto)]

mod attributes;
mod bodies;
mod built;
mod calculations;
mod calls;
mod choose_expr;
mod declarations;
mod forest;
mod headers;
mod labels;
mod objects;
mod operators;
mod parts;
mod read;
mod reading;
mod rows;
mod states;
mod symbols;
mod tables;
mod token;

pub use read::read14;
pub use text_reading::ReadError;
