//! The reader of P4_16: a text's one syntax, or the rule that it breaks and the place.
#![tactic(auto)]

mod bodies;
mod built;
mod choose_operator;
mod controls;
mod declarations;
mod forest;
mod operators;
mod parts;
mod read;
mod reading;
mod rows;
mod seen;
mod states;
mod symbols;
mod token;
mod words;

pub use read::read16;
pub use text_reading::ReadError;
