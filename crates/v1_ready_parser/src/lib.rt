//! The states of a P4_16 parser made ready, with the variables of the parser, over whatever makes single statements ready.
#![tactic(auto)]

mod parser;
mod states;

pub use parser::ready_parser;
