//! The parser of a translated program: the states of a P4_14 program under their new names, behind a state that gives metadata
//! its initial values where there are any.
#![tactic(auto)]

mod cases;
mod fits;
mod initials;
mod keys;
mod names;
mod parameters;
mod parser;
mod statements;
mod states;
mod values;

pub use parser::lower_parser;
