//! The parser of a P4_16 program made ready: its states are numbers, and their statements and transitions speak of slots,
//! headers and stacks alone. What such a parser does is said in the definitions.
#![tactic(auto)]

mod states;

pub use states::{ReadyParser, ReadyState};
