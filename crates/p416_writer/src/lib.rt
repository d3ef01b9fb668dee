//! P4_16 programs that are written: a text that reads as the syntax and as no other.
#![tactic(auto)]

mod program;
mod write;

pub use program::{read_back, write16};
pub use write::write_syntax16;
