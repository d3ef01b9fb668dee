//! The commands that read a P4_14 program and write no file: `check`, which says whether it is taken, and `order`, which says
//! in which order its headers leave. A further command reads its program by the same call.
#![tactic(auto)]

mod commands;
mod headers;
mod program;

pub use commands::{check, order};
pub use program::read_program;
