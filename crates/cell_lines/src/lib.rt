//! The lines that the report of a run has for the counters and registers of a program.
#![tactic(auto)]

mod lines;

pub use lines::put_cell_lines;
