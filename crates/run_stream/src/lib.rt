//! The run of a capture over any runner of packets: what is sent goes into a file, and what came of it into a
//! report.
//!
//! A runner takes one packet after another (`Runner`). `run_capture` reads the capture in pieces, hands each
//! packet to the runner as soon as its record is whole, and appends what comes of it to the sent file and the
//! report. So it needs memory for the list of ports, for one piece and one record and for what these give,
//! however long the capture is.
#![tactic(auto)]

mod capture;
mod counts;
mod line;
mod runner;
mod stream;

pub use capture::{RunNames, run_capture};
pub use counts::Counts;
pub use line::{put_work_line, run_command};
pub use runner::Runner;
