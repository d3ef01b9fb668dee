//! The files that commands read beside a program and a capture: the ports that packets come in on, and what fills the tables of a program.
#![tactic(auto)]

mod entries;
mod ports;

pub use entries::read_entries;
pub use ports::read_ports;
