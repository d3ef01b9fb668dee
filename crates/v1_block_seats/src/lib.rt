//! The names of a block of a P4_16 program with their seats: its parameters, which are the packet's headers, metadata and standard
//! metadata, and its variables; and the numbers of these variables among all of the program.
#![tactic(auto)]

mod blocks;
mod counting;
mod numbers;
mod roots;
mod variables;

pub use blocks::{control_seats, parser_seats};
pub use counting::{control_from, parser_from};
pub use numbers::{ControlNumbers, Variable, control_numbers, parser_variables};
pub use variables::variable_seat;
