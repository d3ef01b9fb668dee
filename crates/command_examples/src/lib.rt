//! The commands over a desk and a sink in memory, where files can't show it: faults in the middle of a command, want of memory, a count of
//! faults for each name, and what the person at the terminal is told. Beside the tests stands a plain program that follows the meaning of
//! P4_14.
#![tactic(auto)]

#[cfg(test)]
mod advice;
#[cfg(test)]
mod counts;
#[cfg(test)]
mod faults;
#[cfg(test)]
mod meaning;
#[cfg(test)]
mod memory;
pub mod named;
pub mod plain;
#[cfg(test)]
mod setting;
#[cfg(test)]
mod slow;
