//! The work of a command on its files: what stops it, what is due, and how it ends, for all commands.
#![tactic(auto)]

mod stop;

pub use stop::{Limited, Stop, say_end};
