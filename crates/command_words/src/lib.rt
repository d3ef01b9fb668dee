//! The words of the commands of `p4x`: which words are a form of which command, and the files that it names with
//! its rule and bound.
#![tactic(auto)]

mod apart;
mod command;
mod forms;
mod options;
mod values;

pub use command::{CarryNames, Command, Run14Names, Run16Names};
pub use forms::read_words;
