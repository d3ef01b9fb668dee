//! The file of table entries: what its lines say for a program's tables, sessions and meters, or the first
//! line that is refused and the least rule that it breaks.
#![tactic(auto)]

mod arguments;
mod calls;
mod cuts;
mod draft;
mod fault;
mod judge;
mod key_forms;
mod key_set;
mod name_index;
mod numerals;
mod reader;

pub use fault::EntryFault;
pub use reader::read_entries;
