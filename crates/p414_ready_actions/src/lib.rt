//! The actions of a P4_14 program as rows that are run on the state of a packet without looking up a name: calls of actions are
//! expanded, and names stand by number.
#![tactic(auto)]

mod arguments;
mod empties;
mod expansion;
mod names;
mod primitives;
mod rows;
mod words;

pub use expansion::ready_action;
pub use names::ActionNames;
pub use rows::{ReadyElement, ReadyPrimitive, ReadySource, ReadyTarget, ReadyTerm};
