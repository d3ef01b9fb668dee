//! The statements of a block, run over a packed frame, the store and what a run keeps, by a stack of what is still to be done. No
//! name is looked up, and nothing calls itself.
#![tactic(auto)]

mod arranging;
mod block;
mod calls;
mod counting;
mod levels;
mod lists;
mod nodes;
mod run;
mod tasks;

pub use block::{Chosen, ReadyAction, ReadyBlock, ReadyTable};
pub use nodes::is_nothing;
pub use run::{run_action, run_statements};
pub use tasks::{Level, Task};
