//! The controls of a P4_14 program made ready to run: their statements by number, with tables, actions, conditions and controls
//! in place of names.
#![tactic(auto)]

mod building;
mod controls;
mod names;
mod nodes;

pub use controls::{ReadyControls, ready_controls};
pub use nodes::{ControlNode, ReadyLabel};
