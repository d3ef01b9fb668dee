//! The controls of a P4_14 program, run on the state of a packet and on the stores: tables are applied, conditions asked, and branches
//! taken.
#![tactic(auto)]

mod bodies;
mod pipelines;
mod running;
mod taken;
mod work;

pub use pipelines::{ReadyPipelines, ready_pipelines};
pub use work::ControlStack;
