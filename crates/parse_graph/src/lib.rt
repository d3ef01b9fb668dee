//! The parser states of a P4_14 program as a graph, and its idle cycles.
#![tactic(auto)]

mod idle;
mod names;
mod nodes;
mod program;

pub use idle::first_idle_cycle;
pub use nodes::{Graph, StateNode};
pub use program::graph;
