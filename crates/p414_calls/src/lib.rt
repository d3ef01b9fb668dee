//! The calls in the actions of a P4_14 program, with what their arguments stand for, and the graph of the actions.
#![tactic(auto)]

mod action_edges;
mod argument;
mod calls;

pub use action_edges::{action_graph, action_number};
pub use argument::Argument;
pub use calls::{ActionCalls, Invocation, calls_of};
