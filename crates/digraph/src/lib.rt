//! Directed graphs: their strongly connected components in a finishing order, and what follows from them.
#![tactic(auto)]

mod condensation;
mod expansion;
mod graph;
mod reach;
mod search;
mod stack;

pub use condensation::Components;
pub use graph::Digraph;
