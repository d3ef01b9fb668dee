//! The least order of the labels of a graph's nodes that keeps the order of each walk.
#![tactic(auto)]

mod constraints;
mod counting;
mod listing;
mod nodes;
mod order;
mod quotient;
mod rows;

pub use order::least_order;
