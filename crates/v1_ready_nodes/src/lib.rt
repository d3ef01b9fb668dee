//! The expressions and the statements of a P4_16 block that are made ready so far, kept as nodes: what was put keeps its place and
//! stays what it is, whatever is put behind it.
#![tactic(auto)]

mod nodes;

pub use nodes::ReadyNodes;
