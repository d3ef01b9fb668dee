//! Nodes that lead to others by their names, and whether one of them leads back to itself.
#![tactic(auto)]

mod cycles;
mod node;

pub use cycles::lead_back;
pub use node::NameNode;
