//! What the controls of P4_14 programs come to when they are expanded: the rule C16, and how deep blocks nest, of C28.
#![tactic(auto)]

mod control_graph;
mod controls;
mod counts;
mod deep;
mod depth;
mod long;
mod stack;

pub use control_graph::add_edge_to;
pub use controls::Controls;
pub use deep::nests_too_deep;
pub use long::has_bad_control;
