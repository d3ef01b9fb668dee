//! How much a P4_14 program asks of what runs or translates it.
#![tactic(auto)]

mod stage;

pub use p414_sem::Stage14;
pub use stage::stage_of;
