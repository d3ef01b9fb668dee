//! Where values, and parts of them, stand in the frames of a P4_16 program: found once, with no struct gone through for a use.
#![tactic(auto)]

mod extents;
mod frame;
mod laying;
mod members;
mod rows;
mod seat;
mod start;
mod types;

pub use frame::seats_of;
pub use seat::Seat;
pub use start::Start;
pub use types::TypeTable;
