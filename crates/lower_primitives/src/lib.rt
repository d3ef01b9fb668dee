//! What one primitive of an action becomes: what it reads of registers and hashes first, and what it does behind that. Each function
//! says which statements of the laws' mirror stand at the place that it gives.
#![tactic(auto)]

mod drops;
mod fits;
mod fronts;
mod hashes;
mod requests;
mod rests;
mod spares;
mod stacks;
mod sums;
mod terms;

pub use fits::{counter_has, rows_have};
pub use fronts::front;
pub use rests::rest;
