//! The order in which the headers of a P4_14 program leave.
#![tactic(auto)]

mod fault;
mod headers;
mod lists;

pub use fault::OrderFault;
pub use headers::order;
