//! Calls of a P4_16 block's actions made ready: what is copied into the parameters, the body, and what is copied back.
#![tactic(auto)]

mod actions;
mod applies;
mod incoming;
mod outgoing;

pub use actions::ready_action;
