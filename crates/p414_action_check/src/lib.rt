//! What the actions of a P4_14 program come to when calls of actions are expanded: the rule C15.
#![tactic(auto)]

mod counts;
mod expansions;
mod hashes;
mod listed;

pub use expansions::has_bad_action;
