//! The signature of a P4_14 program that breaks no rule.
#![tactic(auto)]

mod signature;

pub use signature::signature14;
