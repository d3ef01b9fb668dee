//! The statements of a list of statements of P4_16 with all within them, one after another, each in the scope that it
//! stands in.
#![tactic(auto)]

mod visits;

pub use visits::{Visits, declare_variable, shorten};
