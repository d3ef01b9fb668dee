//! The commands of `p4x` over a desk of files and a sink to print to.
#![tactic(auto)]

mod capture;
mod carry;
mod lowering;
mod plain;
mod top;

pub use top::p4x;
