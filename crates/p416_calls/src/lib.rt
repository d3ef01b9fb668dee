//! What the places of expressions of P4_16 ask for, and what calls want for their arguments, give and write.
#![tactic(auto)]

mod callee;
mod named;
mod place;
mod wanted;

pub use callee::{Callee, Function, Method};
pub use named::{function_named, method_named};
pub use place::Place;
