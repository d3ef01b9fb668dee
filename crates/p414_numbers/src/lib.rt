//! The numbers of the declarations of a P4_14 program, found by sort and name. The names are copied, so that a program can
//! keep them beside its syntax.
#![tactic(auto)]

mod numbers;
mod owned_names;

pub use numbers::{DeclNumbers, numbers_of};
