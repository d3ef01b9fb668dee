//! Statements of P4_16 that are written.
#![tactic(auto)]

mod layout;
mod parts;
mod work;
mod write;

pub use write::write_statements;
