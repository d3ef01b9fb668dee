//! Calls of the functions of `v1model.p4` made ready.
#![tactic(auto)]

mod drop;
mod function_statements;
mod functions;

pub use drop::ready_drop;
pub use function_statements::{ready_clone, ready_hash, ready_request, ready_update, ready_verify};
pub use functions::ready_function;
