//! Calls of methods made ready: those of headers, stacks, packets, tables and stateful objects.
#![tactic(auto)]

mod method_statements;
mod methods;
mod objects;

pub use method_statements::{
    ready_apply, ready_emit, ready_extract, ready_header, ready_let_go, ready_stack,
};
pub use methods::ready_method;
pub use objects::{ready_count, ready_count_entry, ready_meter, ready_read, ready_write};
