//! Whether the headers and metadata of a P4_16 program, or what its variables and action parameters hold, are too large, which
//! breaks rule T12.
#![tactic(auto)]

mod headers;
mod variables;

pub use headers::has_large_headers;
pub use variables::has_large_variables;
