//! The state of a packet under a P4_14 program, packed: the fields of a header lie side by side as on the wire, and what a
//! program names is found by number. A packet's run takes no memory here but for the applications of tables that are noted,
//! and for headers and stacks that are copied out of a state.
#![tactic(auto)]

mod header;
mod instance;
mod program;
mod requests;
mod stack;
mod standard;
mod state;

pub use header::PackedHeader;
pub use p414_sem::{Request14, Standard};
pub use program::layout14;
pub use stack::PackedStack;
pub use state::State14;
