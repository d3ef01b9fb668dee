//! Single ready statements of P4_16, run over a packed frame, the store and what a run keeps: where they write,
//! expressions that may apply tables, the externs of `v1model.p4`, assignments and calls, and the parameters of
//! actions, which are copied in from left to right and out in the order of their positions. No name is looked up.
#![tactic(auto)]

mod arguments;
mod assignments;
mod buffers;
mod calls;
mod code;
mod externs;
mod headers;
mod incoming;
mod nodes;
mod numbers;
mod objects;
mod outgoing;
mod packets;
mod places;
mod ranges;
mod run;
mod sources;
mod stacks;
mod sums;
mod tables;
mod tests_of;

pub use arguments::gather;
pub use assignments::{assign, assign_parts, let_go, number_of};
pub use buffers::BitBuffer;
pub use calls::{apply, call_extern};
pub use code::Code;
pub use externs::execute;
pub use headers::{emit_headers, extract_header, pop_elements, push_elements, set_header};
pub use incoming::bring_in;
pub use nodes::{incoming_node, outgoing_node, slot_of};
pub use numbers::low;
pub use outgoing::give_back;
pub use packets::{emit, extract, move_on};
pub use places::{header_at, put, put_at, range_at, slot_at};
pub use ranges::{copy, empty, take};
pub use run::{Hit, Run};
pub use sources::{parts_at, source};
pub use stacks::{pop_front, push_front};
pub use tables::{NoTables, Tables, Told};
pub use tests_of::{is_stopped, stop, test};
