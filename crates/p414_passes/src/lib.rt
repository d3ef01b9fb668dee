//! What a pass of a packet needs beside its parser and its controls, for a P4_14 program: how it begins with what is preserved,
//! what a request preserves, the octets that leave in the order of the headers, and the states in which packets are handed on.
#![tactic(auto)]

mod begin;
mod kept;
mod leaving;
mod order;
mod states;

pub use begin::{begin_again, begin_item, put_kept};
pub use kept::Kept14;
pub use leaving::{are_whole, deparse};
pub use order::header_order;
pub use states::{begin_egress, clone_packet, hand_on};
