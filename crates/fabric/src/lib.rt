//! What both runners have in common: packets as they come in and leave, the items that wait for a pass, how a
//! pass ends, and the queue of passes itself.
//!
//! A packet that comes in is the first item of its queue. Each pass takes one item through parsing,
//! ingress and egress, and may queue further items: clones, resubmitted and recirculated packets.
#![tactic(auto)]

mod arrivals;
mod bounds;
mod calls;
mod fates;
mod items;
mod laws;
mod packets;
mod queue;

pub use arrivals::{Total, serve_all};
pub use bounds::{MOST_PASSES, is_bound};
pub use calls::{Passes, Watched};
pub use fates::{serve, serve_into};
pub use items::{EgressEnd, EgressNext, Event, IngressEnd, IngressNext, Item, Job, RequestKind};
pub use laws::{Twins, few_packets, joined_arrivals, same_fates, same_traces, traced_fates};
pub use packets::{Arrival, Fate, Out, RunResult, Sent};
