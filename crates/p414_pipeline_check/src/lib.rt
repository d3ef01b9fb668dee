//! What the pipelines of P4_14 programs apply and reach: the rules C17 and C22.
#![tactic(auto)]

mod applied;
mod applied_graph;
mod misplaced;
mod requests;
mod shared;

pub use misplaced::has_misplaced_request;
pub use shared::has_shared_table;
