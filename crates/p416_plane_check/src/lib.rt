//! Whether two tables, or two stateful objects, of a P4_16 program have one control-plane name, or a direct counter at the
//! top belongs to two tables, which breaks rule T9.
#![tactic(auto)]

mod counters;
mod names;
mod shared;

pub use shared::has_shared_names;
