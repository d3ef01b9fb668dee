//! Whether an action of a P4_16 program calls itself, through others or directly, which breaks rule T8.
#![tactic(auto)]

mod cycles;
mod nodes;

pub use cycles::some_call_cycle;
