//! Whether a P4_16 program declares a name twice at the top, and whether the names in `main` are those of blocks, which rule T1
//! asks.
#![tactic(auto)]

mod blocks;
mod twice;

pub use blocks::names_no_block;
pub use twice::declares_twice;
