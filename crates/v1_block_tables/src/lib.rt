//! The tables of a block, filled once and lent, and the block run with them: keys are evaluated, the best entry is found, and the
//! action runs that it names. No name is looked up.
#![tactic(auto)]

mod applying;
mod binding;
mod calls;
mod fill;
mod keys;
mod parts;
mod runner;
mod spare;
mod tables;

pub use fill::{FilledTables, filled_tables};
pub use parts::FilledBlock;
pub use runner::BlockRunner;
pub use tables::BlockTables;
