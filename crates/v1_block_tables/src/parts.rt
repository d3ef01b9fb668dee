// A block with the tables of its program.
use crate::fill::FilledTables;
use v1_block_run::ReadyBlock;

/// A block, and the tables of its program with the entries that fill them.
#[derive(Clone, Copy, Drop)]
pub struct FilledBlock<'b, 'l> {
    /// The block.
    pub block: &'b ReadyBlock<'l>,
    /// The tables.
    pub fill: &'b FilledTables<'b>,
}
