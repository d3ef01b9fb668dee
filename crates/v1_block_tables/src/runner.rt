// A block is run.
ghost use Rattle.std.specs.Prelude.{◌≡◌, OnOk};
ghost use Rattle.v1_ready_blocks.specs.Blocks.{ready_run};
ghost use Rattle.v1_statement_run.specs.Seen.{moment};
ghost use Rattle.v1_statement_run.specs.Steps.{Comes, IsOver, ground_of};
ghost use Rattle.v1_block_run.specs.Blocks.{seen_block};
ghost use Rattle.v1_block_tables.specs.Parts.{CanApply};

use crate::parts::FilledBlock;
use crate::tables::BlockTables;
use p4x_bits::OutOfMemory;
use state_store::Store;
use std::alloc::Global;
use v1_block_run::{Level, Task, run_statements};
use v1_core::Frame;
use v1_statement_run::Run;
use work_stack::Stack;

/// Runs a block on one packet after another. Its room stays from packet to packet.
#[derive(Drop)]
pub struct BlockRunner<'b, 'l> {
    tasks: Stack<Task>,
    /// The block and its tables.
    pub tables: BlockTables<'b, 'l>,
}

impl<'b, 'l> BlockRunner<'b, 'l> {
    /// What runs a block with its tables. It takes no memory.
    pub fn new(alloc: Global, of: FilledBlock<'b, 'l>) -> Self
        requires { CanApply of.block.now }
        ensures { result.tables.of ≡ of.entry }
    {
        BlockRunner {
            tasks: Stack::new(alloc),
            tables: BlockTables::new(alloc, of),
        }
    }

    /// Runs the statements of the block on the frame of a packet, with a store, with octets that aren't parsed, and with what a run
    /// keeps besides: exactly what the definitions say of the block and of the entries that fill its tables. It takes memory where
    /// room grows, for bits that are emitted, and for a note of each application. The one error is want of memory, which a table that
    /// isn't there and a block that takes octets count as; after it runner, frame, store and run are not used again.
    pub fn run(
        &mut self,
        frame: &mut Frame<'_>,
        store: &mut Store,
        unparsed: &[u8],
        run: &mut Run<'_>,
    ) -> Result<(), OutOfMemory>
        requires { IsOver (ground_of self.old.tables.of.block.now.code) (moment frame.old store.old unparsed.now run.old) }
        ensures of { self.new.tables.of ≡ self.old.tables.of }
        ensures runs { OnOk result (Comes (ground_of self.old.tables.of.block.now.code) (ready_run self.old.tables.of.fill.now (seen_block self.old.tables.of.block.now) (moment frame.old store.old unparsed.now run.old)) (moment frame.new store.new unparsed.now run.new)) }
    {
        let block = self.tables.of.block;
        let end = run_statements(
            block,
            &self.tables,
            Level::Block,
            block.body,
            &mut self.tasks,
            frame,
            store,
            unparsed,
            0,
            run,
        )?;
        if end != 0 {
            return Err(OutOfMemory);
        }
        Ok(())
    }
}
