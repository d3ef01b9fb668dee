// The tables of a block, where statements apply them.
ghost use Rattle.std.specs.Prelude.{◌≡◌};
ghost use Rattle.v1_ready_blocks.specs.Blocks.{table_applied};
ghost use Rattle.v1_statement_run.specs.Steps.{ground_of};
ghost use Rattle.v1_block_run.specs.Blocks.{seen_block};
ghost use Rattle.v1_block_tables.specs.Parts.{CanApply};

use crate::parts::FilledBlock;
use crate::spare::Spare;
use p4x_bits::OutOfMemory;
use state_store::Store;
use std::alloc::Global;
use std::cell::Cell;
use v1_core::Frame;
use v1_statement_run::{Run, Tables, Told};

/// The tables of a block: what applying one does is what the definitions say of the block and of the entries that fill it. What
/// actions work with is kept from one application to the next.
#[derive(Drop)]
pub struct BlockTables<'b, 'l> {
    alloc: Global,
    /// The block and the tables.
    pub of: FilledBlock<'b, 'l>,
    spare: Cell<Option<Box<Spare>>>,
    ghost can: { CanApply of.block.now },
}

impl<'b, 'l> BlockTables<'b, 'l> {
    /// The tables of a block. It takes no memory.
    pub fn new(alloc: Global, of: FilledBlock<'b, 'l>) -> Self
        requires { CanApply of.block.now }
        ensures { result.of ≡ of.entry }
    {
        BlockTables {
            alloc,
            of,
            spare: Cell::new(None),
        }
    }

    /// What an application works with. The one error is want of memory.
    fn take(&self) -> Result<Box<Spare>, OutOfMemory> {
        match self.spare.replace(None) {
            Some(spare) => Ok(spare),
            None => Ok(Box::new(self.alloc, Spare::new(self.alloc))?),
        }
    }
}

impl<'b, 'l> Tables for BlockTables<'b, 'l> {
    ghost base = { λ tables. ground_of tables.of.block.now.code };

    ghost applies = { λ tables. table_applied tables.of.fill.now (seen_block tables.of.block.now) };

    #[tactic(auto, using(crate::proofs::Arriving::table_there, crate::proofs::Arriving::was_applied))]
    fn apply(
        &self,
        table: u32,
        frame: &mut Frame<'_>,
        store: &mut Store,
        unparsed: &[u8],
        run: &mut Run<'_>,
    ) -> Result<Told, OutOfMemory> {
        // A table that isn't there counts as want of memory.
        let Some(found) = self.of.block.tables.get(table as usize) else {
            return Err(OutOfMemory);
        };
        let entry = self
            .of
            .found(self.alloc, found, frame, store, unparsed, run)?;
        let mut spare = self.take()?;
        let told = self
            .of
            .apply_found(found, entry, &mut *spare, frame, store, unparsed, run)?;
        self.spare.set(Some(spare));
        Ok(told)
    }
}
