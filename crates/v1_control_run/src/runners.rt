// The controls of a program, each with the room that its statements take.
ghost use Rattle.std.specs.Prelude.{◌≡◌, true, OnOk};
ghost use Rattle.v1_core.specs.declared.block.Block.{Block as Control};
ghost use Rattle.v1_ready_blocks.specs.Moments.{Moment};
ghost use Rattle.v1_ready_blocks.specs.Blocks.{ready_run};
ghost use Rattle.v1_statement_run.specs.Seen.{moment};
ghost use Rattle.v1_statement_run.specs.Steps.{Comes, IsOver, ground_of};
ghost use Rattle.v1_block_run.specs.Blocks.{seen_block};
ghost use Rattle.v1_block_tables.specs.Parts.{CanApply};
ghost use Rattle.v1_control_run.specs.Prepared.{IsPrepared};
ghost use Rattle.v1_control_run.specs.internal.Runs.{AreRunners, RunsBlock, filled_of};

use crate::prepared::Prepared;
use p4x_bits::OutOfMemory;
use state_store::Store;
use std::alloc::Global;
use v1_block_run::{ReadyBlock, is_nothing};
use v1_block_tables::{BlockRunner, FilledBlock, FilledTables};
use v1_core::{Block, Frame};
use v1_statement_run::Run;

/// What runs the controls of a program on one packet after another.
pub struct Runners<'r> {
    /// The control that verifies checksums.
    pub verify: BlockRunner<'r, 'r>,
    /// The ingress.
    pub ingress: BlockRunner<'r, 'r>,
    /// The egress.
    pub egress: BlockRunner<'r, 'r>,
    /// The control that computes checksums.
    pub compute: BlockRunner<'r, 'r>,
    /// The deparser.
    pub deparse: BlockRunner<'r, 'r>,
}

impl Drop for Runners<'_> {
    fn drop(self) {
        let Runners {
            verify: _verify,
            ingress: _ingress,
            egress: _egress,
            compute: _compute,
            deparse: _deparse,
        } = self;
    }
}

/// What runs a block with the tables of its program. It takes no memory.
#[tactic(auto, using(crate::proofs::Runs::runs_block))]
fn runner<'r>(
    alloc: Global,
    block: &'r ReadyBlock<'r>,
    fill: &'r FilledTables<'r>,
) -> BlockRunner<'r, 'r>
    requires { CanApply block.now }
    ensures { RunsBlock result.tables.of block.now fill.now }
{
    BlockRunner::new(alloc, FilledBlock { block, fill })
}

/// Whether a block has no statements, so that running it leaves everything as it is.
#[tactic(auto, using(crate::proofs::Seen::nothing_ran))]
pub fn is_empty(of: FilledBlock<'_, '_>) -> bool
    requires { CanApply of.block.now }
    ensures { result ≡ true → (m : Moment) → ready_run of.entry.fill.now (seen_block of.entry.block.now) m ≡ m }
{
    is_nothing(&of.block.code, of.block.body)
}

impl<'r> Runners<'r> {
    /// What runs the controls of a prepared program. It takes no memory.
    #[tactic(auto, using(crate::proofs::Runs::are_runners))]
    pub fn new(alloc: Global, of: Prepared<'r>) -> Self
        requires { IsPrepared of }
        ensures { AreRunners of.entry result }
    {
        Runners {
            verify: runner(alloc, of.verify, of.fill),
            ingress: runner(alloc, of.ingress, of.fill),
            egress: runner(alloc, of.egress, of.fill),
            compute: runner(alloc, of.compute, of.fill),
            deparse: runner(alloc, of.deparse, of.fill),
        }
    }

    /// The block that is run for a control, with its tables.
    #[tactic(auto, using(crate::proofs::Seen::filled_so))]
    pub fn block(&self, block: Block) -> FilledBlock<'r, 'r>
        ensures { result ≡ filled_of self.now block }
    {
        match block {
            Block::Verify => self.verify.tables.of,
            Block::Ingress => self.ingress.tables.of,
            Block::Egress => self.egress.tables.of,
            Block::Compute => self.compute.tables.of,
            Block::Deparse => self.deparse.tables.of,
        }
    }

    /// Runs the statements of a control. The one error is want of memory.
    pub fn run(
        &mut self,
        block: Block,
        frame: &mut Frame<'_>,
        store: &mut Store,
        unparsed: &[u8],
        run: &mut Run<'_>,
    ) -> Result<(), OutOfMemory>
        requires { IsOver (ground_of (filled_of self.old block).block.now.code) (moment frame.old store.old unparsed.now run.old) }
        ensures of { (b : Control) → filled_of self.new b ≡ filled_of self.old b }
        ensures runs { OnOk result (Comes (ground_of (filled_of self.old block).block.now.code) (ready_run (filled_of self.old block).fill.now (seen_block (filled_of self.old block).block.now) (moment frame.old store.old unparsed.now run.old)) (moment frame.new store.new unparsed.now run.new)) }
    {
        match block {
            Block::Verify => self.verify.run(frame, store, unparsed, run),
            Block::Ingress => self.ingress.run(frame, store, unparsed, run),
            Block::Egress => self.egress.run(frame, store, unparsed, run),
            Block::Compute => self.compute.run(frame, store, unparsed, run),
            Block::Deparse => self.deparse.run(frame, store, unparsed, run),
        }
    }
}
