// A program that is made ready.
ghost use Rattle.std.specs.Prelude.{◌≡◌, IfOk};
ghost use Rattle.v1_core.specs.Programs.{layout16};
ghost use Rattle.v1_control_run.specs.Prepared.{IsPrepared, objects_of, setting_of};
ghost use Rattle.v1model_runner.specs.Ready.{AreReady};

use match_core::Entries;
use p4x_bits::OutOfMemory;
use state_store::Store;
use std::alloc::Global;
use std::marker::Model;
use v1_block_run::ReadyBlock;
use v1_block_tables::FilledTables;
use v1_control_run::{Prepared, PreparedBlocks};
use v1_core::FrameLayout;
use v1_packets::Packets;
use v1_ready_states::ReadyParser;

/// The ready blocks of a program.
pub struct ReadyBlocks<'r> {
    /// Its parser.
    pub parser: ReadyParser,
    /// The statements of the parser, as a block without actions and tables.
    pub states: ReadyBlock<'r>,
    /// The control that verifies checksums.
    pub verify: ReadyBlock<'r>,
    /// The ingress.
    pub ingress: ReadyBlock<'r>,
    /// The egress.
    pub egress: ReadyBlock<'r>,
    /// The control that computes checksums.
    pub compute: ReadyBlock<'r>,
    /// The deparser.
    pub deparse: ReadyBlock<'r>,
}

impl Drop for ReadyBlocks<'_> {
    fn drop(self) {
        let ReadyBlocks {
            parser: _parser,
            states: _states,
            verify: _verify,
            ingress: _ingress,
            egress: _egress,
            compute: _compute,
            deparse: _deparse,
        } = self;
    }
}

/// A P4_16 program with what stands in its tables, made ready to run packets. The layout of its frames and the entries are lent.
/// Contracts see the program with its entries.
pub struct ReadyProgram16<'r> {
    packets: Packets<'r>,
    layout: &'r FrameLayout,
    entries: &'r Entries,
    fill: FilledTables<'r>,
    blocks: ReadyBlocks<'r>,
}

impl Drop for ReadyProgram16<'_> {
    fn drop(self) {
        let ReadyProgram16 {
            packets: _packets,
            layout: _layout,
            entries: _entries,
            fill: _fill,
            blocks: _blocks,
        } = self;
    }
}

impl<'r> Model for ReadyProgram16<'r> {
    ghost use Rattle.v1_core.specs.Surroundings.{Setting};
    ghost use Rattle.v1_control_run.specs.Running.{coded_setting};
    ghost use Rattle.v1model_runner.specs.Ready.{IsReady};

    ghost Value = { Setting };

    ghost coded = { coded_setting };

    ghost view = { λ r. record { syntax = r.packets; entries = r.entries.now } };

    ghost invariant = { λ r. IsReady (record { syntax = r.packets; entries = r.entries.now }) r.layout.now r.fill r.blocks };
}

impl<'r> ReadyProgram16<'r> {
    /// A program of these packets, whose frames have this layout, with these entries and tables that they fill, and with blocks that
    /// do what those of the program do. It takes no memory.
    #[tactic(auto, using(crate::proofs::Preparing::is_ready))]
    pub fn new(
        packets: Packets<'r>,
        layout: &'r FrameLayout,
        entries: &'r Entries,
        fill: FilledTables<'r>,
        blocks: ReadyBlocks<'r>,
    ) -> Self
        requires layout { layout.now ≡ layout16 packets }
        requires blocks { AreReady (record { syntax = packets; entries = entries.now }) fill blocks }
        ensures { result ≡ record { syntax = packets.entry; entries = entries.now } }
    {
        ReadyProgram16 {
            packets,
            layout,
            entries,
            fill,
            blocks,
        }
    }

    /// What stands in its tables, with the clone sessions and the colours of its meters.
    pub fn entries(&self) -> &'r Entries
        ensures { result.now ≡ self.now.entries }
    {
        self.entries
    }

    /// Its parts, lent.
    #[tactic(auto, using(crate::proofs::Preparing::is_prepared))]
    fn prepared(&self) -> Prepared<'_>
        ensures prepared { IsPrepared result }
        ensures setting { setting_of result ≡ self.now }
    {
        Prepared {
            packets: &self.packets,
            layout: self.layout,
            entries: self.entries,
            fill: &self.fill,
            parser: &self.blocks.parser,
            states: &self.blocks.states,
            verify: &self.blocks.verify,
            ingress: &self.blocks.ingress,
            egress: &self.blocks.egress,
            compute: &self.blocks.compute,
            deparse: &self.blocks.deparse,
        }
    }

    /// What runs its blocks, with these counters, registers and meters. The one error is want of memory.
    #[tactic(auto, using(crate::proofs::Preparing::shaped, crate::proofs::Preparing::runs_so))]
    pub fn blocks(&self, alloc: Global, store: Store) -> Result<PreparedBlocks<'_>, OutOfMemory>
        requires { store.shapes ≡ objects_of self.now }
        ensures { IfOk result (λ blocks. blocks ≡ record { setting = self.now; store = store }) }
    {
        let blocks = PreparedBlocks::new(alloc, self.prepared(), store)?;
        Ok(blocks)
    }
}
