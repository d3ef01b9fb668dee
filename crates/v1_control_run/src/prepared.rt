// A prepared program.
use match_core::Entries;
use v1_block_run::ReadyBlock;
use v1_block_tables::FilledTables;
use v1_core::FrameLayout;
use v1_packets::Packets;
use v1_ready_states::ReadyParser;

/// A P4_16 program made ready to run, with what stands in its tables: lent to whatever runs packets.
#[derive(Clone, Copy, Drop)]
pub struct Prepared<'r> {
    /// Its packets, which know its syntax.
    pub packets: &'r Packets<'r>,
    /// The parts of its frames.
    pub layout: &'r FrameLayout,
    /// The entries of its tables.
    pub entries: &'r Entries,
    /// Its tables, filled with the entries.
    pub fill: &'r FilledTables<'r>,
    /// Its parser.
    pub parser: &'r ReadyParser,
    /// The statements of the parser, as a block without actions and tables.
    pub states: &'r ReadyBlock<'r>,
    /// The control that verifies checksums.
    pub verify: &'r ReadyBlock<'r>,
    /// The ingress.
    pub ingress: &'r ReadyBlock<'r>,
    /// The egress.
    pub egress: &'r ReadyBlock<'r>,
    /// The control that computes checksums.
    pub compute: &'r ReadyBlock<'r>,
    /// The deparser.
    pub deparse: &'r ReadyBlock<'r>,
}
