// A program made ready.
ghost use Rattle.std.specs.Prelude.{◌≡◌, IfOk};
ghost use Rattle.match_core.specs.Fits.{Fits};
ghost use Rattle.match_core.specs.Signatures.{IsSignature};
ghost use Rattle.v1_core.specs.Signatures.{signature16};
ghost use Rattle.v1_core.specs.Programs.{layout16};
ghost use Rattle.v1model_program.specs.Laws.{taken};

use match_core::{Entries, Signature, first_store};
use p4x_bits::OutOfMemory;
use p416_main_check::main_kinds;
use p416_names::Top;
use p416_program::Program16;
use p416_syntax::Syntax16;
use std::alloc::Global;
use v1_block_tables::filled_tables;
use v1_core::FrameLayout;
use v1_layout::layout_of_program;
use v1_packets::Packets;
use v1_ready_whole::{ReadyBlocks as Made, ready_blocks};
use v1model_runner::{ReadyBlocks, ReadyProgram16};

/// The layout of the frames of a program: the widths of its slots, and how many headers and stacks there are (this project's own). In
/// time linear in the program and in the frame, but for look-ups. The one error is want of memory.
pub fn frame_layout16(alloc: Global, program: &Program16) -> Result<FrameLayout, OutOfMemory>
    ensures { IfOk result (λ layout. layout ≡ layout16 program.now) }
{
    let syntax = program.syntax();
    let top = Top::of(alloc, syntax.decls.as_slice())?;
    let of = main_kinds(&top, syntax.main.as_slice());
    layout_of_program(alloc, &top, syntax, of.headers, of.metadata)
}

/// What the passes of a packet do to its frame between two blocks.
fn packets_of<'r>(
    alloc: Global,
    syntax: &'r Syntax16,
    layout: &'r FrameLayout,
) -> Result<Packets<'r>, OutOfMemory>
    requires { layout.now ≡ layout16 syntax.now }
    ensures { IfOk result (λ packets. packets ≡ syntax.now) }
{
    let top = Top::of(alloc, syntax.decls.as_slice())?;
    let of = main_kinds(&top, syntax.main.as_slice());
    Packets::new(alloc, &top, syntax, layout, of.headers, of.metadata)
}

/// Blocks as a runner takes them.
fn taken(made: Made<'_>) -> ReadyBlocks<'_>
    ensures { result ≡ taken made.entry }
{
    ReadyBlocks {
        parser: made.parser,
        states: made.states,
        verify: made.verify,
        ingress: made.ingress,
        egress: made.egress,
        compute: made.compute,
        deparse: made.deparse,
    }
}

/// Makes a program ready to run packets, with the entries that stand in its tables. The layout of its frames is handed in, which
/// `frame_layout16` makes. What is ready runs exactly this program with these entries. In time O(n log n) in the program and the
/// entries, but for what stands in front of each block.
///
/// # Errors
/// It fails for want of memory alone.
#[tactic(auto, using(crate::proofs::Making::seen_so))]
pub fn ready_program16<'r>(
    alloc: Global,
    program: &'r Program16,
    layout: &'r FrameLayout,
    signature: &Signature,
    entries: &'r Entries,
) -> Result<ReadyProgram16<'r>, OutOfMemory>
    requires layout { layout.now ≡ layout16 program.now }
    requires signature { signature.now ≡ signature16 program.now }
    requires formed { IsSignature signature.now }
    requires fits { Fits entries.now signature.now }
    ensures { IfOk result (λ ready. ready ≡ record { syntax = program.now; entries = entries.now }) }
{
    let syntax = program.syntax();
    let packets = packets_of(alloc, syntax, layout)?;
    let fill = filled_tables(alloc, signature, entries)?;
    let store = first_store(alloc, signature, entries)?;
    let made = ready_blocks(alloc, syntax, layout, store.shapes())?;
    Ok(ReadyProgram16::new(packets, layout, entries, fill, taken(made)))
}
