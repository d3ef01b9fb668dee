// The blocks of a program (`v1model.p4`, `V1Switch`).
ghost use Rattle.std.specs.Prelude.{◌≡◌, map, IfOk};
ghost use Rattle.p416_syntax.specs.Declarations.{layouts_of};
ghost use Rattle.v1_core.specs.declared.block.Block.TheVariants.{Verify, Ingress, Egress, Compute, Deparse};
ghost use Rattle.v1_core.specs.Programs.{frame_kinds, first_start};
ghost use Rattle.v1_seats.specs.Seen.{seen_seat};
ghost use Rattle.v1_seats.specs.Frame.{seats_from};
ghost use Rattle.v1_ready_controls.specs.Program.{IsProgram};
ghost use Rattle.v1_ready_whole.specs.Ready.{IsReadyControl, AreReadyBlocks};
ghost use Rattle.v1_ready_whole.specs.internal.Named.{AreProgramNames};

use crate::blocks::control_in;
use crate::names::{ProgramNames, program_names};
use crate::parser::parser_in;
use crate::slots::standard_slot;
use p4x_bits::OutOfMemory;
use p416_main_check::main_kinds;
use p416_names::Top;
use p416_syntax::Syntax16;
use state_store::Shape;
use std::alloc::Global;
use v1_block_run::ReadyBlock;
use v1_core::{Block, FrameLayout};
use v1_layout::frame_kinds;
use v1_ready_controls::ProgramParts;
use v1_ready_states::ReadyParser;
use v1_seats::{Seat, TypeTable, seats_of};

const CHECKSUM_ERROR: &[u8] = b"checksum_error";

const PACKET_LENGTH: &[u8] = b"packet_length";

/// The blocks of a program made ready: its parser, whose statements stand in a block of their own, and its five controls.
#[derive(Drop)]
pub struct ReadyBlocks<'l> {
    /// The parser.
    pub parser: ReadyParser,
    /// The statements of the parser, as a block without actions and tables.
    pub states: ReadyBlock<'l>,
    /// The control that verifies checksums.
    pub verify: ReadyBlock<'l>,
    /// The ingress.
    pub ingress: ReadyBlock<'l>,
    /// The egress.
    pub egress: ReadyBlock<'l>,
    /// The control that computes checksums.
    pub compute: ReadyBlock<'l>,
    /// The deparser.
    pub deparse: ReadyBlock<'l>,
}

/// Where the parts of the types of a program with these names at the top stand.
fn types_of<'t, 'a>(
    alloc: Global,
    syntax: &'a Syntax16,
    top: &'t Top<'a>,
) -> Result<TypeTable<'t, 'a>, OutOfMemory>
    requires { top.now ≡ syntax.now.decls }
    ensures { IfOk result (λ types. types ≡ layouts_of syntax.now.decls) }
{
    let types = TypeTable::of(alloc, top)?;
    Ok(types)
}

/// The seats of all values of the frames of a program.
#[tactic(auto, using(crate::proofs::Standing::seats_are))]
fn frame_seats<'a>(
    alloc: Global,
    syntax: &'a Syntax16,
    top: &Top<'a>,
    types: &TypeTable<'_, 'a>,
) -> Result<Vec<Seat<'a>>, OutOfMemory>
    requires top { top.now ≡ syntax.now.decls }
    requires types { types.now ≡ layouts_of syntax.now.decls }
    ensures { IfOk result (λ seats. map seen_seat seats.items ≡ seats_from (layouts_of syntax.now.decls) (frame_kinds syntax.now) first_start) }
{
    let of = main_kinds(top, syntax.main.as_slice());
    let kinds = frame_kinds(alloc, top, syntax, of.headers, of.metadata)?;
    let seats = seats_of(alloc, types, &kinds)?;
    Ok(seats)
}

/// The ready controls up to the ingress.
#[derive(Drop)]
struct IngressBlocks<'l> {
    verify: ReadyBlock<'l>,
    ingress: ReadyBlock<'l>,
}

/// The ready controls from the egress on.
#[derive(Drop)]
struct EgressBlocks<'l> {
    egress: ReadyBlock<'l>,
    compute: ReadyBlock<'l>,
    deparse: ReadyBlock<'l>,
}

/// Makes the controls up to the ingress ready.
fn ingress_blocks<'a, 'l>(
    alloc: Global,
    program: ProgramParts<'_, 'a>,
    layout: &'l FrameLayout,
    shapes: &[Shape],
) -> Result<IngressBlocks<'l>, OutOfMemory>
    requires { IsProgram program }
    ensures verify { IfOk result (λ b. IsReadyControl program.entry.syntax.now layout.now shapes.now Verify b.verify) }
    ensures ingress { IfOk result (λ b. IsReadyControl program.entry.syntax.now layout.now shapes.now Ingress b.ingress) }
{
    let verify = control_in(alloc, program, Block::Verify, layout, shapes)?;
    let ingress = control_in(alloc, program, Block::Ingress, layout, shapes)?;
    Ok(IngressBlocks { verify, ingress })
}

/// Makes the controls from the egress on ready.
fn egress_blocks<'a, 'l>(
    alloc: Global,
    program: ProgramParts<'_, 'a>,
    layout: &'l FrameLayout,
    shapes: &[Shape],
) -> Result<EgressBlocks<'l>, OutOfMemory>
    requires { IsProgram program }
    ensures egress { IfOk result (λ b. IsReadyControl program.entry.syntax.now layout.now shapes.now Egress b.egress) }
    ensures compute { IfOk result (λ b. IsReadyControl program.entry.syntax.now layout.now shapes.now Compute b.compute) }
    ensures deparse { IfOk result (λ b. IsReadyControl program.entry.syntax.now layout.now shapes.now Deparse b.deparse) }
{
    let egress = control_in(alloc, program, Block::Egress, layout, shapes)?;
    let compute = control_in(alloc, program, Block::Compute, layout, shapes)?;
    let deparse = control_in(alloc, program, Block::Deparse, layout, shapes)?;
    Ok(EgressBlocks {
        egress,
        compute,
        deparse,
    })
}

/// Makes the blocks of a program ready that has these parts.
fn blocks_of<'a, 'l>(
    alloc: Global,
    program: ProgramParts<'_, 'a>,
    layout: &'l FrameLayout,
    shapes: &[Shape],
) -> Result<ReadyBlocks<'l>, OutOfMemory>
    requires { IsProgram program }
    ensures { IfOk result (AreReadyBlocks program.entry.syntax.now layout.now shapes.now) }
{
    let made = parser_in(alloc, program, layout, shapes)?;
    let front = ingress_blocks(alloc, program, layout, shapes)?;
    let back = egress_blocks(alloc, program, layout, shapes)?;
    Ok(ReadyBlocks {
        parser: made.parser,
        states: made.states,
        verify: front.verify,
        ingress: front.ingress,
        egress: back.egress,
        compute: back.compute,
        deparse: back.deparse,
    })
}

/// Makes the blocks of a program ready that has these names and these seats of all values of its frames.
fn blocks_seated<'p, 'a, 'l>(
    alloc: Global,
    syntax: &'a Syntax16,
    top: &'p Top<'a>,
    names: &'p ProgramNames<'a>,
    types: &'p TypeTable<'p, 'a>,
    seats: &'p [Seat<'a>],
    layout: &'l FrameLayout,
    shapes: &[Shape],
) -> Result<ReadyBlocks<'l>, OutOfMemory>
    requires top { top.now ≡ syntax.now.decls }
    requires names { AreProgramNames syntax.now names.now }
    requires types { types.now ≡ layouts_of syntax.now.decls }
    requires seats { map seen_seat seats.now ≡ seats_from (layouts_of syntax.now.decls) (frame_kinds syntax.now) first_start }
    ensures { IfOk result (AreReadyBlocks syntax.now layout.now shapes.now) }
{
    let checksum_error = standard_slot(syntax, types, seats, CHECKSUM_ERROR)?;
    let packet_length = standard_slot(syntax, types, seats, PACKET_LENGTH)?;
    let program = ProgramParts {
        syntax,
        top,
        types,
        places: &names.places,
        seats,
        objects: &names.objects,
        tables: &names.tables,
        checksum_error,
        packet_length,
    };
    let blocks = blocks_of(alloc, program, layout, shapes)?;
    Ok(blocks)
}

/// Makes the blocks of a program ready that has these names.
fn blocks_named<'p, 'a, 'l>(
    alloc: Global,
    syntax: &'a Syntax16,
    top: &'p Top<'a>,
    names: &'p ProgramNames<'a>,
    layout: &'l FrameLayout,
    shapes: &[Shape],
) -> Result<ReadyBlocks<'l>, OutOfMemory>
    requires top { top.now ≡ syntax.now.decls }
    requires names { AreProgramNames syntax.now names.now }
    ensures { IfOk result (AreReadyBlocks syntax.now layout.now shapes.now) }
{
    let types = types_of(alloc, syntax, top)?;
    let seats = frame_seats(alloc, syntax, top, &types)?;
    let blocks = blocks_seated(alloc, syntax, top, names, &types, &seats, layout, shapes)?;
    Ok(blocks)
}

/// Makes the parser and the five controls of a program ready, over the frames of this layout, which is that of the program, and
/// objects of these shapes. In time proportional to the program, but for look-ups and the order of names, and for what stands in
/// front of each block. The one error is want of memory, which what no accepted program has counts as.
pub fn ready_blocks<'l>(
    alloc: Global,
    syntax: &Syntax16,
    layout: &'l FrameLayout,
    shapes: &[Shape],
) -> Result<ReadyBlocks<'l>, OutOfMemory>
    ensures { IfOk result (AreReadyBlocks syntax.now layout.now shapes.now) }
{
    let top = Top::of(alloc, syntax.decls.as_slice())?;
    let names = program_names(alloc, syntax)?;
    let blocks = blocks_named(alloc, syntax, &top, &names, layout, shapes)?;
    Ok(blocks)
}
