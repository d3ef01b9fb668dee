// The blocks of a program by their places in `main` (`v1model.p4`, `V1Switch`).
ghost use Rattle.std.specs.Prelude.{◌≡◌, [], option_copied, slice_index_or, IfOk};
ghost use Rattle.v1_core.specs.Blocks.{control_at, control_called, position_of};
ghost use Rattle.v1_core.specs.Parsing.{parser_called, parser_of};
ghost use Rattle.v1_ready_controls.specs.Program.{IsProgram};
ghost use Rattle.v1_ready_whole.specs.Ready.{IsReadyControl};

use p4x_bits::{OutOfMemory, Text};
use p416_syntax::{Control16, Decl16, Parser16, Syntax16};
use state_store::Shape;
use std::alloc::Global;
use v1_block_run::ReadyBlock;
use v1_core::{Block, FrameLayout};
use v1_ready_controls::{ProgramParts, ready_control};

/// The control of this name that is declared first.
fn control_called<'a>(decls: &'a [Decl16], name: &[u8]) -> Option<&'a Control16>
    ensures { option_copied result ≡ control_called decls.now name.now }
{
    for decl in decls {
        if let Decl16::Control(control) = decl {
            if control.name.as_slice() == name {
                return Some(control);
            }
        }
    }
    None
}

/// The parser of this name that is declared first.
fn parser_called<'a>(decls: &'a [Decl16], name: &[u8]) -> Option<&'a Parser16>
    ensures { option_copied result ≡ parser_called decls.now name.now }
{
    for decl in decls {
        if let Decl16::Parser(parser) = decl {
            if parser.name.as_slice() == name {
                return Some(parser);
            }
        }
    }
    None
}

/// The name at a place of `main`; an empty one where there is none.
fn name_at(main: &[Text], place: usize) -> &[u8]
    ensures { result.now ≡ slice_index_or main.now place [] }
{
    match main.get(place) {
        Some(name) => name.as_slice(),
        None => &[],
    }
}

/// The place of a control in `main`.
fn position_of(block: Block) -> usize
    ensures { result ≡ position_of block }
{
    match block {
        Block::Verify => 1,
        Block::Ingress => 2,
        Block::Egress => 3,
        Block::Compute => 4,
        Block::Deparse => 5,
    }
}

/// The control that stands as this block.
fn control_at(syntax: &Syntax16, block: Block) -> Option<&Control16>
    ensures { option_copied result ≡ control_at syntax.now block }
{
    let name = name_at(syntax.main.as_slice(), position_of(block));
    control_called(syntax.decls.as_slice(), name)
}

/// The parser of a program.
pub(crate) fn parser_of(syntax: &Syntax16) -> Option<&Parser16>
    ensures { option_copied result ≡ parser_of syntax.now }
{
    let name = name_at(syntax.main.as_slice(), 0);
    parser_called(syntax.decls.as_slice(), name)
}

/// Makes the control ready that stands as this block. A program without it, and one whose control is none, count as want of memory.
pub(crate) fn control_in<'a, 'l>(
    alloc: Global,
    program: ProgramParts<'_, 'a>,
    block: Block,
    layout: &'l FrameLayout,
    shapes: &[Shape],
) -> Result<ReadyBlock<'l>, OutOfMemory>
    requires { IsProgram program }
    ensures { IfOk result (IsReadyControl program.entry.syntax.now layout.now shapes.now block) }
{
    let Some(control) = control_at(program.syntax, block) else {
        return Err(OutOfMemory);
    };
    match ready_control(alloc, program, block, control, layout, shapes)? {
        Some(ready) => Ok(ready),
        None => Err(OutOfMemory),
    }
}
