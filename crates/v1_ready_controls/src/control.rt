// A control made ready (P4_16 1.2, "Control blocks").
ghost use Rattle.std.specs.Prelude.{◌≡◌, option_map, IfOk, IfSome, OnOk};
ghost use Rattle.p416_scopes.specs.Seen.{seen_scope};
ghost use Rattle.v1_core.specs.Signatures.{key_scope};
ghost use Rattle.v1_block_laws.specs.Variables.{scope_in_control};
ghost use Rattle.v1_ready_nodes.specs.Held.{IsHeld, Grows};
ghost use Rattle.v1_block_tables.specs.Parts.{CanApply};
ghost use Rattle.v1_ready_statements.specs.Blocks.{ready_control};
ghost use Rattle.v1_block_run.specs.Blocks.{seen_block};
ghost use Rattle.v1_ready_controls.specs.Program.{IsProgram};
ghost use Rattle.v1_ready_locals.specs.Seen.{code_of, IsReadyOver};
ghost use Rattle.v1_ready_controls.specs.internal.Declared.{seen_parts, ArePartsIn, IsControl};

use crate::declared::{Declared, callees_of, declarations_of, names_of};
use crate::program::ProgramParts;
use crate::singles::InBlock;
use crate::whole::{Parts, ready_parts};
use p4x_bits::OutOfMemory;
use p416_scopes::{Part, Scope};
use p416_syntax::Control16;
use state_store::Shape;
use std::alloc::Global;
use v1_block_run::ReadyBlock;
use v1_block_seats::{control_from, control_numbers, control_seats};
use v1_core::{Block, FrameLayout};
use v1_ready_bodies::Standing;
use v1_ready_nodes::ReadyNodes;
use v1_ready_program::NamedSeats;
use v1_statement_run::Code;

/// A control that stands in the program: the scopes of its statements and of its keys, its names with their seats, what it
/// declares, and the number of the first variable of its statements.
#[derive(Drop)]
struct Control<'t, 'a> {
    scope: Scope<'t, 'a>,
    keys: Scope<'t, 'a>,
    seats: NamedSeats<'a>,
    own: Declared<'a>,
    body: usize,
}

/// The scope of the keys of a control.
fn keys_scope<'t, 'a>(
    alloc: Global,
    program: ProgramParts<'t, 'a>,
    control: &'a Control16,
) -> Result<Scope<'t, 'a>, OutOfMemory>
    requires { IsProgram program }
    ensures scope { IfOk result (λ s. seen_scope s ≡ key_scope (scope_in_control program.entry.syntax.now control.now)) }
    ensures top { IfOk result (λ s. s.top ≡ program.entry.top) }
{
    let mut scope = control_scope(alloc, program, control)?;
    scope.part = Part::InKey;
    Ok(scope)
}

/// The scope of the statements of a control.
#[tactic(auto, using(crate::proofs::Standing::scope_is))]
fn control_scope<'t, 'a>(
    alloc: Global,
    program: ProgramParts<'t, 'a>,
    control: &'a Control16,
) -> Result<Scope<'t, 'a>, OutOfMemory>
    requires { IsProgram program }
    ensures scope { IfOk result (λ s. seen_scope s ≡ scope_in_control program.entry.syntax.now control.now) }
    ensures top { IfOk result (λ s. s.top ≡ program.entry.top) }
{
    let positions = program.places.of_name(control.name.as_slice());
    let scope = Scope::of_control(alloc, program.top, positions, control)?;
    Ok(scope)
}

/// A control that stands as this block.
fn control_in<'t, 'a>(
    alloc: Global,
    program: ProgramParts<'t, 'a>,
    block: Block,
    control: &'a Control16,
) -> Result<Control<'t, 'a>, OutOfMemory>
    requires { IsProgram program }
    ensures { IfOk result (IsControl program.entry block control.now) }
{
    let mut scope = control_scope(alloc, program, control)?;
    let keys = keys_scope(alloc, program, control)?;
    let first = control_from(alloc, program.top, program.syntax, control)?;
    let locals = control.locals.as_slice();
    let numbers = control_numbers(alloc, &mut scope, first, locals)?;
    let seats = control_seats(
        alloc,
        program.syntax,
        program.seats,
        block,
        control,
        &numbers.variables,
    )?;
    let own = declarations_of(alloc, &numbers, locals)?;
    let body = numbers.body;
    Ok(Control {
        scope,
        keys,
        seats,
        own,
        body,
    })
}

/// A ready block of these parts, over what is held.
#[tactic(auto, using(crate::proofs::Standing::can_apply))]
fn ready_block<'l>(nodes: ReadyNodes<'l>, parts: Parts) -> ReadyBlock<'l>
    ensures block { seen_block result ≡ seen_parts nodes.entry parts }
    ensures code { code_of result ≡ nodes.entry }
    ensures applies { IsHeld nodes.entry → nodes.entry.expressions.layout ≡ nodes.entry.statements.ground.layout → ArePartsIn nodes.entry.statements.ground.layout nodes.entry parts → CanApply result }
{
    let ReadyNodes {
        expressions,
        statements,
    } = nodes;
    let Parts {
        actions,
        tables,
        body,
    } = parts;
    ReadyBlock {
        code: Code {
            expressions,
            statements,
        },
        actions,
        tables,
        body,
    }
}

/// Makes the parts of a control ready that stands in the program so.
#[tactic(auto, using(crate::proofs::Standing::types_over, crate::proofs::Standing::keys_over))]
fn parts_of<'t, 'a>(
    alloc: Global,
    program: ProgramParts<'t, 'a>,
    block: Block,
    control: &'a Control16,
    stands: Control<'t, 'a>,
    layout: &FrameLayout,
    nodes: &mut ReadyNodes<'_>,
) -> Result<Option<Parts>, OutOfMemory>
    requires program { IsProgram program }
    requires stands { IsControl program block control.now stands }
    requires held { IsHeld nodes.old }
    ensures parts { IfOk result (λ found. option_map (seen_parts nodes.new) found ≡ ready_control program.entry.syntax.now block control.now) }
    ensures within { IfOk result (λ found. IfSome found (ArePartsIn layout.now nodes.new)) }
    ensures grows { OnOk result (Grows nodes.old nodes.new) }
{
    let Control {
        scope,
        keys,
        seats,
        own,
        body,
    } = stands;
    let callees = callees_of(
        program.syntax,
        program.objects,
        program.seats,
        program.checksum_error,
        program.packet_length,
        control.locals.as_slice(),
        &own,
    );
    let singles = InBlock::new(callees);
    let names = names_of(
        program.tables,
        &own.objects,
        program.objects,
        &own.action_names,
    );
    let mut standing = Standing {
        scope,
        seats,
        types: program.types,
        number: body,
    };
    let found = ready_parts(
        alloc,
        &singles,
        nodes,
        &mut standing,
        &keys,
        names,
        layout,
        &own,
        body,
        control,
    )?;
    Ok(found)
}

/// Makes a control ready that stands in the program as this block, over the frames of this layout and objects of these shapes: exactly
/// `ready_control` of the definitions, and none where that is none. In time proportional to the control, but for look-ups, for the
/// order of names, and for the declarations in front of it. The one error is want of memory, which what no accepted program has
/// counts as.
pub fn ready_control<'a, 'l>(
    alloc: Global,
    program: ProgramParts<'_, 'a>,
    block: Block,
    control: &'a Control16,
    layout: &'l FrameLayout,
    shapes: &[Shape],
) -> Result<Option<ReadyBlock<'l>>, OutOfMemory>
    requires { IsProgram program }
    ensures block { IfOk result (λ found. option_map seen_block found ≡ ready_control program.entry.syntax.now block control.now) }
    ensures over { IfOk result (λ found. IfSome found (IsReadyOver layout.now shapes.now)) }
{
    let stands = control_in(alloc, program, block, control)?;
    let mut nodes = ReadyNodes::new(alloc, layout, shapes)?;
    let found = parts_of(alloc, program, block, control, stands, layout, &mut nodes)?;
    match found {
        Some(parts) => Ok(Some(ready_block(nodes, parts))),
        None => Ok(None),
    }
}
