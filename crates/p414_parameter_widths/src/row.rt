// The parameters of one action, each with the most bits that are asked of it.
ghost use Rattle.std.specs.Prelude.{◌≡◌, None, map, replicate, slice_index_or, IfOk, OnOk};
ghost use Rattle.p414_calls.specs.Shown.{shown_argument};
ghost use Rattle.p414_call_check.specs.Shown.{shown_placed};
ghost use Rattle.p414_parameter_widths.specs.internal.Noting.{asked_more, noted, noted_argument, noted_in_action, noted_in_primitive, noted_invocation, noted_calls, row_at, primitive_bits, width_of};

use crate::placed::placed_in;
use crate::uses::{is_indexed, is_unsigned, other_bits};
use p4x_bits::{Numbers, OutOfMemory};
use p414_call_check::PlacedArgument;
use p414_calls::{Argument, Invocation, action_number};
use p414_names::Names14;
use p414_syntax::ArgumentPlace;
use std::alloc::Global;

/// The bits of a parameter of which nothing is asked.
const UNUSED: u128 = 8;

/// The bits of an index and of a session.
const INDEX: u128 = 32;

/// So many parameters, of which nothing is asked yet. The one error is want of memory.
pub fn blank_row(alloc: Global, count: usize) -> Result<Vec<Option<u128>>, OutOfMemory>
    ensures { IfOk result (λ row. row.items ≡ replicate count None) }
{
    Ok(vec![in alloc; None; count]?)
}

/// The greater of what was asked before, if anything was, and these bits.
fn asked_more(before: Option<u128>, bits: u128) -> u128
    ensures { result ≡ asked_more before bits }
{
    match before {
        Some(before) => u128::max(before, bits),
        None => bits,
    }
}

/// These bits are asked of the parameter with this number.
#[tactic(auto, using(crate::proofs::Rows::noted_beyond, crate::proofs::Rows::noted_within))]
fn note(row: &mut [Option<u128>], parameter: usize, bits: u128)
    ensures { row.new ≡ noted row.old parameter bits }
{
    if parameter < row.len() {
        row[parameter] = Some(asked_more(row[parameter], bits));
    }
}

/// These bits are asked of an argument.
fn note_argument(row: &mut [Option<u128>], argument: &Argument<'_>, bits: u128)
    ensures { row.new ≡ noted_argument row.old (shown_argument argument.now) bits }
{
    if let Argument::Parameter(parameter) = argument {
        note(row, *parameter, bits);
    }
}

/// The bits of a parameter by the row of its action.
fn width_at(row: &[u128], parameter: usize) -> u128
    ensures { result ≡ slice_index_or row.now parameter 8 }
{
    match row.get(parameter) {
        Some(width) => *width,
        None => UNUSED,
    }
}

/// What a call of an action asks, whose parameters are so wide.
fn note_action(row: &mut [Option<u128>], widths: &[u128], placed: &[PlacedArgument<'_>])
    ensures { row.new ≡ noted_in_action widths.now row.old 0 (map shown_placed placed.now) }
{
    for (place, argument) in placed.iter().enumerate() {
        note_argument(row, &argument.argument, width_at(widths, place));
    }
}

/// The bits that a primitive asks of an argument.
fn primitive_bits(indexed: bool, other: u128, wanted: ArgumentPlace) -> u128
    ensures { result ≡ primitive_bits indexed other wanted }
{
    if is_unsigned(wanted) && indexed {
        INDEX
    } else {
        other
    }
}

/// What a call of a primitive asks: 32 bits of an index or a session, and so many of any other source.
fn note_primitive(
    row: &mut [Option<u128>],
    indexed: bool,
    other: u128,
    placed: &[PlacedArgument<'_>],
)
    ensures { row.new ≡ noted_in_primitive indexed other row.old (map shown_placed placed.now) }
{
    for argument in placed {
        note_argument(
            row,
            &argument.argument,
            primitive_bits(indexed, other, argument.wanted),
        );
    }
}

/// The widths of the parameters of the action with this number; none where no action has it.
pub fn row_at(rows: &[Numbers], action: usize) -> &[u128]
    ensures { result.now ≡ row_at rows.now action }
{
    match rows.get(action) {
        Some(row) => row.as_slice(),
        None => &[],
    }
}

/// What a call asks, where the widths of the parameters of the action that it calls are known.
fn note_invocation(
    alloc: Global,
    row: &mut [Option<u128>],
    names: &Names14<'_>,
    rows: &[Numbers],
    call: &Invocation<'_>,
) -> Result<(), OutOfMemory>
    ensures { OnOk result (row.new ≡ noted_invocation names.now rows.now row.old call.now) }
{
    let placed = placed_in(alloc, names, call)?;
    let callee = call.callee();
    match action_number(names, callee) {
        Some(action) => note_action(row, row_at(rows, action), &placed),
        None => note_primitive(
            row,
            is_indexed(callee),
            other_bits(names, callee, &placed),
            &placed,
        ),
    }
    Ok(())
}

/// The same of these calls, one after another. The one error is want of memory.
pub fn note_calls(
    alloc: Global,
    row: &mut [Option<u128>],
    names: &Names14<'_>,
    rows: &[Numbers],
    calls: &[Invocation<'_>],
) -> Result<(), OutOfMemory>
    ensures { OnOk result (row.new ≡ noted_calls names.now rows.now row.old calls.now) }
{
    for call in calls {
        note_invocation(alloc, row, names, rows, call)?;
    }
    Ok(())
}

/// The width of a parameter of which so much is asked.
fn width_of(asked: Option<u128>) -> u128
    ensures { result ≡ width_of asked }
{
    asked.unwrap_or(UNUSED)
}

/// The widths of parameters of which so much is asked. The one error is want of memory.
pub fn widths_of(alloc: Global, row: &[Option<u128>]) -> Result<Numbers, OutOfMemory>
    ensures { IfOk result (λ widths. widths ≡ map width_of row.now) }
{
    let mut widths = Numbers::new(alloc);
    for asked in row {
        widths.push(width_of(*asked))?;
    }
    Ok(widths)
}
