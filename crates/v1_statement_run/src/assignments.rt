// Assignments (P4_16 1.2, "Assignment statement").
ghost use Rattle.std.specs.Prelude.{◌≡◌, ◌<◌, length, OnOk};
ghost use Rattle.v1_core.specs.Values.{as_number};
ghost use Rattle.v1_core.specs.Scalars.{seen_scalar};
ghost use Rattle.v1_ready_blocks.specs.Statements.{assign, assign_parts, done, let_go};
ghost use Rattle.v1_ready_blocks.specs.Nodes.{IsRangePlace, IsSliceOf, IsSlotPlace, source_at, test_at};
ghost use Rattle.v1_statement_run.specs.Seen.{moment};
ghost use Rattle.v1_statement_run.specs.Steps.{Comes, IsCode, IsOver, ground_of, trees_of};

use crate::code::Code;
use crate::nodes::slot_of;
use crate::places::{put, range_at, slot_at};
use crate::ranges::copy;
use crate::run::Run;
use crate::sources::source;
use crate::tables::Tables;
use crate::tests_of::{stop, test};
use p4x_bits::OutOfMemory;
use state_store::Store;
use v1_core::{Frame, ParserError, Scalar};
use v1_ready_blocks::{RangePlace, Slice, SlotPlace};

/// A value as one number: a truth value is 1 or 0, an error its number.
pub fn number_of(value: Scalar) -> u128
    ensures { result ≡ as_number (seen_scalar value) }
{
    match value {
        Scalar::Number(_, number) => number,
        Scalar::Truth(holds) => { if holds { 1 } else { 0 } }
        Scalar::Error(number) => number,
        Scalar::Nothing => 0,
    }
}

/// Assigns a single value to a slot, or to a slice of it. Where the slot is one of an element that isn't there, or evaluating
/// the value ends with an error, that stops the run. The one error is want of memory, after which frame, store and run are not
/// used again.
#[tactic(auto, using(crate::proofs::Assigning::slot_fixed, crate::proofs::Assigning::slot_read, crate::proofs::Assigning::slot_assigned))]
pub fn assign<T: Tables>(
    code: &Code<'_>,
    tables: &T,
    to: SlotPlace,
    slice: Option<Slice>,
    place: usize,
    frame: &mut Frame<'_>,
    store: &mut Store,
    unparsed: &[u8],
    run: &mut Run<'_>,
) -> Result<(), OutOfMemory>
    requires to { IsSlotPlace (ground_of code.now).layout to }
    requires slice { IsSliceOf slice }
    requires place { place < length code.now.statements.nodes }
    requires code { IsCode code.now }
    requires tables { T.base tables.now ≡ ground_of code.now }
    requires over { IsOver (ground_of code.now) (moment frame.old store.old unparsed.now run.old) }
    ensures { OnOk result (Comes (ground_of code.now) (done (T.applies tables.now) (assign to slice (test_at (trees_of code.now) place)) (moment frame.old store.old unparsed.now run.old)) (moment frame.new store.new unparsed.now run.new)) }
{
    if let SlotPlace::Fixed(slot) = to {
        if let Some(from) = slot_of(code, place) {
            let number = frame.get(from);
            put(frame, slot, slice, number);
            return Ok(());
        }
    }
    assign_within(code, tables, to, slice, place, frame, store, unparsed, run)?;
    Ok(())
}

/// The same, for a value of any kind.
#[inline(never)]
#[tactic(auto, using(crate::proofs::Assigning::slot_over, crate::proofs::Assigning::slot_later, crate::proofs::Assigning::slot_beyond, crate::proofs::Assigning::was_assigned, crate::proofs::Assigning::assign_failed))]
fn assign_within<T: Tables>(
    code: &Code<'_>,
    tables: &T,
    to: SlotPlace,
    slice: Option<Slice>,
    place: usize,
    frame: &mut Frame<'_>,
    store: &mut Store,
    unparsed: &[u8],
    run: &mut Run<'_>,
) -> Result<(), OutOfMemory>
    requires to { IsSlotPlace (ground_of code.now).layout to }
    requires slice { IsSliceOf slice }
    requires place { place < length code.now.statements.nodes }
    requires code { IsCode code.now }
    requires tables { T.base tables.now ≡ ground_of code.now }
    requires over { IsOver (ground_of code.now) (moment frame.old store.old unparsed.now run.old) }
    ensures { OnOk result (Comes (ground_of code.now) (done (T.applies tables.now) (assign to slice (test_at (trees_of code.now) place)) (moment frame.old store.old unparsed.now run.old)) (moment frame.new store.new unparsed.now run.new)) }
{
    let Some(slot) = slot_at(frame, to) else {
        stop(run, ParserError::StackOutOfBounds);
        return Ok(());
    };
    match test(code, tables, place, frame, store, unparsed, run)? {
        Ok(value) => {
            put(frame, slot, slice, number_of(value));
            Ok(())
        }
        Err(error) => {
            stop(run, error);
            Ok(())
        }
    }
}

/// Assigns a header, a stack or a struct. Where the parts are those of an element that isn't there, or finding the source ends
/// with an error, that stops the run. The one error is want of memory, after which frame, store and run are not used again.
#[tactic(auto, using(crate::proofs::Assigning::range_over, crate::proofs::Assigning::range_later, crate::proofs::Assigning::range_now, crate::proofs::Assigning::range_beyond, crate::proofs::Assigning::were_assigned, crate::proofs::Assigning::assign_parts_failed))]
pub fn assign_parts<T: Tables>(
    code: &Code<'_>,
    tables: &T,
    to: RangePlace,
    place: usize,
    frame: &mut Frame<'_>,
    store: &mut Store,
    unparsed: &[u8],
    run: &mut Run<'_>,
) -> Result<(), OutOfMemory>
    requires to { IsRangePlace (ground_of code.now).layout to }
    requires place { place < length code.now.statements.nodes }
    requires code { IsCode code.now }
    requires tables { T.base tables.now ≡ ground_of code.now }
    requires over { IsOver (ground_of code.now) (moment frame.old store.old unparsed.now run.old) }
    ensures { OnOk result (Comes (ground_of code.now) (done (T.applies tables.now) (assign_parts to (source_at (trees_of code.now) place)) (moment frame.old store.old unparsed.now run.old)) (moment frame.new store.new unparsed.now run.new)) }
{
    let Some(range) = range_at(frame, to) else {
        stop(run, ParserError::StackOutOfBounds);
        return Ok(());
    };
    match source(code, tables, place, frame, store, unparsed, run)? {
        Ok(from) => {
            copy(frame, from, range);
            Ok(())
        }
        Err(error) => {
            stop(run, error);
            Ok(())
        }
    }
}

/// Evaluates an expression and lets its value go; an error stops the run. The one error is want of memory, after which frame,
/// store and run are not used again.
#[tactic(auto, using(crate::proofs::Assigning::let_go_goes, crate::proofs::Assigning::let_go_failed))]
pub fn let_go<T: Tables>(
    code: &Code<'_>,
    tables: &T,
    place: usize,
    frame: &mut Frame<'_>,
    store: &mut Store,
    unparsed: &[u8],
    run: &mut Run<'_>,
) -> Result<(), OutOfMemory>
    requires place { place < length code.now.statements.nodes }
    requires code { IsCode code.now }
    requires tables { T.base tables.now ≡ ground_of code.now }
    requires over { IsOver (ground_of code.now) (moment frame.old store.old unparsed.now run.old) }
    ensures { OnOk result (Comes (ground_of code.now) (done (T.applies tables.now) (let_go (test_at (trees_of code.now) place)) (moment frame.old store.old unparsed.now run.old)) (moment frame.new store.new unparsed.now run.new)) }
{
    match test(code, tables, place, frame, store, unparsed, run)? {
        Ok(_) => Ok(()),
        Err(error) => {
            stop(run, error);
            Ok(())
        }
    }
}
