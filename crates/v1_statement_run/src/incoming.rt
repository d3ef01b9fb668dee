// What parameters start with (P4_16 1.2, "Calling convention: call by copy in/copy out").
ghost use Rattle.std.specs.Prelude.{◌≡◌, ◌<◌, length, OnOk};
ghost use Rattle.v1_ready_blocks.specs.Arguments.{all_entered, all_in, brought_in, parts_in, value_in, zero_in};
ghost use Rattle.v1_ready_blocks.specs.Nodes.{IsRange, IsSlot, incoming_at, source_at, test_at};
ghost use Rattle.v1_statement_run.specs.Seen.{moment};
ghost use Rattle.v1_statement_run.specs.Steps.{Comes, IsCode, IsOver, ground_of, trees_of};
ghost use Rattle.v1_statement_run.specs.Bringing.{brought};

use crate::assignments::number_of;
use crate::code::Code;
use crate::nodes::incoming_node;
use crate::places::put;
use crate::ranges::{copy, empty, take};
use crate::run::Run;
use crate::sources::source;
use crate::tables::Tables;
use crate::tests_of::{is_stopped, stop, test};
use p4x_bits::OutOfMemory;
use state_store::Store;
use v1_core::Frame;
use v1_ready_blocks::{IncomingNode, Range};

/// Brings a value into the slot of a parameter, in the frame or apart from it; an error stops the run. The one error is want of
/// memory.
#[tactic(auto, using(crate::proofs::Entering::value_was_placed, crate::proofs::Entering::value_waited, crate::proofs::Entering::value_failed, crate::proofs::Entering::slot_now, crate::proofs::Entering::slot_waiting))]
fn bring_value<T: Tables>(
    code: &Code<'_>,
    tables: &T,
    apart: bool,
    to: u32,
    place: usize,
    frame: &mut Frame<'_>,
    store: &mut Store,
    unparsed: &[u8],
    run: &mut Run<'_>,
) -> Result<(), OutOfMemory>
    requires to { IsSlot (ground_of code.now).layout to }
    requires place { place < length code.now.statements.nodes }
    requires code { IsCode code.now }
    requires tables { T.base tables.now ≡ ground_of code.now }
    requires over { IsOver (ground_of code.now) (moment frame.old store.old unparsed.now run.old) }
    ensures { OnOk result (Comes (ground_of code.now) (brought (T.applies tables.now) apart (value_in to (test_at (trees_of code.now) place)) (moment frame.old store.old unparsed.now run.old)) (moment frame.new store.new unparsed.now run.new)) }
{
    match test(code, tables, place, frame, store, unparsed, run)? {
        Ok(value) => {
            if apart {
                put(&mut run.waiting, to, None, number_of(value));
                Ok(())
            } else {
                put(frame, to, None, number_of(value));
                Ok(())
            }
        }
        Err(error) => {
            stop(run, error);
            Ok(())
        }
    }
}

/// Brings a header, a stack or a struct into the parts of a parameter, in the frame or apart from it; an error stops the run. The
/// one error is want of memory.
#[tactic(auto, using(crate::proofs::Entering::parts_were_placed, crate::proofs::Entering::parts_waited, crate::proofs::Entering::parts_failed, crate::proofs::Entering::range_now, crate::proofs::Entering::range_waiting))]
fn bring_parts<T: Tables>(
    code: &Code<'_>,
    tables: &T,
    apart: bool,
    to: Range,
    place: usize,
    frame: &mut Frame<'_>,
    store: &mut Store,
    unparsed: &[u8],
    run: &mut Run<'_>,
) -> Result<(), OutOfMemory>
    requires to { IsRange (ground_of code.now).layout to }
    requires place { place < length code.now.statements.nodes }
    requires code { IsCode code.now }
    requires tables { T.base tables.now ≡ ground_of code.now }
    requires over { IsOver (ground_of code.now) (moment frame.old store.old unparsed.now run.old) }
    ensures { OnOk result (Comes (ground_of code.now) (brought (T.applies tables.now) apart (parts_in to (source_at (trees_of code.now) place)) (moment frame.old store.old unparsed.now run.old)) (moment frame.new store.new unparsed.now run.new)) }
{
    match source(code, tables, place, frame, store, unparsed, run)? {
        Ok(from) => {
            if apart {
                take(frame, &mut run.waiting, from, to);
                Ok(())
            } else {
                copy(frame, from, to);
                Ok(())
            }
        }
        Err(error) => {
            stop(run, error);
            Ok(())
        }
    }
}

/// Makes a parameter 0, in the frame or apart from it.
#[tactic(auto, using(crate::proofs::Entering::was_emptied, crate::proofs::Entering::emptied_apart, crate::proofs::Entering::range_now, crate::proofs::Entering::range_waiting))]
fn bring_zero<T: Tables>(
    tables: &T,
    apart: bool,
    to: Range,
    frame: &mut Frame<'_>,
    store: &Store,
    unparsed: &[u8],
    run: &mut Run<'_>,
)
    requires to { IsRange (T.base tables.now).layout to }
    requires over { IsOver (T.base tables.now) (moment frame.old store.now unparsed.now run.old) }
    ensures { Comes (T.base tables.now) (brought (T.applies tables.now) apart (zero_in to) (moment frame.old store.now unparsed.now run.old)) (moment frame.new store.now unparsed.now run.new) }
{
    if apart {
        empty(&mut run.waiting, to);
    } else {
        empty(frame, to);
    }
}

/// Brings the parameters at a place in, from left to right, in the frame or apart from it; an error stops the run, and the others
/// aren't evaluated. The one error is want of memory.
#[tactic(auto, using(crate::proofs::Turning::bring_begins, crate::proofs::Turning::bring_value_goes, crate::proofs::Turning::bring_parts_goes, crate::proofs::Turning::bring_zero_goes, crate::proofs::Turning::bring_none))]
fn bring_all<T: Tables>(
    code: &Code<'_>,
    tables: &T,
    apart: bool,
    place: usize,
    frame: &mut Frame<'_>,
    store: &mut Store,
    unparsed: &[u8],
    run: &mut Run<'_>,
) -> Result<(), OutOfMemory>
    requires place { place < length code.now.statements.nodes }
    requires code { IsCode code.now }
    requires tables { T.base tables.now ≡ ground_of code.now }
    requires over { IsOver (ground_of code.now) (moment frame.old store.old unparsed.now run.old) }
    ensures { OnOk result (Comes (ground_of code.now) (all_in (brought (T.applies tables.now) apart) (incoming_at (trees_of code.now) place) (moment frame.old store.old unparsed.now run.old)) (moment frame.new store.new unparsed.now run.new)) }
{
    let mut at = place;
    loop {
        if is_stopped(run) {
            return Ok(());
        }
        match incoming_node(code, at) {
            Some(IncomingNode::Value(to, a, rest)) => {
                bring_value(code, tables, apart, to, a, frame, store, unparsed, run)?;
                at = rest;
            }
            Some(IncomingNode::Parts(to, a, rest)) => {
                bring_parts(code, tables, apart, to, a, frame, store, unparsed, run)?;
                at = rest;
            }
            Some(IncomingNode::Zero(to, rest)) => {
                bring_zero(tables, apart, to, frame, store, unparsed, run);
                at = rest;
            }
            Some(IncomingNode::Nothing) => return Ok(()),
            None => return Ok(()),
        }
    }
}

/// Lets the parameters at a place, which wait, enter the frame.
#[tactic(auto, using(crate::proofs::Turning::enter_begins, crate::proofs::Turning::enter_value, crate::proofs::Turning::enter_parts, crate::proofs::Turning::enter_zero, crate::proofs::Turning::enter_ends, crate::proofs::Entering::slot_now, crate::proofs::Entering::slot_waiting, crate::proofs::Entering::range_now, crate::proofs::Entering::range_waiting))]
fn enter_all(
    code: &Code<'_>,
    place: usize,
    frame: &mut Frame<'_>,
    store: &Store,
    unparsed: &[u8],
    run: &Run<'_>,
)
    requires place { place < length code.now.statements.nodes }
    requires over { IsOver (ground_of code.now) (moment frame.old store.now unparsed.now run.now) }
    ensures { Comes (ground_of code.now) (all_entered (incoming_at (trees_of code.now) place) (moment frame.old store.now unparsed.now run.now)) (moment frame.new store.now unparsed.now run.now) }
{
    let mut at = place;
    loop {
        match incoming_node(code, at) {
            Some(IncomingNode::Value(to, _, rest)) => {
                put(frame, to, None, run.waiting.get(to));
                at = rest;
            }
            Some(IncomingNode::Parts(to, _, rest)) => {
                take(&run.waiting, frame, to, to);
                at = rest;
            }
            Some(IncomingNode::Zero(to, rest)) => {
                take(&run.waiting, frame, to, to);
                at = rest;
            }
            Some(IncomingNode::Nothing) => return,
            None => return,
        }
    }
}

/// Evaluates what the parameters at a place start with, from left to right, and copies it in: into the frame at once, or apart from
/// it until all are evaluated. An error stops the run, and the others aren't evaluated. The one error is want of memory, after
/// which frame, store and run are not used again.
#[tactic(auto, using(crate::proofs::Turning::brought_apart, crate::proofs::Turning::brought_stopped, crate::proofs::Turning::brought_at_once))]
pub fn bring_in<T: Tables>(
    code: &Code<'_>,
    tables: &T,
    apart: bool,
    place: usize,
    frame: &mut Frame<'_>,
    store: &mut Store,
    unparsed: &[u8],
    run: &mut Run<'_>,
) -> Result<(), OutOfMemory>
    requires place { place < length code.now.statements.nodes }
    requires code { IsCode code.now }
    requires tables { T.base tables.now ≡ ground_of code.now }
    requires over { IsOver (ground_of code.now) (moment frame.old store.old unparsed.now run.old) }
    ensures { OnOk result (Comes (ground_of code.now) (brought_in (T.applies tables.now) apart (incoming_at (trees_of code.now) place) (moment frame.old store.old unparsed.now run.old)) (moment frame.new store.new unparsed.now run.new)) }
{
    bring_all(code, tables, apart, place, frame, store, unparsed, run)?;
    if !apart {
        return Ok(());
    }
    if is_stopped(run) {
        return Ok(());
    }
    enter_all(code, place, frame, store, unparsed, run);
    Ok(())
}
