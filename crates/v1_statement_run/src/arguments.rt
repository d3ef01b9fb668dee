// What externs are called with.
ghost use Rattle.std.specs.Prelude.{◌≡◌, ◌^◌, ◌++◌, ◌∷◌, ◌<◌, ◌≤◌, [], false, is_some, length, IfOk, IfSome, OnOk};
ghost use Rattle.p4x_bits.specs.BitLists.{bits};
ghost use Rattle.v1_core.specs.Values.{number_in, width_in};
ghost use Rattle.v1_core.specs.Scalars.{FitsScalar, seen_scalar};
ghost use Rattle.v1_core.specs.declared.node.Content.TheVariants as content;
ghost use Rattle.v1_core.specs.Ready as ready;
ghost use Rattle.v1_ready_blocks.specs.Tests.{plain, test_value};
ghost use Rattle.v1_ready_blocks.specs.Arguments.{a_value, an_item, arguments, with_argument};
ghost use Rattle.v1_ready_blocks.specs.Nodes.{arguments_at, test_at};
ghost use Rattle.v1_statement_run.specs.Seen.{given_of, moment, with_list};
ghost use Rattle.v1_statement_run.specs.Steps.{Gathers, Goes, IsCode, IsOver, ground_of, trees_of, with_values};

use crate::buffers::BitBuffer;
use crate::code::Code;
use crate::nodes::{argument_node, slot_of};
use crate::run::Run;
use crate::tables::Tables;
use crate::tests_of::{is_stopped, stop, test};
use p4x_bits::OutOfMemory;
use state_store::Store;
use v1_core::{Frame, Scalar};
use v1_ready_blocks::ArgumentNode;

/// One more value is given. The one error is want of memory.
fn give_value(run: &mut Run<'_>, value: Scalar) -> Result<(), OutOfMemory>
    ensures { OnOk result (run.new ≡ with_values (run.old.values ++ value ∷ []) run.old) }
{
    run.values.push(value)?;
    Ok(())
}

/// The bits of a value and their number; none where it is no number.
fn word_of(value: Scalar) -> (u8, u128)
    requires { FitsScalar value }
    ensures width { result.0 ≡ width_in (seen_scalar value) }
    ensures number { result.1 ≡ number_in (seen_scalar value) }
    ensures narrow { result.0 ≤ 128 }
    ensures fits { result.1 < 2 ^ result.0 }
{
    match value {
        Scalar::Number(width, number) => (width, number),
        _ => (0, 0),
    }
}

/// One more item of the list is given. The one error is want of memory.
fn give_item(run: &mut Run<'_>, value: Scalar) -> Result<(), OutOfMemory>
    requires { FitsScalar value }
    ensures { OnOk result (run.new ≡ with_list (run.old.list ++ bits (width_in (seen_scalar value)) (number_in (seen_scalar value))) run.old) }
{
    let (width, number) = word_of(value);
    run.list.push_number(width, number)?;
    Ok(())
}

/// Evaluates one value more; an error stops the run. The one error is want of memory.
#[tactic(auto, using(crate::proofs::Passing::value_given, crate::proofs::Passing::value_failed))]
fn gather_value<T: Tables>(
    code: &Code<'_>,
    tables: &T,
    place: usize,
    frame: &mut Frame<'_>,
    store: &mut Store,
    unparsed: &[u8],
    run: &mut Run<'_>,
) -> Result<(), OutOfMemory>
    requires place { place < length code.now.statements.nodes }
    requires code { IsCode code.now }
    requires tables { T.base tables.now ≡ ground_of code.now }
    requires over { IsOver (ground_of code.now) (moment frame.old store.old unparsed.now run.old) }
    ensures { OnOk result (Gathers (ground_of code.now) (with_argument (a_value (test_at (trees_of code.now) place)) (given_of run.old) (test_value (T.applies tables.now) (test_at (trees_of code.now) place) (moment frame.old store.old unparsed.now run.old))) (given_of run.new) (moment frame.new store.new unparsed.now run.new)) }
{
    match test(code, tables, place, frame, store, unparsed, run)? {
        Ok(value) => {
            give_value(run, value)?;
            Ok(())
        }
        Err(error) => {
            stop(run, error);
            Ok(())
        }
    }
}

/// Evaluates one item more of the list; an error stops the run. The one error is want of memory.
#[inline(never)]
#[tactic(auto, using(crate::proofs::Passing::item_given, crate::proofs::Passing::item_failed))]
fn gather_item<T: Tables>(
    code: &Code<'_>,
    tables: &T,
    place: usize,
    frame: &mut Frame<'_>,
    store: &mut Store,
    unparsed: &[u8],
    run: &mut Run<'_>,
) -> Result<(), OutOfMemory>
    requires place { place < length code.now.statements.nodes }
    requires code { IsCode code.now }
    requires tables { T.base tables.now ≡ ground_of code.now }
    requires over { IsOver (ground_of code.now) (moment frame.old store.old unparsed.now run.old) }
    ensures { OnOk result (Gathers (ground_of code.now) (with_argument (an_item (test_at (trees_of code.now) place)) (given_of run.old) (test_value (T.applies tables.now) (test_at (trees_of code.now) place) (moment frame.old store.old unparsed.now run.old))) (given_of run.new) (moment frame.new store.new unparsed.now run.new)) }
{
    match test(code, tables, place, frame, store, unparsed, run)? {
        Ok(value) => {
            give_item(run, value)?;
            Ok(())
        }
        Err(error) => {
            stop(run, error);
            Ok(())
        }
    }
}

/// The slot of the first item, and the place of the arguments behind it, where the arguments at a place are seen to begin with
/// an item that is a slot with bits; None tells nothing.
#[tactic(auto, using(crate::proofs::Passing::item_of_slot, crate::proofs::Passing::behind_item))]
fn slot_item(code: &Code<'_>, place: usize) -> Option<(u32, usize)>
    requires place { place < length code.now.statements.nodes }
    requires code { IsCode code.now }
    ensures tree { IfSome result (λ item. arguments_at (trees_of code.now) place ≡ an_item (plain (ready.slot content.Bits item.0)) ∷ arguments_at (trees_of code.now) item.1) }
    ensures there { IfSome result (λ item. item.0 < length (ground_of code.now).layout.widths) }
    ensures before { IfSome result (λ item. item.1 < place) }
{
    match argument_node(code, place) {
        Some(ArgumentNode::Item(a, rest)) => {
            let slot = slot_of(code, a)?;
            Some((slot, rest))
        }
        _ => None,
    }
}

/// A number is given as one more item of the list, whose last bits stand in a buffer. The one error is want of memory.
fn give_word(
    run: &mut Run<'_>,
    buffer: &mut BitBuffer,
    width: u8,
    number: u128,
) -> Result<(), OutOfMemory>
    requires narrow { width ≤ 128 }
    requires fits { number < 2 ^ width }
    ensures run { OnOk result (run.new ≡ with_list run.new.list run.old) }
    ensures list { OnOk result (run.new.list ++ buffer.new ≡ (run.old.list ++ buffer.old) ++ bits width number) }
{
    buffer.push(&mut run.list, width, number)?;
    Ok(())
}

/// The bits of a buffer are given behind the list. The one error is want of memory.
fn give_buffer(run: &mut Run<'_>, buffer: &BitBuffer) -> Result<(), OutOfMemory>
    ensures { OnOk result (run.new ≡ with_list (run.old.list ++ buffer.now) run.old) }
{
    buffer.flush(&mut run.list)?;
    Ok(())
}

/// Gathers items of the list while they are slots with bits, many at a time, and gives the place of the arguments behind them.
/// The one error is want of memory.
#[tactic(auto, using(crate::proofs::Passing::slot_over, crate::proofs::Passing::slots_begin, crate::proofs::Passing::slots_go, crate::proofs::Passing::slots_end))]
fn gather_slots<T: Tables>(
    code: &Code<'_>,
    tables: &T,
    place: usize,
    frame: &Frame<'_>,
    store: &Store,
    unparsed: &[u8],
    run: &mut Run<'_>,
) -> Result<usize, OutOfMemory>
    requires place { place < length code.now.statements.nodes }
    requires code { IsCode code.now }
    requires over { IsOver (ground_of code.now) (moment frame.now store.now unparsed.now run.old) }
    requires running { is_some run.old.stopped ≡ false }
    ensures { IfOk result (λ behind. Goes (T.applies tables.now) (trees_of code.now) place (moment frame.now store.now unparsed.now run.old) run.old run.new behind) }
{
    let mut buffer = BitBuffer::none();
    let mut at = place;
    while let Some((slot, behind)) = slot_item(code, at) {
        give_word(run, &mut buffer, frame.width(slot), frame.get(slot))?;
        at = behind;
    }
    give_buffer(run, &buffer)?;
    Ok(at)
}

/// Evaluates the arguments at a place, from left to right; an error stops the run, and the others aren't evaluated. The one
/// error is want of memory, after which frame, store and run are not used again.
#[tactic(auto, using(crate::proofs::Passing::gather_begins, crate::proofs::Passing::goes_there, crate::proofs::Passing::goes_over, crate::proofs::Passing::value_there, crate::proofs::Passing::item_there, crate::proofs::Passing::value_less, crate::proofs::Passing::item_less, crate::proofs::Passing::value_behind, crate::proofs::Passing::item_behind, crate::proofs::Passing::none_behind))]
pub fn gather<T: Tables>(
    code: &Code<'_>,
    tables: &T,
    place: usize,
    frame: &mut Frame<'_>,
    store: &mut Store,
    unparsed: &[u8],
    run: &mut Run<'_>,
) -> Result<(), OutOfMemory>
    requires place { place < length code.now.statements.nodes }
    requires code { IsCode code.now }
    requires tables { T.base tables.now ≡ ground_of code.now }
    requires over { IsOver (ground_of code.now) (moment frame.old store.old unparsed.now run.old) }
    ensures { OnOk result (Gathers (ground_of code.now) (arguments (T.applies tables.now) (arguments_at (trees_of code.now) place) (moment frame.old store.old unparsed.now run.old)) (given_of run.new) (moment frame.new store.new unparsed.now run.new)) }
{
    run.values.clear();
    run.list.clear();
    let mut at = place;
    loop {
        if is_stopped(run) {
            return Ok(());
        }
        let behind = gather_slots(code, tables, at, frame, store, unparsed, run)?;
        match argument_node(code, behind) {
            Some(ArgumentNode::Value(a, rest)) => {
                gather_value(code, tables, a, frame, store, unparsed, run)?;
                at = rest;
            }
            Some(ArgumentNode::Item(a, rest)) => {
                gather_item(code, tables, a, frame, store, unparsed, run)?;
                at = rest;
            }
            Some(ArgumentNode::Nothing) => return Ok(()),
            None => return Ok(()),
        }
    }
}
