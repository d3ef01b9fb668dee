// The effects of primitives, whose operands are read in one moment.
ghost use Rattle.std.specs.Prelude.{◌≡◌, List, [], true, IfOk};
ghost use Rattle.state_store.specs.declared.shapes.Shape as kinds;
ghost use Rattle.state_store.specs.Cells.{width_of};
ghost use Rattle.state_store.specs.State.{shape_at as object_at};
ghost use Rattle.p414_sem.specs.State.{cleared, elements_at, header_of};
ghost use Rattle.p414_sem.specs.Effects.{effects, popped, pushed, put_cell, put_header, put_stack, index_of, source_number};
ghost use Rattle.p414_sem.specs.Operations.{write};
ghost use Rattle.p414_sem.specs.Wholes.{wrapped};
ghost use Rattle.p414_state.specs.Packets.{IsHeader};
ghost use Rattle.p414_ready_actions.specs.Running.{row_effects, shown_element, shown_source, shown_target, shown_term};
ghost use Rattle.p414_act_run.specs.Sums.{sums_in};
ghost use Rattle.p414_act_run.specs.Fits.{FitsCopy, FitsElement, FitsRegister, FitsRow, FitsTarget, FitsTerm};
ghost use Rattle.p414_act_run.specs.Moments.{Gives, Holds, added, moment};

use crate::calculations::Calculations;
use crate::effect::Effect;
use crate::fields::{bits_of, is_live};
use crate::hashes::hashed_effect;
use crate::sources::{index_of, number_of};
use crate::terms::term_number;
use p4x_bits::OutOfMemory;
use p414_ready_actions::{ReadyElement, ReadyPrimitive, ReadySource, ReadyTarget, ReadyTerm};
use p414_sem::Request14;
use p414_state::State14;
use p414_wholes::wrapped;
use state_store::Store;
use std::alloc::Global;

/// A field gets a number; nothing where its header is invalid.
#[tactic(auto, using(crate::proofs::Giving::written_dead, crate::proofs::Giving::written_live))]
fn write_effect(
    state: &State14,
    store: &Store,
    arguments: &[u128],
    target: ReadyTarget,
    term: ReadyTerm,
) -> Option<Effect>
    requires target { FitsTarget state.now.layout target }
    requires term { FitsTerm store.now.shapes term }
    ensures { Gives state.now.layout store.now.shapes result (effects [] arguments.now (moment state.now store.now) (write true (shown_target target) (shown_term term))) }
{
    if !is_live(state, target.slot) {
        return None;
    }
    let width = bits_of(state, target.slot);
    let number = term_number(
        state,
        store,
        arguments,
        target.saturates,
        width,
        target.slot,
        term,
    );
    Some(Effect::PutField(target.slot, number))
}

/// A header becomes valid or invalid, with all fields 0.
#[tactic(auto, using(crate::proofs::Held::cleared_holds))]
fn clear_effect(state: &State14, at: ReadyElement, valid: bool) -> Effect
    requires { FitsElement state.now.layout at }
    ensures { (shapes : List kinds.Shape) → Holds state.now.layout shapes result (put_header (shown_element at) (cleared valid (header_of state.now.state (shown_element at)))) }
{
    state.fits(at.instance);
    Effect::ClearHeader(at, valid)
}

/// An invalid header becomes valid.
#[tactic(auto, using(crate::proofs::Giving::added_valid, crate::proofs::Giving::added_new))]
fn add_effect(state: &State14, at: ReadyElement) -> Option<Effect>
    requires { FitsElement state.now.layout at }
    ensures { (shapes : List kinds.Shape) → Gives state.now.layout shapes result (added state.now.state (shown_element at)) }
{
    if state.valid(at.instance, at.element) {
        return None;
    }
    Some(clear_effect(state, at, true))
}

/// A header becomes what another one is.
#[tactic(auto, using(crate::proofs::Held::copied_holds))]
fn copy_effect(
    alloc: Global,
    state: &State14,
    at: ReadyElement,
    from: ReadyElement,
) -> Result<Effect, OutOfMemory>
    requires { FitsCopy state.now.layout at from }
    ensures { IfOk result (λ effect. (shapes : List kinds.Shape) → Holds state.now.layout shapes effect (put_header (shown_element at) (header_of state.now.state (shown_element from)))) }
{
    let header = state.header(alloc, from.instance, from.element)?;
    Ok(Effect::PutHeader(at, header))
}

/// The elements of a stack move up.
#[tactic(auto, using(crate::proofs::Held::pushed_holds))]
fn push_effect(
    alloc: Global,
    state: &State14,
    stack: u32,
    count: u32,
) -> Result<Effect, OutOfMemory>
    requires { IsHeader state.now.layout stack }
    ensures { IfOk result (λ effect. (shapes : List kinds.Shape) → Holds state.now.layout shapes effect (put_stack stack (pushed count (elements_at state.now.state stack)))) }
{
    let mut elements = state.stack(alloc, stack)?;
    elements.push(count);
    Ok(Effect::PutStack(stack, elements))
}

/// The elements of a stack move down.
#[tactic(auto, using(crate::proofs::Held::popped_holds))]
fn pop_effect(alloc: Global, state: &State14, stack: u32, count: u32) -> Result<Effect, OutOfMemory>
    requires { IsHeader state.now.layout stack }
    ensures { IfOk result (λ effect. (shapes : List kinds.Shape) → Holds state.now.layout shapes effect (put_stack stack (popped count (elements_at state.now.state stack)))) }
{
    let mut elements = state.stack(alloc, stack)?;
    elements.pop(count);
    Ok(Effect::PutStack(stack, elements))
}

/// How many bits the cells of a register have.
pub fn width_of(store: &Store, object: u32) -> u8
    ensures { result ≡ width_of (object_at store.now.shapes object) }
{
    match store.shapes().get(object as usize) {
        Some(shape) => shape.width(),
        None => 0,
    }
}

/// A register's cell gets a number, modulo its width.
#[tactic(auto, using(crate::proofs::Giving::cell_holds))]
fn cell_effect(
    state: &State14,
    store: &Store,
    arguments: &[u128],
    object: u32,
    index: ReadySource,
    value: ReadySource,
) -> Effect
    requires { FitsRegister store.now.shapes object }
    ensures { Holds state.now.layout store.now.shapes result (put_cell object (index_of arguments.now state.now.state (shown_source index)) (wrapped (width_of (object_at store.now.shapes object)) (source_number arguments.now state.now.state (shown_source value)))) }
{
    let width = width_of(store, object);
    let number = wrapped(width, number_of(state, arguments, value));
    Effect::PutCell(object, index_of(state, arguments, index), number)
}

/// What a primitive does, if it does something. The one error is want of memory.
#[tactic(auto, using(crate::proofs::Giving::holds_gives, crate::proofs::Giving::count_gives, crate::proofs::Giving::colour_gives, crate::proofs::Giving::request_gives, crate::proofs::Giving::nothing_gives))]
pub fn effect_of(
    alloc: Global,
    state: &State14,
    store: &Store,
    calculations: &Calculations,
    arguments: &[u128],
    row: ReadyPrimitive,
) -> Result<Option<Effect>, OutOfMemory>
    requires { FitsRow state.now.layout store.now.shapes row }
    ensures { IfOk result (λ given. Gives state.now.layout store.now.shapes given (row_effects (sums_in calculations.now) arguments.now (moment state.now store.now) row)) }
{
    match row {
        ReadyPrimitive::Write { target, term } => {
            Ok(write_effect(state, store, arguments, target, term))
        }
        ReadyPrimitive::Hash {
            target,
            base,
            calculation,
            bound,
        } => {
            let hashed = calculations.result(alloc, calculation, state)?;
            Ok(hashed_effect(state, store, arguments, target, base, hashed, bound))
        }
        ReadyPrimitive::AddHeader(at) => Ok(add_effect(state, at)),
        ReadyPrimitive::RemoveHeader(at) => Ok(Some(clear_effect(state, at, false))),
        ReadyPrimitive::CopyHeader(at, from) => Ok(Some(copy_effect(alloc, state, at, from)?)),
        ReadyPrimitive::Push { stack, count } => {
            Ok(Some(push_effect(alloc, state, stack, count)?))
        }
        ReadyPrimitive::Pop { stack, count } => Ok(Some(pop_effect(alloc, state, stack, count)?)),
        ReadyPrimitive::Count { object, index } => Ok(Some(Effect::CountPacket(
            object,
            index_of(state, arguments, index),
        ))),
        ReadyPrimitive::WriteCell {
            object,
            index,
            value,
        } => Ok(Some(cell_effect(state, store, arguments, object, index, value))),
        ReadyPrimitive::ExecuteMeter {
            object,
            index,
            target,
        } => Ok(Some(Effect::TakeColour(
            object,
            index_of(state, arguments, index),
            target,
            is_live(state, target.slot),
        ))),
        ReadyPrimitive::Ask {
            kind,
            session,
            list,
        } => Ok(Some(Effect::PutRequest(
            kind,
            Request14 {
                session: index_of(state, arguments, session),
                list,
            },
        ))),
        ReadyPrimitive::Nothing => Ok(None),
    }
}
