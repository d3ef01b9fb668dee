// Which rows fit the states and the stores that they are run on.
ghost use Rattle.std.specs.Prelude.{◌≡◌, All, IsTrue};
ghost use Rattle.state_store.specs.State.{IsCounterAt, IsMeterAt, IsRegisterAt};
ghost use Rattle.p414_layout.specs.Shapes.{shape_at};
ghost use Rattle.p414_state.specs.Headers.{HasElement};
ghost use Rattle.p414_state.specs.Packets.{IsHeader};
ghost use Rattle.p414_act_run.specs.Fits.{AreSame, FitsCopy, FitsElement, FitsRegister, FitsRow, FitsTarget, FitsTerm};

use crate::effects::width_of;
use crate::fields::bits_of;
use p414_ready_actions::{ReadyElement, ReadyPrimitive, ReadyTarget, ReadyTerm};
use p414_state::State14;
use state_store::{Shape, Store};

/// Whether what is written has the bits of its field.
fn fits_target(state: &State14, target: ReadyTarget) -> bool
    ensures { IsTrue result → FitsTarget state.now.layout target }
{
    target.width == bits_of(state, target.slot)
}

/// Whether an instance is no metadata.
fn is_header(state: &State14, instance: u32) -> bool
    ensures { IsTrue result → IsHeader state.now.layout instance }
{
    !state.is_metadata(instance)
}

/// Whether there is such an element.
fn has_element(state: &State14, at: ReadyElement) -> bool
    ensures { IsTrue result → HasElement state.now.layout at.instance at.element }
{
    at.element < state.size(at.instance)
}

/// Whether an element is one of a header, and there.
fn fits_element(state: &State14, at: ReadyElement) -> bool
    ensures { IsTrue result → FitsElement state.now.layout at }
{
    is_header(state, at.instance) && has_element(state, at)
}

/// Whether the first so many fields of two instances have the same widths.
#[tactic(auto, using(crate::proofs::Same::none_before, crate::proofs::Same::one_more))]
fn are_same(state: &State14, first: u32, second: u32, fields: u32) -> bool
    ensures { IsTrue result → AreSame state.now.layout first second fields }
{
    for field in 0..fields {
        if state.width(first, field) != state.width(second, field) {
            return false;
        }
    }
    true
}

/// Whether two instances have fields of the same widths.
#[tactic(auto, using(crate::proofs::Same::all_widths))]
fn have_same(state: &State14, first: u32, second: u32) -> bool
    ensures { IsTrue result → (shape_at state.now.layout first).widths ≡ (shape_at state.now.layout second).widths }
{
    let Ok(fields) = u32::try_from(state.fields(first)) else {
        return false;
    };
    if state.fields(second) != state.fields(first) {
        return false;
    }
    are_same(state, first, second, fields)
}

/// Whether a header can be copied from another one.
fn fits_copy(state: &State14, at: ReadyElement, from: ReadyElement) -> bool
    ensures { IsTrue result → FitsCopy state.now.layout at from }
{
    is_header(state, at.instance)
        && has_element(state, from)
        && have_same(state, from.instance, at.instance)
}

/// Whether a counter has this number.
fn is_counter(store: &Store, object: u32) -> bool
    ensures { IsTrue result → IsCounterAt store.now.shapes object }
{
    let shapes = store.shapes();
    if object as usize >= shapes.len() {
        return false;
    }
    match shapes[object as usize] {
        Shape::Counter { .. } | Shape::Direct { .. } => true,
        _ => false,
    }
}

/// Whether a register has this number.
fn is_register(store: &Store, object: u32) -> bool
    ensures { IsTrue result → IsRegisterAt store.now.shapes object }
{
    let shapes = store.shapes();
    if object as usize >= shapes.len() {
        return false;
    }
    match shapes[object as usize] {
        Shape::Register { .. } => true,
        _ => false,
    }
}

/// Whether a meter has this number.
fn is_meter(store: &Store, object: u32) -> bool
    ensures { IsTrue result → IsMeterAt store.now.shapes object }
{
    let shapes = store.shapes();
    if object as usize >= shapes.len() {
        return false;
    }
    match shapes[object as usize] {
        Shape::Meter { .. } => true,
        _ => false,
    }
}

/// Whether a register of at most 128 bits has this number.
fn fits_register(store: &Store, object: u32) -> bool
    ensures { IsTrue result → FitsRegister store.now.shapes object }
{
    is_register(store, object) && width_of(store, object) <= 128
}

/// Whether the register that a term reads is one.
fn fits_term(store: &Store, term: ReadyTerm) -> bool
    ensures { IsTrue result → FitsTerm store.now.shapes term }
{
    match term {
        ReadyTerm::Cell { object, .. } => is_register(store, object),
        _ => true,
    }
}

/// Whether a row fits the layout of a state and the objects of a store: fields have their widths, headers and stateful objects
/// are of the kinds that are wanted, and a header is copied from one of the same fields. It takes no memory.
fn fits_row(state: &State14, store: &Store, row: ReadyPrimitive) -> bool
    ensures { IsTrue result → FitsRow state.now.layout store.now.shapes row }
{
    match row {
        ReadyPrimitive::Write { target, term } => {
            fits_target(state, target) && fits_term(store, term)
        }
        ReadyPrimitive::Hash { target, .. } => fits_target(state, target),
        ReadyPrimitive::AddHeader(at) => fits_element(state, at),
        ReadyPrimitive::RemoveHeader(at) => fits_element(state, at),
        ReadyPrimitive::CopyHeader(at, from) => fits_copy(state, at, from),
        ReadyPrimitive::Push { stack, .. } => is_header(state, stack),
        ReadyPrimitive::Pop { stack, .. } => is_header(state, stack),
        ReadyPrimitive::Count { object, .. } => is_counter(store, object),
        ReadyPrimitive::WriteCell { object, .. } => fits_register(store, object),
        ReadyPrimitive::ExecuteMeter { object, target, .. } => {
            is_meter(store, object) && fits_target(state, target)
        }
        ReadyPrimitive::Ask { .. } => true,
        ReadyPrimitive::Nothing => true,
    }
}

/// Whether all rows fit a state and a store, as those of a program that breaks no rule do: then they can be run on each state
/// of the same layout and each store of the same objects. It takes no memory.
#[tactic(auto, using(crate::proofs::Loops::fit_more, crate::proofs::Loops::fit_end))]
pub fn fit_all(state: &State14, store: &Store, rows: &[ReadyPrimitive]) -> bool
    ensures { IsTrue result → All (FitsRow state.now.layout store.now.shapes) rows.now }
{
    for row in rows {
        if !fits_row(state, store, *row) {
            return false;
        }
    }
    true
}
