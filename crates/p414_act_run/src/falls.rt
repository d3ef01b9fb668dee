// How effects fall.
ghost use Rattle.std.specs.Prelude.{◌≡◌, length, OnOk};
ghost use Rattle.state_store.specs.State.{IsCounterAt, IsMeterAt, colour, colour_taken, count};
ghost use Rattle.p414_sem.specs.State.{blank, with_header};
ghost use Rattle.p414_sem.specs.Effects.{coloured, fallen};
ghost use Rattle.p414_layout.specs.Shapes.{shape_at};
ghost use Rattle.p414_state.specs.Packets.{with_state};
ghost use Rattle.p414_ready_actions.specs.Running.{shown_target};
ghost use Rattle.p414_act_run.specs.Fits.{FitsEffect, FitsElement, FitsTarget};
ghost use Rattle.p414_act_run.specs.Moments.{IsMoved, moment, shown_effect};

use crate::effect::Effect;
use crate::fields::{bits_of, put};
use p4x_bits::OutOfMemory;
use p414_ready_actions::{ReadyElement, ReadyTarget};
use p414_sem::Standard;
use p414_state::State14;
use p414_wholes::{Whole, wrapped};
use state_store::Store;

/// All fields of a header become 0, and it becomes valid or invalid.
#[tactic(auto, using(crate::proofs::Held::cleared_falls))]
fn clear(state: &mut State14, at: ReadyElement, valid: bool)
    requires { FitsElement state.old.layout at }
    ensures { state.new ≡ with_state state.old (with_header state.old.state at.instance at.element (blank valid (length (shape_at state.old.layout at.instance).widths))) }
{
    state.fits(at.instance);
    state.clear_header(at.instance, at.element, valid);
}

/// A counter's cell counts the packet, with its length.
fn count(state: &State14, store: &mut Store, object: u32, index: u32)
    requires { IsCounterAt store.old.shapes object }
    ensures { store.new ≡ count store.old object index state.now.state.packet_length }
{
    store.count(object, index, state.standard(Standard::PacketLength));
}

/// A colour goes to a field, where the field is live.
fn put_colour(
    state: &mut State14,
    target: ReadyTarget,
    live: bool,
    colour: u8,
) -> Result<(), OutOfMemory>
    requires { FitsTarget state.old.layout target }
    ensures { OnOk result (state.new ≡ with_state state.old (coloured (shown_target target) live colour state.old.state)) }
{
    if live {
        let width = bits_of(state, target.slot);
        let kept = wrapped(width, Whole::Plus(u128::from(colour)));
        put(state, target.slot, kept)
    } else {
        Ok(())
    }
}

/// A meter gives its next colour.
fn take_colour(
    state: &mut State14,
    store: &mut Store,
    object: u32,
    index: u32,
    target: ReadyTarget,
    live: bool,
) -> Result<(), OutOfMemory>
    requires meter { IsMeterAt store.old.shapes object }
    requires target { FitsTarget state.old.layout target }
    ensures state { OnOk result (state.new ≡ with_state state.old (coloured (shown_target target) live (colour store.old object index) state.old.state)) }
    ensures store { OnOk result (store.new ≡ colour_taken store.old object index) }
{
    let colour = store.colour(object, index);
    put_colour(state, target, live, colour)
}

/// An effect falls. The one error is want of memory.
#[tactic(auto, using(crate::proofs::Giving::state_moved, crate::proofs::Giving::store_moved, crate::proofs::Giving::colour_moved))]
pub fn fall(state: &mut State14, store: &mut Store, effect: Effect) -> Result<(), OutOfMemory>
    requires { FitsEffect state.old.layout store.old.shapes effect }
    ensures { OnOk result (IsMoved state.old state.new store.old store.new (fallen (moment state.old store.old) (shown_effect state.old.layout effect))) }
{
    match effect {
        Effect::PutField(slot, number) => {
            put(state, slot, number)?;
            Ok(())
        }
        Effect::ClearHeader(at, valid) => {
            clear(state, at, valid);
            Ok(())
        }
        Effect::PutHeader(at, header) => {
            state.put_header(at.instance, at.element, &header);
            Ok(())
        }
        Effect::PutStack(instance, elements) => {
            state.put_stack(instance, elements);
            Ok(())
        }
        Effect::PutCell(object, index, number) => {
            store.write(object, index, number);
            Ok(())
        }
        Effect::CountPacket(object, index) => {
            count(state, store, object, index);
            Ok(())
        }
        Effect::TakeColour(object, index, target, live) => {
            take_colour(state, store, object, index, target, live)?;
            Ok(())
        }
        Effect::PutRequest(kind, request) => {
            state.put_request(kind, Some(request))?;
            Ok(())
        }
    }
}
