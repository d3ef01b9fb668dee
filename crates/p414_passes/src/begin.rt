// An item as its pass begins.
ghost use Rattle.std.specs.Prelude.{◌≡◌, ℕ, List, ◌^◌, ◌<◌, length, slice_index, IfOk, OnOk};
ghost use Rattle.state_store.specs.Ports.{IsPort};
ghost use Rattle.p414_syntax.specs.declared.syntax.Decl.{Decl};
ghost use Rattle.p414_layout.specs.Shapes.{layout_of, shape_at};
ghost use Rattle.p414_sem.specs.State.{new_state};
ghost use Rattle.p414_sem.specs.Passes.{with_preserved};
ghost use Rattle.p414_state.specs.Packets.{with_state, width_at};
ghost use Rattle.p414_passes.specs.Kept.{FitsKept, FitsNumbers};
ghost use Rattle.p414_passes.specs.Begun.{all_put_from, numbers_put, with_kept, written_from};
ghost use Rattle.p414_passes.specs.Leaving.{AreWhole};

use crate::kept::{Kept14, KeptNumbers};
use p4x_bits::OutOfMemory;
use p414_layout::Layout;
use p414_state::State14;
use std::alloc::Global;

/// A place as a number of 32 bits; want of memory where it is greater.
fn number_of(place: usize) -> Result<u32, OutOfMemory>
    ensures { IfOk result (λ number. number ≡ place) }
{
    match u32::try_from(place) {
        Ok(number) => Ok(number),
        Err(_) => Err(OutOfMemory),
    }
}

/// Writes numbers to the fields of an instance.
#[tactic(auto, using(crate::proofs::Beginning::next_written, crate::proofs::Beginning::within_now))]
fn write_numbers(state: &mut State14, instance: u32, numbers: &[u128]) -> Result<(), OutOfMemory>
    requires { (field : ℕ) → field < length numbers.now → slice_index numbers.now field < 2 ^ width_at state.old.layout instance field }
    ensures { OnOk result (state.new ≡ with_state state.old (written_from instance 0 numbers.now state.old.state)) }
{
    for (place, number) in numbers.iter().enumerate() {
        let field = number_of(place)?;
        state.put_number(instance, 0, field, *number)?;
    }
    Ok(())
}

/// Makes these the numbers of an instance, if it is metadata.
#[tactic(auto, using(crate::proofs::Beginning::numbers_are_put, crate::proofs::Beginning::numbers_within))]
fn put_numbers(state: &mut State14, instance: u32, set: &KeptNumbers) -> Result<(), OutOfMemory>
    requires whole { AreWhole state.old.layout }
    requires fits { FitsNumbers (shape_at state.old.layout instance) set.now }
    ensures { OnOk result (state.new ≡ with_state state.old (numbers_put state.old.layout instance set.now state.old.state)) }
{
    state.fits(instance);
    write_numbers(state, instance, set.as_slice())?;
    Ok(())
}

/// Makes what is preserved the metadata of a packet; headers stay as they are. It takes no memory; a packet with more instances or
/// fields than a number of 32 bits counts as want of it.
#[tactic(auto, using(crate::proofs::Beginning::next_put, crate::proofs::Beginning::kept_at_place, crate::proofs::Beginning::all_are_put))]
pub fn put_kept(state: &mut State14, kept: &Kept14) -> Result<(), OutOfMemory>
    requires whole { AreWhole state.old.layout }
    requires fits { FitsKept state.old.layout kept.now }
    ensures { OnOk result (state.new ≡ with_state state.old (with_kept state.old.layout kept.now state.old.state)) }
{
    let sets = kept.sets();
    for (place, set) in sets.iter().enumerate() {
        let instance = number_of(place)?;
        put_numbers(state, instance, set)?;
    }
    Ok(())
}

/// The state of an item as its pass begins: all its octets are unparsed, all headers are invalid, and metadata is what is
/// preserved. The one error is want of memory.
#[tactic(auto, using(crate::proofs::Beginning::item_begins))]
pub fn begin_item(
    alloc: Global,
    layout: &Layout,
    octets: &[u8],
    port: u16,
    kind: u32,
    kept: &Kept14,
) -> Result<State14, OutOfMemory>
    requires port { IsPort port }
    requires whole { AreWhole layout.now }
    requires kept { FitsKept layout.now kept.now }
    ensures { IfOk result (λ state. (ds : List Decl) → layout.now ≡ layout_of ds → state ≡ record { layout = layout_of ds; state = with_preserved ds kept.now (new_state ds octets.now port kind) }) }
{
    let mut state = State14::of_layout(alloc, layout, octets, port, kind)?;
    put_kept(&mut state, kept)?;
    Ok(state)
}

/// Makes a state that of another item as its pass begins, as `begin_item` makes one anew; its memory is used again. The one error is want
/// of memory, and the state isn't used again after it.
#[tactic(auto, using(crate::proofs::Beginning::item_begins))]
pub fn begin_again(
    state: &mut State14,
    octets: &[u8],
    port: u16,
    kind: u32,
    kept: &Kept14,
) -> Result<(), OutOfMemory>
    requires port { IsPort port }
    requires whole { AreWhole state.old.layout }
    requires kept { FitsKept state.old.layout kept.now }
    ensures { OnOk result ((ds : List Decl) → state.old.layout ≡ layout_of ds → state.new ≡ record { layout = layout_of ds; state = with_preserved ds kept.now (new_state ds octets.now port kind) }) }
{
    state.renew(octets, port, kind)?;
    put_kept(state, kept)?;
    Ok(())
}
