// Extractions.
ghost use Rattle.std.specs.Prelude.{◌≡◌, ◌+◌, ◌*◌, ◌^◌, ◌<◌, ◌≤◌, false, length, None, IfOk, OnOk};
ghost use Rattle.p414_sem.specs.State.{place_of};
ghost use Rattle.p414_layout.specs.Placed.{total};
ghost use Rattle.p414_layout.specs.Shapes.{element_count, last_place, shape_at};
ghost use Rattle.p414_state.specs.Packets.{with_state};
ghost use Rattle.p414_ready_parser.specs.Running.{element_at, extract_row, filled_by, is_past, moved_on, taken_off};
ghost use Rattle.p414_parse_run.specs.Fits.{FitsExtract};
ghost use Rattle.p414_parse_run.specs.Shown.{IsDone, shown_going, widths_in};

use crate::fields::has_bits;
use crate::going::Going;
use p4x_bits::OutOfMemory;
use p414_sem::Parsed;
use p414_state::State14;

/// Whether the next element of a stack is asked for, and its place is behind the last one.
fn is_past(state: &State14, instance: u32, fixed: Option<u32>) -> bool
    ensures is { result ≡ is_past state.now.state instance fixed }
    ensures place { result ≡ false → fixed ≡ None → place_of state.now.state instance < element_count (shape_at state.now.layout instance) }
    ensures bound { result ≡ false → fixed ≡ None → place_of state.now.state instance + 1 < 2 ^ 32 }
{
    match fixed {
        Some(_) => false,
        None => state.place(instance) >= state.size(instance),
    }
}

/// The element that is extracted.
fn element_at(state: &State14, instance: u32, fixed: Option<u32>) -> u32
    ensures { result ≡ element_at state.now.state instance fixed }
{
    match fixed {
        Some(element) => element,
        None => state.place(instance),
    }
}

/// The next bits become the fields of an element, and are taken off.
fn take(state: &mut State14, instance: u32, element: u32, bits: u32) -> Result<(), OutOfMemory>
    requires bits { bits ≡ total (shape_at state.old.layout instance).widths }
    requires there { bits ≤ 8 * length state.old.state.unparsed }
    ensures { OnOk result (state.new ≡ with_state state.old (taken_off bits (filled_by (widths_in state.old.layout) instance element state.old.state))) }
{
    state.fill(instance, element);
    state.skip(bits as usize / 8)
}

/// The place of a stack whose next element was extracted goes on by one.
fn move_on(state: &mut State14, instance: u32, fixed: Option<u32>) -> Result<(), OutOfMemory>
    requires place { fixed ≡ None → place_of state.old.state instance < last_place (shape_at state.old.layout instance) }
    requires bound { fixed ≡ None → place_of state.old.state instance + 1 < 2 ^ 32 }
    ensures { OnOk result (state.new ≡ with_state state.old (moved_on instance fixed state.old.state)) }
{
    match fixed {
        Some(_) => Ok(()),
        None => {
            let place = state.place(instance);
            state.put_place(instance, place + 1)
        }
    }
}

/// An extraction: whether a stack is full is asked before whether the octets are there. Where it ends parsing nothing moves.
pub fn extract(
    state: &mut State14,
    instance: u32,
    fixed: Option<u32>,
    bits: u32,
) -> Result<Going, OutOfMemory>
    requires { FitsExtract state.old.layout instance fixed bits }
    ensures { IfOk result (λ going. IsDone state.old state.new (shown_going going state.new.state) (extract_row (widths_in state.old.layout) instance fixed bits state.old.state)) }
{
    if is_past(state, instance, fixed) {
        return Ok(Going::Stopped(Parsed::OutOfBounds));
    }
    if !has_bits(state, u64::from(bits)) {
        return Ok(Going::Stopped(Parsed::OutOfPacket));
    }
    let element = element_at(state, instance, fixed);
    take(state, instance, element, bits)?;
    move_on(state, instance, fixed)?;
    Ok(Going::On(element))
}
