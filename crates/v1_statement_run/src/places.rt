// Where single values are written, and places that the place of a stack tells (P4_16 1.2, "L-values", "Operations on header
// stacks").
ghost use Rattle.std.specs.Prelude.{◌≡◌, ◌+◌, ◌*◌, ◌^◌, ◌<◌, ◌≤◌, true, false, length, slice_index, Some, IfSome, MatchOption};
ghost use Rattle.v1_core.specs.Cells.{stack_place, stack_size};
ghost use Rattle.v1_core.specs.Ready.{element_by, is_past};
ghost use Rattle.v1_core.specs.Nodes.{IsElement};
ghost use Rattle.v1_statement_run.specs.Parts.{IsHeader};
ghost use Rattle.v1_ready_blocks.specs.Nodes.{IsHeaderPlace, IsRange, IsRangePlace, IsSlice, IsSlot, IsSliceOf, IsSlotPlace, IsTarget, IsToldRange};
ghost use Rattle.v1_ready_blocks.specs.Places.{element_range, put, put_at, range_at, slot_at, told_range, told_slot};

use crate::numbers::{low, splice};
use v1_core::{Element, Frame, Which};
use v1_ready_blocks::{Range, RangePlace, Slice, SlotPlace, Target, ToldRange};

/// Puts a number into a slice of a slot, cut to what is there; a field of an invalid header keeps its own.
#[inline(never)]
fn put_slice(frame: &mut Frame<'_>, slot: u32, slice: Slice, number: u128)
    requires slot { IsSlot frame.old.layout slot }
    requires slice { IsSlice slice }
    ensures { frame.new ≡ put slot (Some slice) number frame.old }
{
    let old = frame.get(slot);
    frame.set(slot, splice(frame.width(slot), slice, old, number));
}

/// Puts a number into a slot, or into a slice of it, cut to what is there; a field of an invalid header keeps its own.
pub fn put(frame: &mut Frame<'_>, slot: u32, slice: Option<Slice>, number: u128)
    requires slot { IsSlot frame.old.layout slot }
    requires slice { IsSliceOf slice }
    ensures { frame.new ≡ put slot slice number frame.old }
{
    match slice {
        Some(slice) => put_slice(frame, slot, slice, number),
        None => frame.set(slot, low(number, frame.width(slot))),
    }
}

/// Puts a number into a target, cut to what is there; a field of an invalid header keeps its own.
pub fn put_at(frame: &mut Frame<'_>, target: Target, number: u128)
    requires { IsTarget frame.old.layout target }
    ensures { frame.new ≡ put_at target number frame.old }
{
    put(frame, target.slot, target.slice, number);
}

/// Whether a stack at this place has no such element.
fn is_past(which: Which, place: u32, size: u32) -> bool
    ensures { result ≡ is_past which place size }
{
    match which {
        Which::Next => place >= size,
        Which::Last => place == 0,
    }
}

/// The element that a stack at this place tells.
fn element_by(which: Which, place: u32) -> u32
    ensures { result ≡ element_by which place }
{
    match which {
        Which::Next => place,
        Which::Last => place.saturating_sub(1),
    }
}

/// The number of the element that the place of a stack tells, or none where the stack has no such element.
fn told(frame: &Frame<'_>, which: Which, stack: u32) -> Option<u32>
    requires { stack < length frame.now.layout.sizes }
    ensures past { MatchOption result (is_past which (stack_place frame.now stack) (stack_size frame.now stack) ≡ true) (λ number. is_past which (stack_place frame.now stack) (stack_size frame.now stack) ≡ false) }
    ensures is { IfSome result (λ number. number ≡ element_by which (stack_place frame.now stack)) }
    ensures within { IfSome result (λ number. number < slice_index frame.now.layout.sizes stack) }
{
    let place = frame.place(stack);
    let size = frame.size(stack);
    if is_past(which, place, size) {
        None
    } else {
        Some(element_by(which, place))
    }
}

/// A number that is so many times further than the first, where such numbers are within so many times.
fn number_of(first: u32, apart: u32, number: u32, size: u32) -> u32
    requires within { number < size }
    requires narrow { first + size * apart < 2 ^ 32 }
    ensures is { result ≡ first + number * apart }
    ensures order { result + apart ≤ first + size * apart }
{
    let ahead = number * apart;
    first + ahead
}

/// The slot of a field of the element that the place of a stack tells, or none where the stack has no such element.
fn told_slot(frame: &Frame<'_>, element: Element) -> Option<u32>
    requires { IsElement frame.now.layout (length frame.now.layout.widths) element }
    ensures is { result ≡ told_slot frame.now element }
    ensures slot { IfSome result (λ slot. IsSlot frame.now.layout slot) }
{
    match told(frame, element.which, element.stack) {
        Some(number) => Some(number_of(
            element.first,
            element.apart,
            number,
            frame.size(element.stack),
        )),
        None => None,
    }
}

/// The slot that is meant, or none where it is that of an element that isn't there.
pub fn slot_at(frame: &Frame<'_>, place: SlotPlace) -> Option<u32>
    requires { IsSlotPlace frame.now.layout place }
    ensures is { result ≡ slot_at frame.now place }
    ensures slot { IfSome result (λ slot. IsSlot frame.now.layout slot) }
{
    match place {
        SlotPlace::Fixed(slot) => Some(slot),
        SlotPlace::Told(element) => told_slot(frame, element),
    }
}

/// The parts of the element with a number, where these are those of the element 0.
fn element_range(first: Range, number: u32, size: u32) -> Range
    requires within { number < size }
    requires slots { first.slot + size * first.slots < 2 ^ 32 }
    requires headers { first.header + size * first.headers < 2 ^ 32 }
    ensures is { result ≡ element_range first number }
    ensures slots_order { result.slot + first.slots ≤ first.slot + size * first.slots }
    ensures headers_order { result.header + first.headers ≤ first.header + size * first.headers }
{
    Range {
        slot: number_of(first.slot, first.slots, number, size),
        header: number_of(first.header, first.headers, number, size),
        ..first
    }
}

/// The parts of the element that the place of a stack tells, or none where the stack has no such element.
fn told_range(frame: &Frame<'_>, place: ToldRange) -> Option<Range>
    requires { IsToldRange frame.now.layout place }
    ensures is { result ≡ told_range frame.now place }
    ensures range { IfSome result (λ range. IsRange frame.now.layout range) }
    ensures headers { IfSome result (λ range. range.headers ≡ place.first.headers) }
{
    match told(frame, place.which, place.stack) {
        Some(number) => Some(element_range(place.first, number, frame.size(place.stack))),
        None => None,
    }
}

/// The parts that are meant, or none where they are those of an element that isn't there.
pub fn range_at(frame: &Frame<'_>, place: RangePlace) -> Option<Range>
    requires { IsRangePlace frame.now.layout place }
    ensures is { result ≡ range_at frame.now place }
    ensures range { IfSome result (λ range. IsRange frame.now.layout range) }
{
    match place {
        RangePlace::Fixed(range) => Some(range),
        RangePlace::Told(told) => told_range(frame, told),
    }
}

/// The parts of a header that is meant, or none where it is an element that isn't there.
pub fn header_at(frame: &Frame<'_>, place: RangePlace) -> Option<Range>
    requires { IsHeaderPlace frame.now.layout place }
    ensures is { result ≡ range_at frame.now place }
    ensures header { IfSome result (λ range. IsHeader frame.now.layout range) }
{
    match place {
        RangePlace::Fixed(range) => Some(range),
        RangePlace::Told(told) => told_range(frame, told),
    }
}
