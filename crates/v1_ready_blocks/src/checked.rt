// Whether what nodes name fits the frames of a layout and the objects of a program.
ghost use Rattle.std.specs.Prelude.{◌≡◌, ◌+◌, ◌*◌, true, IfSome};
ghost use Rattle.state_store.specs.State.{IsCounterAt, IsMeterAt, IsRegisterAt};
ghost use Rattle.v1_core.specs.Nodes.{IsElement, IsWidth};
ghost use Rattle.v1_ready_blocks.specs.Nodes.{AreWithin, IsHeaderPlace, IsRange, IsRangePlace, IsSingle, IsSliceOf, IsSlot, IsSlotPlace, IsTarget, IsToldRange};

use crate::nodes::Single;
use crate::places::{Range, RangePlace, Slice, SlotPlace, Target, ToldRange};
use state_store::Shape;
use v1_core::{Element, FrameLayout};

/// Whether so many from a number on are among so many.
fn are_within(first: u32, count: u32, all: usize) -> bool
    ensures { result ≡ true → AreWithin first count all }
{
    match first.checked_add(count) {
        Some(end) => end as usize <= all,
        None => false,
    }
}

/// Whether so many times so many from a number on are among so many.
fn are_times_within(first: u32, size: u32, each: u32, all: usize) -> bool
    ensures { result ≡ true → AreWithin first (size * each) all }
{
    match size.checked_mul(each) {
        Some(count) => are_within(first, count, all),
        None => false,
    }
}

/// Whether a layout has this slot.
pub fn is_slot(layout: &FrameLayout, slot: u32) -> bool
    ensures { result ≡ true → IsSlot layout.now slot }
{
    (slot as usize) < layout.slots()
}

/// Whether 128 bits have this slice, if it is one.
pub fn is_slice(slice: Option<Slice>) -> bool
    ensures { result ≡ true → IsSliceOf slice }
{
    match slice {
        Some(slice) => { slice.width > 0 && u16::from(slice.low) + u16::from(slice.width) <= 128 }
        None => true,
    }
}

/// Whether a layout has this target.
pub fn is_target(layout: &FrameLayout, target: Target) -> bool
    ensures { result ≡ true → IsTarget layout.now target }
{
    is_slot(layout, target.slot) && is_slice(target.slice)
}

/// Whether a layout has these parts.
pub fn is_range(layout: &FrameLayout, range: Range) -> bool
    ensures { result ≡ true → IsRange layout.now range }
{
    are_within(range.slot, range.slots, layout.slots())
        && are_within(range.header, range.headers, layout.headers())
        && are_within(range.stack, range.stacks, layout.stacks())
}

/// Whether a layout has these parts of all elements of a stack.
fn is_told_range(layout: &FrameLayout, told: ToldRange) -> bool
    ensures { result ≡ true → IsToldRange layout.now told }
{
    if told.stack as usize >= layout.stacks() {
        return false;
    }
    let size = layout.size(told.stack);
    let first = told.first;
    are_times_within(first.slot, size, first.slots, layout.slots())
        && are_times_within(first.header, size, first.headers, layout.headers())
        && are_within(first.stack, first.stacks, layout.stacks())
}

/// Whether a layout has these parts.
pub fn is_range_place(layout: &FrameLayout, place: RangePlace) -> bool
    ensures { result ≡ true → IsRangePlace layout.now place }
{
    match place {
        RangePlace::Fixed(range) => is_range(layout, range),
        RangePlace::Told(told) => is_told_range(layout, told),
    }
}

/// Whether a layout has this header.
pub fn is_header_place(layout: &FrameLayout, place: RangePlace) -> bool
    ensures { result ≡ true → IsHeaderPlace layout.now place }
{
    match place {
        RangePlace::Fixed(range) => range.headers > 0 && is_range(layout, range),
        RangePlace::Told(told) => told.first.headers > 0 && is_told_range(layout, told),
    }
}

/// Where the numbers of the parts of so many elements end, if these have 32 bits.
fn end_of(element: Element, size: u32) -> Option<u32>
    ensures { IfSome result (λ end. end ≡ element.first + size * element.apart) }
{
    size.checked_mul(element.apart)?.checked_add(element.first)
}

/// Whether a layout has this slot.
pub fn is_slot_place(layout: &FrameLayout, place: SlotPlace) -> bool
    ensures { result ≡ true → IsSlotPlace layout.now place }
{
    match place {
        SlotPlace::Fixed(slot) => is_slot(layout, slot),
        SlotPlace::Told(element) => is_element(layout, layout.slots(), element),
    }
}

/// Whether the parts of all elements of a stack are among so many.
fn is_element(layout: &FrameLayout, count: usize, element: Element) -> bool
    ensures { result ≡ true → IsElement layout.now count element }
{
    if element.stack as usize >= layout.stacks() {
        return false;
    }
    match end_of(element, layout.size(element.stack)) {
        Some(end) => (end.saturating_sub(element.apart) as usize) < count,
        None => false,
    }
}

/// Whether this is a number of bits from 1 to 128.
fn is_width(width: u8) -> bool
    ensures { result ≡ true → IsWidth width }
{
    width > 0 && width <= 128
}

/// Whether an operator has widths and places of up to 128 bits.
pub fn is_single(single: Single) -> bool
    ensures { result ≡ true → IsSingle single }
{
    match single {
        Single::Slice(place, width) => place < 128 && is_width(width),
        Single::ToBits(width) => is_width(width),
        Single::ToTruth => true,
        Single::Operator(_) => true,
    }
}

/// Whether a counter has this number.
pub fn is_counter(shapes: &[Shape], object: u32) -> bool
    ensures { result ≡ true → IsCounterAt shapes.now object }
{
    if object as usize >= shapes.len() {
        return false;
    }
    match shapes[object as usize] {
        Shape::Counter { .. } | Shape::Direct { .. } => true,
        _ => false,
    }
}

/// Whether a register has this number.
pub fn is_register(shapes: &[Shape], object: u32) -> bool
    ensures { result ≡ true → IsRegisterAt shapes.now object }
{
    if object as usize >= shapes.len() {
        return false;
    }
    match shapes[object as usize] {
        Shape::Register { .. } => true,
        _ => false,
    }
}

/// Whether a meter has this number.
pub fn is_meter(shapes: &[Shape], object: u32) -> bool
    ensures { result ≡ true → IsMeterAt shapes.now object }
{
    if object as usize >= shapes.len() {
        return false;
    }
    match shapes[object as usize] {
        Shape::Meter { .. } => true,
        _ => false,
    }
}
