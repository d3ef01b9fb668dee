// Headers, stacks and structs, which are copied, or become 0 (P4_16 1.2, "Assignment statement", "Default values").
ghost use Rattle.std.specs.Prelude.{◌≡◌, ◌+◌, ◌^◌, ◌<◌, ◌≤◌, min, length};
ghost use Rattle.v1_core.specs.Cells.{stack_size, with_stack_place};
ghost use Rattle.v1_ready_blocks.specs.Places.{all_copied, all_made, all_taken, copied, emptied, made_first, made_invalid, made_zero, number_taken, place_taken, taken, validity_taken};
ghost use Rattle.v1_ready_blocks.specs.Nodes.{IsRange};

use crate::places::put;
use v1_core::Frame;
use v1_ready_blocks::Range;

/// So many headers become as valid as others of another frame.
#[tactic(auto, using(crate::proofs::Turns::take_validity_begins, crate::proofs::Turns::take_validity_goes, crate::proofs::Turns::take_validity_ends))]
fn take_validity(source: &Frame<'_>, frame: &mut Frame<'_>, count: u32, from: u32, to: u32)
    requires from { from + count ≤ length source.now.layout.headers }
    requires from_narrow { from + count < 2 ^ 32 }
    requires to { to + count ≤ length frame.old.layout.headers }
    requires to_narrow { to + count < 2 ^ 32 }
    ensures is { frame.new ≡ all_taken validity_taken count from to source.now frame.old }
    ensures layout { frame.new.layout ≡ frame.old.layout }
{
    for i in 0..count {
        frame.set_valid(to + i, source.valid(from + i));
    }
}

/// So many slots get the numbers of others of another frame.
#[tactic(auto, using(crate::proofs::Turns::take_numbers_begins, crate::proofs::Turns::take_numbers_goes, crate::proofs::Turns::take_numbers_ends))]
fn take_numbers(source: &Frame<'_>, frame: &mut Frame<'_>, count: u32, from: u32, to: u32)
    requires from { from + count ≤ length source.now.layout.widths }
    requires from_narrow { from + count < 2 ^ 32 }
    requires to { to + count ≤ length frame.old.layout.widths }
    requires to_narrow { to + count < 2 ^ 32 }
    ensures is { frame.new ≡ all_taken number_taken count from to source.now frame.old }
    ensures layout { frame.new.layout ≡ frame.old.layout }
{
    for i in 0..count {
        put(frame, to + i, None, source.get(from + i));
    }
}

/// A stack gets the place of a stack, at most its size.
fn move_to(frame: &mut Frame<'_>, stack: u32, place: u32)
    requires { stack < length frame.old.layout.sizes }
    ensures { frame.new ≡ with_stack_place frame.old stack (min place (stack_size frame.old stack)) }
{
    let place = place.min(frame.size(stack));
    let _done = frame.set_place(stack, place);
}

/// So many stacks get the places of others of another frame.
#[tactic(auto, using(crate::proofs::Turns::take_places_begins, crate::proofs::Turns::take_places_goes, crate::proofs::Turns::take_places_ends))]
fn take_places(source: &Frame<'_>, frame: &mut Frame<'_>, count: u32, from: u32, to: u32)
    requires from { from + count ≤ length source.now.layout.sizes }
    requires from_narrow { from + count < 2 ^ 32 }
    requires to { to + count ≤ length frame.old.layout.sizes }
    requires to_narrow { to + count < 2 ^ 32 }
    ensures is { frame.new ≡ all_taken place_taken count from to source.now frame.old }
    ensures layout { frame.new.layout ≡ frame.old.layout }
{
    for i in 0..count {
        move_to(frame, to + i, source.place(from + i));
    }
}

/// The parts of a range become those of a range of another frame, as many as both have: whether headers are valid, numbers,
/// and places of stacks.
pub fn take(source: &Frame<'_>, frame: &mut Frame<'_>, from: Range, to: Range)
    requires from { IsRange source.now.layout from }
    requires to { IsRange frame.old.layout to }
    ensures is { frame.new ≡ taken from to source.now frame.old }
    ensures layout { frame.new.layout ≡ frame.old.layout }
{
    take_validity(
        source,
        frame,
        from.headers.min(to.headers),
        from.header,
        to.header,
    );
    take_numbers(source, frame, from.slots.min(to.slots), from.slot, to.slot);
    take_places(
        source,
        frame,
        from.stacks.min(to.stacks),
        from.stack,
        to.stack,
    );
}

/// So many headers become as valid as others of the same frame.
#[tactic(auto, using(crate::proofs::Turns::copy_validity_begins, crate::proofs::Turns::copy_validity_goes, crate::proofs::Turns::copy_validity_ends))]
fn copy_validity(frame: &mut Frame<'_>, count: u32, from: u32, to: u32)
    requires from { from + count ≤ length frame.old.layout.headers }
    requires from_narrow { from + count < 2 ^ 32 }
    requires to { to + count ≤ length frame.old.layout.headers }
    requires to_narrow { to + count < 2 ^ 32 }
    ensures is { frame.new ≡ all_copied validity_taken count from to frame.old }
    ensures layout { frame.new.layout ≡ frame.old.layout }
{
    for i in 0..count {
        let on = frame.valid(from + i);
        frame.set_valid(to + i, on);
    }
}

/// So many slots get the numbers of others of the same frame.
#[tactic(auto, using(crate::proofs::Turns::copy_numbers_begins, crate::proofs::Turns::copy_numbers_goes, crate::proofs::Turns::copy_numbers_ends))]
fn copy_numbers(frame: &mut Frame<'_>, count: u32, from: u32, to: u32)
    requires from { from + count ≤ length frame.old.layout.widths }
    requires from_narrow { from + count < 2 ^ 32 }
    requires to { to + count ≤ length frame.old.layout.widths }
    requires to_narrow { to + count < 2 ^ 32 }
    ensures is { frame.new ≡ all_copied number_taken count from to frame.old }
    ensures layout { frame.new.layout ≡ frame.old.layout }
{
    for i in 0..count {
        let number = frame.get(from + i);
        put(frame, to + i, None, number);
    }
}

/// So many stacks get the places of others of the same frame.
#[tactic(auto, using(crate::proofs::Turns::copy_places_begins, crate::proofs::Turns::copy_places_goes, crate::proofs::Turns::copy_places_ends))]
fn copy_places(frame: &mut Frame<'_>, count: u32, from: u32, to: u32)
    requires from { from + count ≤ length frame.old.layout.sizes }
    requires from_narrow { from + count < 2 ^ 32 }
    requires to { to + count ≤ length frame.old.layout.sizes }
    requires to_narrow { to + count < 2 ^ 32 }
    ensures is { frame.new ≡ all_copied place_taken count from to frame.old }
    ensures layout { frame.new.layout ≡ frame.old.layout }
{
    for i in 0..count {
        let place = frame.place(from + i);
        move_to(frame, to + i, place);
    }
}

/// The parts of a range become those of another one of the same frame, as many as both have, one after the other.
pub fn copy(frame: &mut Frame<'_>, from: Range, to: Range)
    requires from { IsRange frame.old.layout from }
    requires to { IsRange frame.old.layout to }
    ensures is { frame.new ≡ copied from to frame.old }
    ensures layout { frame.new.layout ≡ frame.old.layout }
{
    copy_validity(frame, from.headers.min(to.headers), from.header, to.header);
    copy_numbers(frame, from.slots.min(to.slots), from.slot, to.slot);
    copy_places(frame, from.stacks.min(to.stacks), from.stack, to.stack);
}

/// So many headers become invalid.
#[tactic(auto, using(crate::proofs::Turns::make_invalid_begins, crate::proofs::Turns::make_invalid_goes, crate::proofs::Turns::make_invalid_ends))]
pub fn make_invalid(frame: &mut Frame<'_>, count: u32, from: u32)
    requires within { from + count ≤ length frame.old.layout.headers }
    requires narrow { from + count < 2 ^ 32 }
    ensures is { frame.new ≡ all_made made_invalid count from frame.old }
    ensures layout { frame.new.layout ≡ frame.old.layout }
{
    for i in 0..count {
        frame.set_valid(from + i, false);
    }
}

/// So many slots become 0.
#[tactic(auto, using(crate::proofs::Turns::make_zero_begins, crate::proofs::Turns::make_zero_goes, crate::proofs::Turns::make_zero_ends))]
fn make_zero(frame: &mut Frame<'_>, count: u32, from: u32)
    requires within { from + count ≤ length frame.old.layout.widths }
    requires narrow { from + count < 2 ^ 32 }
    ensures is { frame.new ≡ all_made made_zero count from frame.old }
    ensures layout { frame.new.layout ≡ frame.old.layout }
{
    for i in 0..count {
        frame.set(from + i, 0);
    }
}

/// So many stacks are put at place 0.
#[tactic(auto, using(crate::proofs::Turns::make_first_begins, crate::proofs::Turns::make_first_goes, crate::proofs::Turns::make_first_ends))]
fn make_first(frame: &mut Frame<'_>, count: u32, from: u32)
    requires within { from + count ≤ length frame.old.layout.sizes }
    requires narrow { from + count < 2 ^ 32 }
    ensures is { frame.new ≡ all_made made_first count from frame.old }
    ensures layout { frame.new.layout ≡ frame.old.layout }
{
    for i in 0..count {
        let _done = frame.set_place(from + i, 0);
    }
}

/// All parts become invalid, 0, and at place 0.
pub fn empty(frame: &mut Frame<'_>, range: Range)
    requires { IsRange frame.old.layout range }
    ensures is { frame.new ≡ emptied range frame.old }
    ensures layout { frame.new.layout ≡ frame.old.layout }
{
    make_invalid(frame, range.headers, range.header);
    make_zero(frame, range.slots, range.slot);
    make_first(frame, range.stacks, range.stack);
}
