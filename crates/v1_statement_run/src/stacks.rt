// Elements of a stack that move (P4_16 1.2, "Operations on header stacks").
ghost use Rattle.std.specs.Prelude.{◌≡◌, ◌+◌, ◌*◌, ◌^◌, ◌<◌, ◌≤◌};
ghost use Rattle.v1_ready_blocks.specs.Stacks.{element_copied, element_of, fields_each, moved_down, moved_up, popped, pushed};
ghost use Rattle.v1_ready_blocks.specs.Nodes.{IsRange};

use crate::ranges::{copy, make_invalid};
use v1_core::Frame;
use v1_ready_blocks::Range;

/// How many fields each element of a stack has; 0 where there are no elements.
fn fields_each(stack: Range) -> u32
    ensures is { result ≡ fields_each stack }
    ensures all { stack.headers * result ≤ stack.slots }
{
    stack.slots.checked_div(stack.headers).unwrap_or(0)
}

/// The parts of an element.
pub fn element_of(stack: Range, number: u32) -> Range
    requires element { number < stack.headers }
    requires slots { stack.slot + stack.slots < 2 ^ 32 }
    requires headers { stack.header + stack.headers < 2 ^ 32 }
    ensures is { result ≡ element_of stack number }
    ensures slots { result.slot + result.slots ≤ stack.slot + stack.slots }
    ensures headers { result.header + result.headers ≤ stack.header + stack.headers }
{
    let fields = fields_each(stack);
    Range {
        slot: stack.slot + number * fields,
        slots: fields,
        header: stack.header + number,
        headers: 1,
        stack: 0,
        stacks: 0,
    }
}

/// An element becomes as another one is.
fn copy_element(frame: &mut Frame<'_>, stack: Range, from: u32, to: u32)
    requires stack { IsRange frame.old.layout stack }
    requires from { from < stack.headers }
    requires to { to < stack.headers }
    ensures is { frame.new ≡ element_copied stack from to frame.old }
    ensures layout { frame.new.layout ≡ frame.old.layout }
{
    copy(frame, element_of(stack, from), element_of(stack, to));
}

/// The first so many elements move up by a distance.
#[tactic(auto, using(crate::proofs::Turns::up_begins, crate::proofs::Turns::up_goes, crate::proofs::Turns::up_ends))]
fn move_up(frame: &mut Frame<'_>, stack: Range, distance: u32, count: u32)
    requires stack { IsRange frame.old.layout stack }
    requires within { count + distance ≤ stack.headers }
    ensures is { frame.new ≡ moved_up stack distance count frame.old }
    ensures layout { frame.new.layout ≡ frame.old.layout }
{
    let mut left = count;
    while left > 0 {
        left -= 1;
        copy_element(frame, stack, left, left + distance);
    }
}

/// So many elements behind the first ones move down by as many.
#[tactic(auto, using(crate::proofs::Turns::down_begins, crate::proofs::Turns::down_goes, crate::proofs::Turns::down_ends))]
fn move_down(frame: &mut Frame<'_>, stack: Range, distance: u32, count: u32)
    requires stack { IsRange frame.old.layout stack }
    requires within { count + distance ≤ stack.headers }
    ensures is { frame.new ≡ moved_down stack distance distance count frame.old }
    ensures layout { frame.new.layout ≡ frame.old.layout }
{
    for i in 0..count {
        copy_element(frame, stack, distance + i, i);
    }
}

/// `push_front`: elements move up, and the first ones, so many and at most all, become invalid.
pub fn push_front(frame: &mut Frame<'_>, stack: Range, count: u32)
    requires { IsRange frame.old.layout stack }
    ensures is { frame.new ≡ pushed stack count frame.old }
    ensures layout { frame.new.layout ≡ frame.old.layout }
{
    let all = count.min(stack.headers);
    move_up(frame, stack, all, stack.headers - all);
    make_invalid(frame, all, stack.header);
}

/// `pop_front`: elements move down, and the last ones, so many and at most all, become invalid.
pub fn pop_front(frame: &mut Frame<'_>, stack: Range, count: u32)
    requires { IsRange frame.old.layout stack }
    ensures is { frame.new ≡ popped stack count frame.old }
    ensures layout { frame.new.layout ≡ frame.old.layout }
{
    let all = count.min(stack.headers);
    move_down(frame, stack, all, stack.headers - all);
    make_invalid(frame, all, stack.header + (stack.headers - all));
}
