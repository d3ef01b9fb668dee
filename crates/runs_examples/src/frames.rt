// Values worked by hand. The slots are 0 to 2 of the header, 3 and 4 of the stack's elements, 5 of the truth value, 6 of the
// error.
ghost use Rattle.std.specs.Prelude.{◌≡◌, ◌<◌, ◌≤◌, ◌^◌, length, slice_index, IfOk};
ghost use Rattle.runs_examples.specs.Layouts.{small};

use fabric::{Event, RequestKind};
use p4x_bits::OutOfMemory;
use std::alloc::Global;
use v1_core::{Frame, FrameLayout};

/// A header of three fields, a stack of two elements, a truth value and an error.
fn layout(alloc: Global) -> Result<FrameLayout, OutOfMemory>
    ensures { IfOk result (λ layout. layout ≡ small) }
{
    let mut layout = FrameLayout::new(alloc);
    layout.add_header(&[8, 8, 16])?;
    layout.add_header(&[8])?;
    layout.add_header(&[8])?;
    layout.add_stack(2)?;
    layout.add_number(1)?;
    layout.add_number(2)?;
    Ok(layout)
}

/// Puts a number into a slot. Of the frame it tells the layout alone, so that a test may be long.
fn put(frame: &mut Frame<'_>, slot: u32, value: u128)
    requires slot { slot < length frame.old.layout.widths }
    requires value { value < 2 ^ slice_index frame.old.layout.widths slot }
    ensures { frame.new.layout ≡ frame.old.layout }
{
    frame.set(slot, value);
}

/// Makes a header valid or invalid.
fn mark(frame: &mut Frame<'_>, header: u32, on: bool)
    requires { header < length frame.old.layout.headers }
    ensures { frame.new.layout ≡ frame.old.layout }
{
    frame.set_valid(header, on);
}

/// Puts the place of a stack.
fn place(frame: &mut Frame<'_>, stack: u32, at: u32) -> Result<(), OutOfMemory>
    requires stack { stack < length frame.old.layout.sizes }
    requires at { at ≤ slice_index frame.old.layout.sizes stack }
    ensures { frame.new.layout ≡ frame.old.layout }
{
    frame.set_place(stack, at)
}

/// Puts the request of a kind, and notes an application of a table.
fn ask(frame: &mut Frame<'_>, kind: RequestKind, list: u8) -> Result<(), OutOfMemory>
    ensures { frame.new.layout ≡ frame.old.layout }
{
    frame.set_request(kind, Some((7, list)))?;
    frame.push_event(Event {
        table: 1,
        entry: None,
        action: Some(0),
    })
}

/// Takes all requests and notes back.
fn forget(frame: &mut Frame<'_>)
    ensures { frame.new.layout ≡ frame.old.layout }
{
    frame.clear_requests();
    frame.clear_events();
}

/// Whether a field of an invalid header isn't written, and one of a valid header is written by itself.
fn fields_are_written(frame: &mut Frame<'_>) -> bool
    requires { frame.old.layout ≡ small }
    ensures { frame.new.layout ≡ frame.old.layout }
{
    put(frame, 1, 5);
    let unwritten = frame.get(1) == 0;
    mark(frame, 0, true);
    put(frame, 1, 5);
    put(frame, 5, 1);
    let valid = frame.valid(0) && !frame.valid(1) && !frame.valid(2);
    unwritten && valid && frame.get(0) == 0 && frame.get(1) == 5 && frame.get(2) == 0
}

/// Whether the slot next to those of a header that becomes invalid isn't one of its fields.
fn next_slot_stays(frame: &mut Frame<'_>) -> bool
    requires { frame.old.layout ≡ small }
    ensures { frame.new.layout ≡ frame.old.layout }
{
    mark(frame, 2, true);
    put(frame, 4, 0xff);
    mark(frame, 2, false);
    frame.get(4) == 0 && frame.get(5) == 1
}

/// Whether a header that is made valid again keeps its fields, and one that was invalid in between doesn't.
fn fields_begin_with_0(frame: &mut Frame<'_>) -> bool
    requires { frame.old.layout ≡ small }
    ensures { frame.new.layout ≡ frame.old.layout }
{
    mark(frame, 0, true);
    let kept = frame.get(1) == 5;
    mark(frame, 0, false);
    mark(frame, 0, true);
    kept && frame.get(1) == 0
}

/// Whether fields are there exactly where their header is.
fn fields_follow_their_header(frame: &mut Frame<'_>) -> bool
    requires { frame.old.layout ≡ small }
    ensures { frame.new.layout ≡ frame.old.layout }
{
    let written = fields_are_written(frame);
    let stays = next_slot_stays(frame);
    let begins = fields_begin_with_0(frame);
    written && stays && begins
}

/// Whether a frame has header 0 with this in slot 2, this place of its stack, and this request to resubmit.
fn has(frame: &Frame<'_>, number: u128, at: u32, request: Option<(u32, u8)>) -> bool
    requires { frame.now.layout ≡ small }
{
    frame.valid(0) == (number != 0)
        && frame.get(2) == number
        && frame.place(0) == at
        && frame.request(RequestKind::Resubmit) == request
        && frame.request(RequestKind::Recirculate).is_none()
        && frame.events().is_empty() == request.is_none()
}

/// Whether a copy keeps what stood there.
fn copy_stays(alloc: Global, frame: &mut Frame<'_>) -> Result<bool, OutOfMemory>
    requires { frame.old.layout ≡ small }
    ensures { frame.new.layout ≡ frame.old.layout }
{
    mark(frame, 0, true);
    put(frame, 2, 0xffff);
    place(frame, 0, 2)?;
    ask(frame, RequestKind::Resubmit, 2)?;
    let kept = frame.copy(alloc)?;
    mark(frame, 0, false);
    place(frame, 0, 1)?;
    forget(frame);
    Ok(has(&kept, 0xffff, 2, Some((7, 2))) && has(frame, 0, 1, None))
}

/// Whether both hold of a new frame.
fn keep_what_is_put(alloc: Global) -> Result<bool, OutOfMemory> {
    let layout = layout(alloc)?;
    let mut frame = Frame::of_layout(alloc, &layout)?;
    let fields = fields_follow_their_header(&mut frame);
    let copies = copy_stays(alloc, &mut frame)?;
    Ok(fields && copies)
}

#[test]
fn frames_keep_what_is_put(rt: HostRuntime) {
    assert!(rt; keep_what_is_put(rt.alloc()) == Ok(true));
}
