// Headers that are extracted and emitted (`core.p4`, `packet_in.extract` and `packet_out.emit`).
ghost use Rattle.std.specs.Prelude.{◌≡◌, ◌+◌, ◌*◌, ◌^◌, ◌%◌, ◌++◌, ◌<◌, ◌≤◌, true, false, min, nat_lt, length, take, drop, MatchOption, OnOk};
ghost use Rattle.p4x_bits.specs.BitLists.{num, octet_bits};
ghost use Rattle.v1_ready_blocks.specs.Packets.{element_bits, filled, header_bits, moved_on, slot_bits, total_width};
ghost use Rattle.v1_ready_blocks.specs.Nodes.{IsRange, IsRangePlace};
ghost use Rattle.v1_statement_run.specs.Parts.{HasExtracted, IsHeader};
ghost use Rattle.v1_statement_run.specs.Windows.{Holds};

use crate::buffers::BitBuffer;
use crate::stacks::element_of;
use p4x_bits::{Bits, OutOfMemory, read_octet_field};
use v1_core::{Frame, Which};
use v1_ready_blocks::{Range, RangePlace};

/// The bits of so many slots.
#[tactic(auto, using(crate::proofs::Packing::total_begins, crate::proofs::Packing::total_ends, crate::proofs::Packing::total_few))]
fn total_width(frame: &Frame<'_>, count: u32, slot: u32) -> u64
    requires within { slot + count ≤ length frame.now.layout.widths }
    requires narrow { slot + count < 2 ^ 32 }
    ensures is { result ≡ total_width frame.now count slot }
    ensures few { result ≤ 128 * count }
{
    let mut total = 0u64;
    for i in 0..count {
        total += u64::from(frame.width(slot + i));
    }
    total
}

/// Bits that were read ahead: the last so many of a word.
#[derive(Drop)]
struct Window {
    word: u64,
    held: u8,
}

/// The number of the last bits of a word, so many.
#[tactic(auto, using(crate::proofs::Cutting::masked_word))]
fn last_bits(word: u64, width: u8) -> u64
    requires { width < 64 }
    ensures { result ≡ word % 2 ^ width }
{
    word & ((1 << width) - 1)
}

/// Where a window doesn't hold as many bits as a field has, it holds those up to the end of eight octets, if so many are there.
#[tactic(auto, using(crate::proofs::Windows::fits_word, crate::proofs::Windows::holds_read))]
fn look_ahead(window: &mut Window, octets: &[u8], at: usize, width: u8)
    requires within { at ≤ 8 * length octets.now }
    requires few { window.old.held < 64 }
    requires holds { Holds window.old (drop at (octet_bits octets.now)) }
    ensures holds { Holds window.new (drop at (octet_bits octets.now)) }
    ensures room { window.new.held < 64 + width }
{
    if width <= window.held || octets.len() - at / 8 < 8 {
        return;
    }
    let count = 64 - (at % 8) as u8;
    window.word = read_octet_field(octets, at, count) as u64;
    window.held = count;
}

/// The number of the field of so many bits at a place in octets; what it had to read further it keeps in a window.
#[tactic(auto, using(crate::proofs::Windows::field_held, crate::proofs::Windows::holds_rest, crate::proofs::Windows::holds_none))]
fn read_ahead(window: &mut Window, octets: &[u8], at: usize, width: u8) -> u128
    requires width { width ≤ 128 }
    requires within { at + width ≤ 8 * length octets.now }
    requires few { window.old.held < 64 }
    requires holds { Holds window.old (drop at (octet_bits octets.now)) }
    ensures is { result ≡ num (take width (drop at (octet_bits octets.now))) }
    ensures few { window.new.held < 64 }
    ensures holds { Holds window.new (drop (at + width) (octet_bits octets.now)) }
{
    if width < 57 {
        look_ahead(window, octets, at, width);
        if width <= window.held {
            window.held -= width;
            return u128::from(last_bits(window.word >> window.held, width));
        }
    }
    window.held = 0;
    read_octet_field(octets, at, width)
}

/// So many slots get the numbers that lie one after another in octets.
#[tactic(auto, using(crate::proofs::Windows::ahead_width, crate::proofs::Windows::ahead_few, crate::proofs::Windows::ahead_holds, crate::proofs::Windows::ahead_ends, crate::proofs::Packing::fill_fits))]
fn fill(frame: &mut Frame<'_>, octets: &[u8], count: u32, slot: u32)
    requires slots { slot + count ≤ length frame.old.layout.widths }
    requires narrow { slot + count < 2 ^ 32 }
    requires bits { total_width frame.old count slot ≤ 8 * length octets.now }
    ensures is { frame.new ≡ filled count slot (octet_bits octets.now) frame.old }
    ensures layout { frame.new.layout ≡ frame.old.layout }
{
    let mut window = Window { word: 0, held: 0 };
    let mut at = 0usize;
    for i in 0..count {
        let width = frame.width(slot + i);
        frame.set(slot + i, read_ahead(&mut window, octets, at, width));
        at += usize::from(width);
    }
}

/// `extract`: the bits in front of octets become the fields of a header, which is valid then, also where it was. It gives how
/// many octets these are; None, and the frame as it was, exactly where there are too few.
#[tactic(auto, using(crate::proofs::Packing::few_bits, crate::proofs::Packing::enough_bits, crate::proofs::Packing::still_enough, crate::proofs::Packing::has_filled))]
pub fn extract(frame: &mut Frame<'_>, octets: &[u8], header: Range) -> Option<usize>
    requires { IsHeader frame.old.layout header }
    ensures few { MatchOption result (nat_lt (total_width frame.old header.slots header.slot) (8 * length octets.now + 1) ≡ false) (λ count. nat_lt (total_width frame.old header.slots header.slot) (8 * length octets.now + 1) ≡ true) }
    ensures is { HasExtracted header octets.now frame.old frame.new result }
    ensures layout { frame.new.layout ≡ frame.old.layout }
{
    let bits = total_width(frame, header.slots, header.slot);
    if (octets.len() as u64) < (bits + 7) / 8 {
        return None;
    }
    frame.set_valid(header.header, true);
    fill(frame, octets, header.slots, header.slot);
    Some((bits / 8) as usize)
}

/// The place behind this one, at most the last.
fn next_place(place: u32, size: u32) -> u32
    requires { place ≤ size }
    ensures is { result ≡ min (place + 1) size }
    ensures fits { result ≤ size }
{
    if place < size { place + 1 } else { size }
}

/// Moves the place of the stack whose `next` was extracted by one, at most to the end; nothing of another header.
pub fn move_on(frame: &mut Frame<'_>, header: RangePlace)
    requires { IsRangePlace frame.old.layout header }
    ensures is { frame.new ≡ moved_on header frame.old }
    ensures layout { frame.new.layout ≡ frame.old.layout }
{
    if let RangePlace::Told(told) = header {
        if let Which::Next = told.which {
            let place = next_place(frame.place(told.stack), frame.size(told.stack));
            let _done = frame.set_place(told.stack, place);
        }
    }
}

/// Puts the bits of so many slots behind others.
#[tactic(auto, using(crate::proofs::Packing::slots_begin, crate::proofs::Packing::slots_go, crate::proofs::Packing::slots_end))]
fn emit_slots(
    frame: &Frame<'_>,
    emitted: &mut Bits,
    count: u32,
    slot: u32,
) -> Result<(), OutOfMemory>
    requires within { slot + count ≤ length frame.now.layout.widths }
    requires narrow { slot + count < 2 ^ 32 }
    ensures { OnOk result (emitted.new ≡ emitted.old ++ slot_bits frame.now count slot) }
{
    let mut buffer = BitBuffer::none();
    for i in 0..count {
        buffer.push(emitted, frame.width(slot + i), frame.get(slot + i))?;
    }
    buffer.flush(emitted)?;
    Ok(())
}

/// Puts the bits of a header behind others, if it is valid.
fn emit_header(frame: &Frame<'_>, emitted: &mut Bits, header: Range) -> Result<(), OutOfMemory>
    requires { IsHeader frame.now.layout header }
    ensures { OnOk result (emitted.new ≡ emitted.old ++ header_bits frame.now header) }
{
    if frame.valid(header.header) {
        emit_slots(frame, emitted, header.slots, header.slot)?;
    }
    Ok(())
}

/// `emit`: puts the bits of a header behind others if it is valid, or those of the valid elements of a stack in order. The one
/// error is want of memory.
#[tactic(auto, using(crate::proofs::Packing::emit_begins, crate::proofs::Packing::emit_goes, crate::proofs::Packing::emit_ends))]
pub fn emit(frame: &Frame<'_>, emitted: &mut Bits, range: Range) -> Result<(), OutOfMemory>
    requires { IsRange frame.now.layout range }
    ensures { OnOk result (emitted.new ≡ emitted.old ++ element_bits frame.now range 0 range.headers) }
{
    for i in 0..range.headers {
        emit_header(frame, emitted, element_of(range, i))?;
    }
    Ok(())
}
