// What a field list preserves.
ghost use Rattle.std.specs.Prelude.{◌≡◌, ◌+◌, ◌<◌, length, if◌then◌else◌, IfOk};
ghost use Rattle.v1_core.specs.Cells.{slot_value};
ghost use Rattle.v1_pass_slots.specs.Lists.{is_listed};
ghost use Rattle.v1_packets.specs.Kept.{kept_from};
ghost use Rattle.v1_packets.specs.internal.Filled.{AreLone};

use p4x_bits::OutOfMemory;
use std::alloc::Global;
use v1_core::Frame;
use v1_pass_slots::{SlotLists, Slots};

/// The number in a slot that is in these field lists, where one list is among them, and else 0.
fn kept_number(frame: &Frame<'_>, slot: u32, lists: &SlotLists, list: u8) -> u128
    requires { slot < length frame.now.layout.widths }
    ensures { result ≡ if is_listed list lists.now then slot_value frame.now slot else 0 }
{
    if lists.has(list) { frame.get(slot) } else { 0 }
}

/// The numbers that a list preserves in slots that are in these field lists, and 0 in place of the others, or want of memory.
pub(crate) fn keep(
    alloc: Global,
    frame: &Frame<'_>,
    slots: Slots,
    lists: &[SlotLists],
    list: u8,
) -> Result<Vec<u128>, OutOfMemory>
    requires count { slots.to ≡ slots.from + length lists.now }
    requires lone { AreLone frame.now.layout slots.from slots.to }
    ensures { IfOk result (λ kept. kept.items ≡ kept_from frame.now slots.from lists.now list) }
{
    let mut kept = Vec::new(alloc);
    let mut slot = slots.from;
    for of_slot in lists {
        kept.push(kept_number(frame, slot, of_slot, list))?;
        slot += 1;
    }
    Ok(kept)
}
