// Numbers that are put into slots one after another.
ghost use Rattle.std.specs.Prelude.{◌≡◌, ◌≤◌, slice_index_or};
ghost use Rattle.v1_packets.specs.Packets.{AreFitting};
ghost use Rattle.v1_packets.specs.internal.Filled.{AreLone, IsFilled};

use v1_core::Frame;
use v1_pass_slots::Slots;

/// The number at a place; 0 where there is none.
pub(crate) fn number_at(numbers: &[u128], place: u32) -> u128
    ensures { result ≡ slice_index_or numbers.now place 0 }
{
    match numbers.get(place as usize) {
        Some(number) => *number,
        None => 0,
    }
}

/// Puts numbers into slots, in order; where there are fewer numbers, 0 into the slots that are left.
#[tactic(auto, using(crate::proofs::Filling::none_filled, crate::proofs::Filling::one_filled, crate::proofs::Filling::number_fits))]
pub(crate) fn fill(frame: &mut Frame<'_>, slots: Slots, numbers: &[u128])
    requires order { slots.from ≤ slots.to }
    requires lone { AreLone frame.old.layout slots.from slots.to }
    requires fits { AreFitting frame.old.layout.widths slots.from numbers.now }
    ensures { IsFilled frame.old frame.new slots.from slots.to numbers.now }
{
    frame.is_whole();
    for slot in slots.from..slots.to {
        frame.set(slot, number_at(numbers, slot - slots.from));
    }
}
