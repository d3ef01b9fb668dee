// Numbers of so many bits (P4_16 1.2, "Bit slicing").
ghost use Rattle.std.specs.Prelude.{◌≡◌, ◌%◌, ◌^◌, ◌<◌, ◌≤◌};
ghost use Rattle.v1_core.specs.Values.{spliced};
ghost use Rattle.v1_ready_blocks.specs.Places.{seen_slice};
ghost use Rattle.v1_ready_blocks.specs.Nodes.{IsSlice};

use v1_ready_blocks::Slice;

/// A number modulo 2 to the width.
#[tactic(auto, using(crate::proofs::Cutting::whole, crate::proofs::Cutting::all_fit, crate::proofs::Cutting::masked))]
pub fn low(number: u128, width: u8) -> u128
    ensures is { result ≡ number % 2 ^ width }
    ensures fits { result < 2 ^ width }
{
    if width >= 128 {
        number
    } else {
        number & ((1 << width) - 1)
    }
}

/// A number with other bits in a slice of it, modulo 2 to the width.
pub fn splice(width: u8, slice: Slice, old: u128, number: u128) -> u128
    requires width { width ≤ 128 }
    requires slice { IsSlice slice }
    ensures is { result ≡ spliced (seen_slice slice) old number % 2 ^ width }
    ensures fits { result < 2 ^ width }
{
    let above = old - low(old, slice.low + slice.width);
    let within = low(number, slice.width) << slice.low;
    let below = low(old, slice.low);
    low(above.wrapping_add(within).wrapping_add(below), width)
}
