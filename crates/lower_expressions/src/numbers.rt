// Numbers that are written.
ghost use Rattle.std.specs.Prelude.{◌≡◌, suc, ◌-◌, ◌%◌, ◌^◌, ◌<◌, ◌≤◌};
ghost use Rattle.lower_laws_actions.specs.Mirror.{needed};

use p414_wholes::{greatest, low};

/// 2 ^ width.
pub fn power(width: u8) -> u128
    requires { width < 128 }
    ensures { result ≡ 2 ^ width }
{
    1u128 << width
}

/// How many bits a number needs, 1 at least.
#[tactic(auto, using(crate::proofs::Needing::needed_first, crate::proofs::Needing::needed_more, crate::proofs::Needing::needed_here, crate::proofs::Needing::needed_last))]
pub fn needed(value: u128) -> u8
    ensures is { result ≡ needed value }
    ensures fits { result ≤ 128 }
{
    for width in 1..128u8 {
        if value < power(width) {
            return width;
        }
    }
    128
}

/// How many bits the number behind this one needs, 128 at most.
#[tactic(auto, using(crate::proofs::Needing::needed_top))]
pub fn needed_next(value: u128) -> u8
    ensures is { result ≡ needed (suc value) }
    ensures fits { result ≤ 128 }
{
    if value == u128::MAX {
        128
    } else {
        needed(value + 1)
    }
}

/// The number behind this one, modulo 2 ^ width.
#[tactic(auto, using(crate::proofs::Needing::top_low))]
pub fn low_next(width: u8, value: u128) -> u128
    requires { width ≤ 128 }
    ensures { result ≡ suc value % 2 ^ width }
{
    if value == u128::MAX {
        0
    } else {
        low(width, value + 1)
    }
}

/// How many numbers of so many bits are greater than all of fewer bits.
#[tactic(auto, using(crate::proofs::Needing::powers_apart))]
pub fn room_over(width: u8, wide: u8) -> u128
    requires less { width ≤ wide }
    requires fits { wide ≤ 128 }
    ensures { result ≡ 2 ^ wide - 2 ^ width }
{
    greatest(wide) - greatest(width)
}
