// Numbers as fields keep them.
ghost use Rattle.std.specs.Prelude.{◌≡◌, ◌-◌, ◌%◌, ◌^◌, ◌<◌, ◌≤◌, nat_lt, pos, neg_ℤ, IfOk, OnErr};
ghost use Rattle.p414_sem.specs.Wholes.{whole, wrapped};

use p4x_bits::OutOfMemory;
use p414_slots::low;
use p414_syntax::{Number, Sign};

/// The greatest number of so many bits.
fn greatest(width: u8) -> u128
    requires { width ≤ 128 }
    ensures { result ≡ 2 ^ width - 1 }
{
    if width < 128 {
        (1u128 << width) - 1
    } else {
        u128::MAX
    }
}

/// A number with a minus sign in front, modulo 2 ^ width.
#[tactic(auto, using(crate::proofs::Powers::minus_fits, crate::proofs::Powers::minus_none, crate::proofs::Powers::minus_some))]
fn low_minus(width: u8, value: u128) -> u128
    requires { width ≤ 128 }
    ensures { result ≡ wrapped width (neg_ℤ (pos value)) }
{
    if value == 0 {
        low(width, 0)
    } else {
        greatest(width) - low(width, value - 1)
    }
}

/// A written number, with its sign, modulo 2 ^ width.
fn low_whole(width: u8, number: Number) -> u128
    requires { width ≤ 128 }
    ensures { result ≡ wrapped width (whole number) }
{
    match number.sign {
        Some(Sign::Minus) => low_minus(width, number.literal.value),
        Some(Sign::Plus) => low(width, number.literal.value),
        None => low(width, number.literal.value),
    }
}

/// A written number, with its sign, modulo 2 ^ width. A width over 128, which no program has that breaks no rule, counts as
/// want of memory, and that is the one error.
pub fn wrapped(width: u8, number: Number) -> Result<u128, OutOfMemory>
    ensures ok { IfOk result (λ value. value ≡ wrapped width (whole number)) }
    ensures err { OnErr result (128 < width) }
{
    if width > 128 {
        return Err(OutOfMemory);
    }
    Ok(low_whole(width, number))
}

/// Whether a number has no more bits than so many.
#[tactic(auto, using(crate::proofs::Powers::fits_all))]
pub fn fits(width: u32, value: u128) -> bool
    ensures { result ≡ nat_lt value (2 ^ width) }
{
    if width < 128 {
        value < (1u128 << width)
    } else {
        true
    }
}
