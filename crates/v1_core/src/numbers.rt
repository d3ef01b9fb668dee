// Operators on numbers of so many bits (P4_16 1.2, "Operations on fixed-width bit types (unsigned integers)").
ghost use Rattle.std.specs.Prelude.{◌≡◌, ◌+◌, ◌-◌, ◌*◌, ◌/◌, ◌%◌, ◌^◌, ◌<◌, ◌≤◌, min};
ghost use Rattle.v1_core.specs.Numbers as meaning;

/// A number modulo 2 to the width.
#[tactic(auto, using(crate::proofs::Cutting::whole, crate::proofs::Cutting::all_fit, crate::proofs::Cutting::masked))]
pub fn low(number: u128, width: u8) -> u128
    ensures is { result ≡ number % 2 ^ width }
    ensures fits { result < 2 ^ width }
{
    if width >= 128 {
        number
    } else {
        number & ((1 << width) - 1)
    }
}

/// The greatest number of the width.
#[tactic(auto, using(crate::proofs::Cutting::small_power))]
pub fn greatest(width: u8) -> u128
    requires { width ≤ 128 }
    ensures { result ≡ 2 ^ width - 1 }
{
    if width >= 128 {
        u128::MAX
    } else {
        (1 << width) - 1
    }
}

/// The product of two numbers.
#[tactic(auto, using(crate::proofs::Cutting::cut_again))]
pub fn product(width: u8, a: u128, b: u128) -> u128
    requires { width ≤ 128 }
    ensures is { result ≡ meaning.product width a b }
    ensures fits { result < 2 ^ width }
{
    low(a.wrapping_mul(b), width)
}

/// The sum of two numbers.
#[tactic(auto, using(crate::proofs::Cutting::cut_again))]
pub fn sum_of(width: u8, a: u128, b: u128) -> u128
    requires { width ≤ 128 }
    ensures is { result ≡ meaning.sum_of width a b }
    ensures fits { result < 2 ^ width }
{
    low(a.wrapping_add(b), width)
}

/// The difference of two numbers.
#[tactic(auto, using(crate::proofs::Cutting::difference_is))]
pub fn difference(width: u8, a: u128, b: u128) -> u128
    requires width { width ≤ 128 }
    requires second { b < 2 ^ width }
    ensures is { result ≡ meaning.difference width a b }
    ensures fits { result < 2 ^ width }
{
    low(a.wrapping_sub(b), width)
}

/// The sum of two numbers, or the greatest number of the width in place of a greater sum.
#[tactic(auto, using(crate::proofs::Cutting::saturated, crate::proofs::Cutting::past_all))]
pub fn saturating_sum(width: u8, a: u128, b: u128) -> u128
    requires { width ≤ 128 }
    ensures { result ≡ meaning.saturating_sum width a b }
{
    match a.checked_add(b) {
        Some(sum) => sum.min(greatest(width)),
        None => greatest(width),
    }
}

/// The difference of two numbers, or 0 in place of a negative one.
pub fn saturating_difference(a: u128, b: u128) -> u128
    ensures { result ≡ meaning.saturating_difference a b }
{
    a.saturating_sub(b)
}

/// A number behind another one, whose bits are these.
#[tactic(auto, using(crate::proofs::Cutting::joined_is, crate::proofs::Cutting::joined_whole, crate::proofs::Cutting::put_behind, crate::proofs::Cutting::sum_in_range))]
pub fn joined(width: u8, a: u128, behind: u8, b: u128) -> u128
    requires widths { width + behind ≤ 128 }
    requires first { a < 2 ^ width }
    requires second { b < 2 ^ behind }
    ensures is { result ≡ a * 2 ^ behind + b }
    ensures fits { result < 2 ^ (width + behind) }
{
    if behind >= 128 { b } else { (a << behind) + b }
}

/// A number shifted to the left; 0 by the width or more.
#[tactic(auto, using(crate::proofs::Cutting::cut_again))]
pub fn shifted_left(width: u8, a: u128, count: u128) -> u128
    requires { width ≤ 128 }
    ensures is { result ≡ meaning.shifted_left width a count }
    ensures fits { result < 2 ^ width }
{
    if count >= u128::from(width) {
        0
    } else {
        low(a << (count as u32), width)
    }
}

/// A number shifted to the right; 0 by the width or more.
pub fn shifted_right(width: u8, a: u128, count: u128) -> u128
    requires width { width ≤ 128 }
    requires number { a < 2 ^ width }
    ensures is { result ≡ meaning.shifted_right width a count }
    ensures fits { result < 2 ^ width }
{
    if count >= u128::from(width) {
        0
    } else {
        a >> (count as u32)
    }
}

/// A number with all bits turned.
pub fn complemented(width: u8, a: u128) -> u128
    requires width { width ≤ 128 }
    requires number { a < 2 ^ width }
    ensures is { result ≡ meaning.complemented width a }
    ensures fits { result < 2 ^ width }
{
    greatest(width) - a
}

/// The number that makes 0 with this one.
#[tactic(auto, using(crate::proofs::Cutting::negated_is))]
pub fn negated(width: u8, a: u128) -> u128
    requires width { width ≤ 128 }
    requires number { a < 2 ^ width }
    ensures is { result ≡ meaning.negated width a }
    ensures fits { result < 2 ^ width }
{
    difference(width, 0, a)
}

/// So many bits of a number, from a place on.
pub fn cut(number: u128, place: u8, width: u8) -> u128
    requires { place < 128 }
    ensures is { result ≡ number / 2 ^ place % 2 ^ width }
    ensures fits { result < 2 ^ width }
{
    low(number >> place, width)
}
