// Operators on numbers.
ghost use Rattle.std.specs.Prelude.{◌≡◌, ◌+◌, ◌-◌, ◌*◌, ◌%◌, ◌^◌, ◌≤◌, pos};
ghost use Rattle.p414_sem.specs.Conditions.{binary_number, compares, shifted_left, shifted_right, unary_number};

use p414_syntax::{BinaryOperator, UnaryOperator};
use p414_wholes::{greatest, low};

/// 2 ^ width - a, modulo 2 ^ width; 0 where a is 2 ^ width or more.
#[tactic(auto, using(crate::proofs::Modulo::negated_low))]
fn negated(width: u8, a: u128) -> u128
    requires { width ≤ 128 }
    ensures { result ≡ (2 ^ width - a) % 2 ^ width }
{
    if width < 128 {
        (1u128 << width).saturating_sub(a) % (1u128 << width)
    } else {
        0u128.wrapping_sub(a)
    }
}

/// a + b, modulo 2 ^ width.
#[tactic(auto, using(crate::proofs::Modulo::low_again))]
fn sum(width: u8, a: u128, b: u128) -> u128
    requires { width ≤ 128 }
    ensures { result ≡ (a + b) % 2 ^ width }
{
    low(width, a.wrapping_add(b))
}

/// a * b, modulo 2 ^ width.
#[tactic(auto, using(crate::proofs::Modulo::low_again))]
fn product(width: u8, a: u128, b: u128) -> u128
    requires { width ≤ 128 }
    ensures { result ≡ a * b % 2 ^ width }
{
    low(width, a.wrapping_mul(b))
}

/// a - b, modulo 2 ^ width; 0 where b is greater than a by 2 ^ width or more.
#[tactic(auto, using(crate::proofs::Modulo::less_within, crate::proofs::Modulo::less_past))]
fn difference(width: u8, a: u128, b: u128) -> u128
    requires { width ≤ 128 }
    ensures { result ≡ (a + 2 ^ width - b) % 2 ^ width }
{
    if b <= a {
        low(width, a - b)
    } else {
        negated(width, b - a)
    }
}

/// a moved up by so many bits, modulo 2 ^ width; 0 where these are width or more.
fn shifted_left(width: u8, a: u128, count: u128) -> u128
    requires { width ≤ 128 }
    ensures { result ≡ shifted_left width a count }
{
    if u128::from(width) <= count {
        0
    } else {
        p414_wholes::shifted_left(false, width, a, count)
    }
}

/// a moved down by so many bits; 0 where these are width or more.
fn shifted_right(width: u8, a: u128, count: u128) -> u128
    ensures { result ≡ shifted_right width a count }
{
    if u128::from(width) <= count {
        0
    } else {
        p414_wholes::shifted_right(a, count)
    }
}

/// What an operator makes of a number of so many bits.
pub fn unary_number(width: u8, operator: UnaryOperator, a: u128) -> u128
    requires { width ≤ 128 }
    ensures { result ≡ unary_number width operator a }
{
    match operator {
        UnaryOperator::Negate => negated(width, a),
        UnaryOperator::Complement => greatest(width).saturating_sub(a),
        UnaryOperator::Not => 0,
    }
}

/// What an operator makes of two numbers of so many bits.
pub fn binary_number(width: u8, operator: BinaryOperator, a: u128, b: u128) -> u128
    requires { width ≤ 128 }
    ensures { result ≡ binary_number width operator a b }
{
    match operator {
        BinaryOperator::Multiply => product(width, a, b),
        BinaryOperator::Add => sum(width, a, b),
        BinaryOperator::Subtract => difference(width, a, b),
        BinaryOperator::ShiftLeft => shifted_left(width, a, b),
        BinaryOperator::ShiftRight => shifted_right(width, a, b),
        BinaryOperator::BitAnd => a & b,
        BinaryOperator::BitXor => a ^ b,
        BinaryOperator::BitOr => a | b,
        _ => 0,
    }
}

/// Whether a comparison of two numbers holds.
pub fn compares(operator: BinaryOperator, a: u128, b: u128) -> bool
    ensures { result ≡ compares operator a b }
{
    match operator {
        BinaryOperator::Less => a < b,
        BinaryOperator::LessEqual => a <= b,
        BinaryOperator::Greater => a > b,
        BinaryOperator::GreaterEqual => a >= b,
        BinaryOperator::Equal => a == b,
        BinaryOperator::NotEqual => a != b,
        _ => false,
    }
}
