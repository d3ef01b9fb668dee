// Numbers at the front of a text.
ghost use Rattle.std.specs.Prelude.{◌≡◌, ℕ, ◌<◌, ◌≤◌, ◌+◌, ◌*◌, slice_index, length, drop, take, IsTrue};
ghost use Rattle.std.specs.List.{prefix_len};
ghost use Rattle.token_division.specs.Octets.{is_decimal};
ghost use Rattle.token_division.specs.Literals as literals;
ghost use Rattle.token_division.specs.Literals.{FitsIn128, IsLiteral, literal_value, literal_size, value_of};

use crate::octets::{is_decimal, octet_at};

/// The base that a number is written in.
#[derive(Clone, Copy, PartialEq, Eq)]
pub enum Base {
    Binary,
    Decimal,
    Hexadecimal,
}

/// A number as it is written: its value, or none where that is over 2^128 - 1, and its length in octets.
#[derive(Clone, Copy, PartialEq, Eq)]
pub struct Literal {
    pub value: Option<u128>,
    pub size: usize,
}

/// The number that the text begins with: decimal digits, `0x` or `0X` and hexadecimal digits, or `0b` or
/// `0B` and binary digits, where `_` may stand after the first digit.
pub fn number(text: &[u8]) -> Literal
    requires { IsTrue (is_decimal (slice_index text.now 0)) }
    ensures value { FitsIn128 (literal_value text.now) result.value }
    ensures size { result.size ≡ literal_size text.now }
    ensures some { 0 < result.size }
    ensures within { result.size ≤ length text.now }
    ensures written { IsLiteral (take result.size text.now) (literal_value text.now) }
{
    let base = base_of(text);
    let (prefix, rest) = text.split_at(base_prefix_size(base));
    let (digits, _) = rest.split_at(digits_size(base, rest));
    Literal {
        value: value_of(base, digits),
        size: prefix.len() + digits.len(),
    }
}

/// The value of decimal digits, or none where it is over 2^128 - 1.
pub fn decimal_value(digits: &[u8]) -> Option<u128>
    ensures { FitsIn128 (value_of Base.Decimal digits.now) result }
{
    value_of(Base::Decimal, digits)
}

/// The base of the number that the text begins with.
fn base_of(text: &[u8]) -> Base
    ensures is { result ≡ literals.base_of text.now }
    ensures within { literals.base_prefix_size result ≤ length text.now }
{
    if has_base_prefix(b'X', b'x', Base::Hexadecimal, text) {
        Base::Hexadecimal
    } else if has_base_prefix(b'B', b'b', Base::Binary, text) {
        Base::Binary
    } else {
        Base::Decimal
    }
}

/// Whether the text begins with `0`, this letter, in capitals or not, and a digit of the base.
fn has_base_prefix(capital: u8, small: u8, base: Base, text: &[u8]) -> bool
    ensures { result ≡ literals.has_base_prefix capital small base text.now }
{
    octet_at(text, 0) == b'0'
        && ((octet_at(text, 1) == capital || octet_at(text, 1) == small)
            && is_digit(base, octet_at(text, 2)))
}

/// How many octets stand before the digits.
fn base_prefix_size(base: Base) -> usize
    ensures { result ≡ literals.base_prefix_size base }
{
    match base {
        Base::Decimal => 0,
        Base::Binary | Base::Hexadecimal => 2,
    }
}

fn is_digit(base: Base, octet: u8) -> bool
    ensures { result ≡ literals.is_digit base octet }
{
    match base {
        Base::Binary => matches!(octet, b'0'..=b'1'),
        Base::Decimal => is_decimal(octet),
        Base::Hexadecimal => is_decimal(octet) || matches!(octet, b'A'..=b'F' | b'a'..=b'f'),
    }
}

/// How many octets at the front of the text are digits of the base or the `_` among them.
fn digits_size(base: Base, text: &[u8]) -> usize
    ensures is { result ≡ prefix_len (literals.is_digit_or_gap base) text.now }
    ensures within { result ≤ length text.now }
{
    text.iter()
        .take_while(|octet| **octet == b'_' || is_digit(base, **octet))
        .count()
}

/// What the digits stand for, the highest first, or none where that is over 2^128 - 1.
fn value_of(base: Base, digits: &[u8]) -> Option<u128>
    ensures { FitsIn128 (literals.value_of base digits.now) result }
{
    let mut value = Some(0);
    for octet in digits {
        value = with_octet(base, value, *octet);
    }
    value
}

/// The value of digits and one octet more behind them.
fn with_octet(base: Base, value: Option<u128>, octet: u8) -> Option<u128>
    ensures { (number : ℕ) → FitsIn128 number value → FitsIn128 (literals.with_digit base number octet) result }
{
    if octet == b'_' {
        return value;
    }
    value?
        .checked_mul(radix(base))?
        .checked_add(u128::from(digit_value(octet)))
}

fn radix(base: Base) -> u128
    ensures { result ≡ literals.radix base }
{
    match base {
        Base::Binary => 2,
        Base::Decimal => 10,
        Base::Hexadecimal => 16,
    }
}

/// What a digit stands for.
fn digit_value(digit: u8) -> u8
    ensures { result ≡ literals.digit_value digit }
{
    if digit >= b'a' {
        digit - b'a' + 10
    } else if digit >= b'A' {
        digit - b'A' + 10
    } else {
        digit.saturating_sub(b'0')
    }
}
