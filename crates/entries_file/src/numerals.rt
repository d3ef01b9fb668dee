// Numbers.
ghost use Rattle.std.specs.Prelude.{◌≡◌, ◌<◌, ◌≤◌, ℕ, length, drop, nat_lt, IfOk, IfSome, IsTrue, Some};
ghost use Rattle.std.specs.Option.{option_map};
ghost use Rattle.text_lines.specs.Numbers.{are_digits, value_of};
ghost use Rattle.entries_file.specs.Numbers as numbers;
ghost use Rattle.entries_file.specs.internal.Kept as kept;

use crate::cuts::cut;
use p4x_bits::OutOfMemory;
use std::alloc::Global;
use text_lines::{Base, are_digits};

/// What is kept of a whole number.
#[derive(Clone, Copy, PartialEq, Eq)]
pub enum Number {
    /// A number of at most 128 bits.
    Small(u128),
    /// A number of more than 128 bits.
    Large,
}

/// The base of a word that is a number in digits.
fn base_of(word: &[u8]) -> Option<Base>
    ensures is { result ≡ numbers.base_of word.now }
    ensures within { IfSome result (λ base. numbers.prefix_size base ≤ length word.now) }
    ensures digits { IfSome result (λ base. IsTrue (are_digits base (drop (numbers.prefix_size base) word.now))) }
{
    if are_digits(Base::Decimal, word) {
        Some(Base::Decimal)
    } else if word.starts_with(b"0x") && are_digits(Base::Hexadecimal, word.split_at(2).1) {
        Some(Base::Hexadecimal)
    } else if word.starts_with(b"0b") && are_digits(Base::Binary, word.split_at(2).1) {
        Some(Base::Binary)
    } else {
        None
    }
}

/// The digits of a number of this base.
fn digits_of(base: Base, word: &[u8]) -> &[u8]
    requires { numbers.prefix_size base ≤ length word.now }
    ensures { result.now ≡ drop (numbers.prefix_size base) word.now }
{
    match base {
        Base::Decimal => word,
        Base::Binary | Base::Hexadecimal => word.split_at(2).1,
    }
}

/// What is kept of the number that digits stand for.
fn kept(base: Base, digits: &[u8]) -> Number
    requires { IsTrue (are_digits base digits.now) }
    ensures { result ≡ kept.kept (value_of base digits.now) }
{
    match text_lines::number_up_to(base, digits, u128::MAX) {
        Some(value) => Number::Small(value),
        None => Number::Large,
    }
}

/// A number of decimal digits.
pub fn read_decimal(word: &[u8]) -> Option<Number>
    ensures { result ≡ option_map kept.kept (numbers.decimal_of word.now) }
{
    if are_digits(Base::Decimal, word) {
        Some(kept(Base::Decimal, word))
    } else {
        None
    }
}

/// A number in digits.
fn numeral(word: &[u8]) -> Option<Number>
    ensures { result ≡ option_map kept.kept (numbers.numeral_of word.now) }
{
    let base = base_of(word)?;
    Some(kept(base, digits_of(base, word)))
}

fn has_part_size(base: Base, part: &[u8]) -> bool
    ensures { result ≡ numbers.has_part_size base part.now }
{
    match base {
        Base::Binary => false,
        Base::Decimal => true,
        Base::Hexadecimal => part.len() == 2,
    }
}

/// A part of a dotted quad or of six pairs.
fn part_of(base: Base, part: &[u8]) -> Option<u8>
    ensures is { result ≡ numbers.part_of base part.now }
    ensures small { IfSome result (λ part. part ≤ 255) }
{
    if !has_part_size(base, part) {
        return None;
    }
    let value = text_lines::number_up_to(base, part, 255)?;
    Some(value as u8)
}

/// The number that so many parts with a separator behind them make, and one more.
fn parts_value(base: Base, separator: &[u8], more: u32, word: &[u8]) -> Option<u64>
    requires some { 0 < length separator.now }
    requires more { more ≤ 5 }
    ensures { result ≡ numbers.parts_value base separator.now more 0 word.now }
{
    let mut value = 0;
    let mut rest = word;
    for _ in 0..more {
        let (part, behind) = cut(separator, rest)?;
        value = 256 * value + u64::from(part_of(base, part)?);
        rest = behind;
    }
    Some(256 * value + u64::from(part_of(base, rest)?))
}

/// Four decimal numbers up to 255 with dots between them.
fn quad(word: &[u8]) -> Option<Number>
    ensures { result ≡ option_map kept.kept (numbers.quad_of word.now) }
{
    let value = parts_value(Base::Decimal, b".", 3, word)?;
    Some(Number::Small(u128::from(value)))
}

/// Six pairs of hexadecimal digits with colons between them.
fn pairs(word: &[u8]) -> Option<Number>
    ensures { result ≡ option_map kept.kept (numbers.pairs_of word.now) }
{
    let value = parts_value(Base::Hexadecimal, b":", 5, word)?;
    Some(Number::Small(u128::from(value)))
}

/// The number that a word is: one in digits, a dotted quad or six pairs.
#[tactic(auto, unfolding(crate::specs::Numbers::number_of))]
pub fn read_number(word: &[u8]) -> Option<Number>
    ensures { result ≡ option_map kept.kept (numbers.number_of word.now) }
{
    match numeral(word) {
        Some(number) => Some(number),
        None => match quad(word) {
            Some(number) => Some(number),
            None => pairs(word),
        },
    }
}

/// The number that a word is, if it is at most `limit`.
pub fn number_up_to(limit: u128, word: &[u8]) -> Option<u128>
    ensures { result ≡ numbers.number_up_to limit word.now }
{
    match read_number(word) {
        Some(Number::Small(value)) if value <= limit => Some(value),
        _ => None,
    }
}

/// Whether a number fits a width.
fn fits(width: u128, value: u128) -> bool
    ensures { result ≡ numbers.fits width value }
{
    width >= 128 || value >> width == 0
}

/// The number where it fits a width.
pub fn fitted(width: u128, number: Number) -> Option<u128>
    ensures { (written : ℕ) → number ≡ kept.kept written → result ≡ kept.fitted width written }
{
    match number {
        Number::Small(value) if fits(width, value) => Some(value),
        _ => None,
    }
}

/// Whether the number in digits that the first word is, is over that of the second.
fn is_numeral_over(alloc: Global, low: &[u8], high: &[u8]) -> Result<bool, OutOfMemory>
    ensures { IfOk result (λ over. (a b : ℕ) → numbers.numeral_of low.now ≡ Some a → numbers.numeral_of high.now ≡ Some b
        → over ≡ nat_lt b a) }
{
    match (base_of(low), base_of(high)) {
        (Some(base), Some(other)) => {
            let low = digits_of(base, low);
            let high = digits_of(other, high);
            whole_numbers::is_over(alloc, base, low, other, high)
        }
        _ => Ok(false),
    }
}

/// Whether the number that the first word is, is over that of the second. `first` and `second` are what is
/// kept of them.
pub fn is_over(
    alloc: Global,
    low: &[u8],
    high: &[u8],
    first: Number,
    second: Number,
) -> Result<bool, OutOfMemory>
    ensures { IfOk result (λ over. (a b : ℕ) → numbers.number_of low.now ≡ Some a → numbers.number_of high.now ≡ Some b
        → first ≡ kept.kept a → second ≡ kept.kept b → over ≡ nat_lt b a) }
{
    match (first, second) {
        (Number::Small(a), Number::Small(b)) => Ok(a > b),
        (Number::Large, Number::Small(_)) => Ok(true),
        (Number::Small(_), Number::Large) => Ok(false),
        (Number::Large, Number::Large) => is_numeral_over(alloc, low, high),
    }
}
