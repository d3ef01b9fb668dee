// Numbers.
ghost use Rattle.std.specs.Prelude.{◌≡◌, ◌≤◌, ℕ, IfSome};
ghost use Rattle.std.specs.List.{list_all};
ghost use Rattle.text_lines.specs.Numbers as numbers;
ghost use Rattle.text_lines.specs.internal.Numbers.{FitsIn128};

/// The base that a number is written in.
#[derive(Clone, Copy, PartialEq, Eq)]
pub enum Base {
    Binary,
    Decimal,
    Hexadecimal,
}

/// How many digits a base has.
pub fn radix(base: Base) -> u64
    ensures { result ≡ numbers.radix base }
{
    match base {
        Base::Binary => 2,
        Base::Decimal => 10,
        Base::Hexadecimal => 16,
    }
}

fn is_digit(base: Base, octet: u8) -> bool
    ensures { result ≡ numbers.is_digit base octet }
{
    match base {
        Base::Binary => matches!(octet, b'0'..=b'1'),
        Base::Decimal => matches!(octet, b'0'..=b'9'),
        Base::Hexadecimal => matches!(octet, b'0'..=b'9')
            || matches!(octet, b'A'..=b'F' | b'a'..=b'f'),
    }
}

/// What a digit stands for, in any base that has it.
pub fn digit_value(digit: u8) -> u8
    ensures { result ≡ numbers.digit_value digit }
{
    if digit >= b'a' {
        digit - b'a' + 10
    } else if digit >= b'A' {
        digit - b'A' + 10
    } else {
        digit.saturating_sub(b'0')
    }
}

fn only_digits(base: Base, word: &[u8]) -> bool
    ensures { result ≡ list_all (numbers.is_digit base) word.now }
{
    word.iter().all(|octet| is_digit(base, *octet))
}

/// Whether a word is digits of a base: one at least, and nothing else.
pub fn are_digits(base: Base, word: &[u8]) -> bool
    ensures { result ≡ numbers.are_digits base word.now }
{
    !word.is_empty() && only_digits(base, word)
}

/// The value of digits and one more behind them, or none over 128 bits.
fn with_digit(base: Base, value: Option<u128>, digit: u8) -> Option<u128>
    ensures { (number : ℕ) → FitsIn128 number value → FitsIn128 (numbers.with_digit base number digit) result }
{
    value?
        .checked_mul(u128::from(radix(base)))?
        .checked_add(u128::from(digit_value(digit)))
}

/// What digits stand for, the highest first, or none over 128 bits.
fn value_of(base: Base, digits: &[u8]) -> Option<u128>
    ensures { FitsIn128 (numbers.value_of base digits.now) result }
{
    let mut value = Some(0);
    for digit in digits {
        value = with_digit(base, value, *digit);
    }
    value
}

/// The number where it is at most `bound`.
fn at_most(bound: u128, value: Option<u128>) -> Option<u128>
    ensures is { (number : ℕ) → FitsIn128 number value → result ≡ numbers.up_to bound number }
    ensures within { IfSome result (λ number. number ≤ bound) }
{
    match value {
        Some(value) if value <= bound => Some(value),
        _ => None,
    }
}

/// The number that a word of digits is, where it is at most `bound`. Zeros may stand in front. It is None
/// where the word isn't digits of the base, and where the number is over the bound.
///
/// No memory is taken, and the time is linear in the length of the word.
pub fn number_up_to(base: Base, word: &[u8], bound: u128) -> Option<u128>
    ensures is { result ≡ numbers.number_up_to base bound word.now }
    ensures within { IfSome result (λ number. number ≤ bound) }
{
    if !are_digits(base, word) {
        return None;
    }
    at_most(bound, value_of(base, word))
}

/// The decimal number that a word is, where it is at most `bound`, as of [`number_up_to`].
pub fn decimal_up_to(word: &[u8], bound: u128) -> Option<u128>
    ensures is { result ≡ numbers.decimal_up_to bound word.now }
    ensures within { IfSome result (λ number. number ≤ bound) }
{
    number_up_to(Base::Decimal, word, bound)
}
