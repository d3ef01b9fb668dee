// How the texts of tables are cut.
use std::str;

/// What stands before the first of these marks in a text, and what behind it.
pub fn cut(text: &[u8], mark: u8) -> (&[u8], &[u8]) {
    for (at, octet) in text.iter().enumerate() {
        if *octet == mark && at < text.len() {
            return (&text[..at], &text[at + 1..]);
        }
    }
    (text, b"")
}

/// The name of a group of rows.
pub fn name_of(octets: &[u8]) -> &str {
    str::from_utf8(octets).unwrap_or("?")
}

/// The number that these digits write, 2^128 - 1 at most; what else stands there counts for nothing.
pub fn number_of(word: &[u8]) -> u128 {
    let mut number = 0u128;
    for octet in word {
        if octet.is_ascii_digit() {
            let digit = u128::from(octet.saturating_sub(b'0'));
            number = number.saturating_mul(10).saturating_add(digit);
        }
    }
    number
}

/// Whether these digits, one each, write these numbers.
pub fn are_digits(numbers: &[u32], digits: &[u8]) -> bool {
    for (place, number) in numbers.iter().enumerate() {
        if place >= digits.len() || u32::from(digits[place].saturating_sub(b'0')) != *number {
            return false;
        }
    }
    numbers.len() == digits.len()
}
