// Cells of texts, and the numbers and octets that they write.
use p4x_bits::OutOfMemory;
use std::alloc::Global;

/// What stands before the first of these marks in a text, and what behind it.
pub fn cut(text: &[u8], mark: u8) -> (&[u8], &[u8]) {
    for (at, octet) in text.iter().enumerate() {
        if *octet == mark && at < text.len() {
            return (&text[..at], &text[at + 1..]);
        }
    }
    (text, b"")
}

/// The number that these decimal digits write.
pub fn number_of(digits: &[u8]) -> u64 {
    let mut number = 0u64;
    for digit in digits {
        number = number
            .saturating_mul(10)
            .saturating_add(u64::from(digit.saturating_sub(b'0')));
    }
    number
}

/// The same, as the number of a place.
pub fn place_of(digits: &[u8]) -> usize {
    usize::from((number_of(digits) % 65_536) as u16)
}

fn value_of(digit: u8) -> u8 {
    match digit {
        b'0'..=b'9' => digit.saturating_sub(b'0'),
        b'a'..=b'f' => digit.saturating_sub(b'a').saturating_add(10),
        _ => 0,
    }
}

/// The number that these hexadecimal digits write, modulo 2 ^ 128.
pub fn hexadecimal(digits: &[u8]) -> u128 {
    let mut number = 0u128;
    for digit in digits {
        number = number
            .wrapping_mul(16)
            .wrapping_add(u128::from(value_of(*digit)));
    }
    number
}

/// The octets that pairs of hexadecimal digits write.
pub fn octets_of(alloc: Global, digits: &[u8]) -> Result<Vec<u8>, OutOfMemory> {
    let mut octets = Vec::new(alloc);
    let mut high = None;
    for digit in digits {
        match high {
            None => high = Some(value_of(*digit)),
            Some(value) => {
                octets.push(value_of(*digit).wrapping_add(value.wrapping_mul(16)))?;
                high = None;
            }
        }
    }
    Ok(octets)
}
