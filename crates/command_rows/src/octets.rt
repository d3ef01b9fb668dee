// Octets in hexadecimal digits.
use crate::fault::Fault;
use crate::lines::number_of;

fn value_of(digit: u8) -> Result<u8, Fault> {
    match digit {
        b'0'..=b'9' => Ok(digit.saturating_sub(b'0')),
        b'a'..=b'f' => Ok(digit.saturating_sub(b'a').saturating_add(10)),
        _ => Err(Fault::new("this is no hexadecimal digit")),
    }
}

/// Puts the octets that digits write behind a file.
pub fn add_hex(file: &mut Vec<u8>, digits: &str) -> Result<(), Fault> {
    for pair in digits.as_bytes().chunks(2) {
        match pair {
            [high, low] => {
                let high = value_of(*high)?.saturating_mul(16);
                file.push(high.saturating_add(value_of(*low)?))?;
            }
            _ => return Err(Fault::new("the number of digits is odd")),
        }
    }
    Ok(())
}

/// The digits of a word, and how often they stand: `HEX*N` has them N times.
pub fn repeated(word: &str) -> Result<(&str, usize), Fault> {
    match word.split_once('*') {
        Some((digits, count)) => Ok((digits, number_of(count)?)),
        None => Ok((word, 1)),
    }
}

/// Puts the octets of a word behind a file.
pub fn add_octets(file: &mut Vec<u8>, word: &str) -> Result<(), Fault> {
    let (digits, count) = repeated(word)?;
    for _ in 0..count {
        add_hex(file, digits)?;
    }
    Ok(())
}

fn digit_of(value: u8) -> char {
    let letter = match value {
        0..=9 => b'0'.saturating_add(value),
        _ => b'a'.saturating_add(value.saturating_sub(10)),
    };
    char::from(letter)
}

/// Puts the digits of octets behind a text.
pub fn show_hex(out: &mut String, octets: &[u8]) -> Result<(), Fault> {
    for octet in octets {
        out.push(digit_of(octet / 16))?;
        out.push(digit_of(octet % 16))?;
    }
    Ok(())
}
