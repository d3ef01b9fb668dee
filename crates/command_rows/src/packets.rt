// Captures, by their packets.
use crate::fault::Fault;
use crate::octets::{add_hex, add_octets, repeated, show_hex};

/// The file header of a capture in microseconds, of link type 1.
const READ: [u8; 24] = [
    0xd4, 0xc3, 0xb2, 0xa1, 2, 0, 4, 0, 0, 0, 0, 0, 0, 0, 0, 0, 0xff, 0xff, 0, 0, 1, 0, 0, 0,
];

/// The file header of what is sent of such a capture.
const SENT: [u8; 24] = [
    0xd4, 0xc3, 0xb2, 0xa1, 2, 0, 4, 0, 0, 0, 0, 0, 0, 0, 0, 0, 0, 0, 4, 0, 1, 0, 0, 0,
];

/// The header of a record with so many octets, at time 0.
fn record(size: usize) -> [u8; 16] {
    let [a, b, c, d, ..] = (size as u64).to_le_bytes();
    [0, 0, 0, 0, 0, 0, 0, 0, a, b, c, d, a, b, c, d]
}

fn add_packet(file: &mut Vec<u8>, digits: &str) -> Result<(), Fault> {
    file.extend_from_slice(&record(digits.len() / 2))?;
    add_hex(file, digits)
}

fn add_packets(file: &mut Vec<u8>, word: &str) -> Result<(), Fault> {
    let (digits, count) = repeated(word)?;
    for _ in 0..count {
        add_packet(file, digits)?;
    }
    Ok(())
}

/// Puts a capture behind a file: a packet for each word, and octets as they are for a word that begins with `+`.
pub fn add_capture(file: &mut Vec<u8>, words: &[&str]) -> Result<(), Fault> {
    file.extend_from_slice(&READ)?;
    for word in words {
        match word.strip_prefix('+') {
            Some(octets) => add_octets(file, octets)?,
            None => add_packets(file, word)?,
        }
    }
    Ok(())
}

/// So many octets of a file, or all where it has fewer, and those behind them.
fn cut(file: &[u8], count: usize) -> (&[u8], &[u8]) {
    file.split_at(count.min(file.len()))
}

/// A line of octets in hexadecimal digits, in two groups.
fn show_octets(out: &mut String, head: &[u8], rest: &[u8]) -> Result<(), Fault> {
    out.push_str("octets")?;
    for group in [head, rest] {
        if !group.is_empty() {
            out.push(' ')?;
            show_hex(out, group)?;
        }
    }
    out.push('\n')?;
    Ok(())
}

/// The captured length that the header of a record tells.
fn length_in(head: &[u8]) -> usize {
    match head {
        [_, _, _, _, _, _, _, _, a, b, c, d, ..] => u32::from_le_bytes([*a, *b, *c, *d]) as usize,
        _ => 0,
    }
}

/// A line of a record, and what stands behind it.
fn show_record<'a>(out: &mut String, file: &'a [u8]) -> Result<&'a [u8], Fault> {
    let (head, behind) = cut(file, 16);
    let (packet, left) = cut(behind, length_in(head));
    if head == record(packet.len()).as_slice() {
        out.push_str(if packet.is_empty() {
            "packet ''"
        } else {
            "packet "
        })?;
        show_hex(out, packet)?;
        out.push('\n')?;
    } else {
        show_octets(out, head, packet)?;
    }
    Ok(left)
}

/// Shows a capture that was sent, a line for each record.
pub fn show_capture(out: &mut String, file: &[u8]) -> Result<(), Fault> {
    let (head, mut left) = cut(file, 24);
    if head != SENT.as_slice() {
        show_octets(out, head, b"")?;
    }
    for _ in 0..file.len() {
        if left.is_empty() {
            break;
        }
        left = show_record(out, left)?;
    }
    Ok(())
}
