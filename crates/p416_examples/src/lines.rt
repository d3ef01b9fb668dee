// How the texts of tables are cut and put together.
use p4x_bits::OutOfMemory;
use std::str;

/// What stands before the first of these marks in a text, and what behind it.
pub fn cut(text: &[u8], mark: u8) -> (&[u8], &[u8]) {
    for (at, octet) in text.iter().enumerate() {
        if *octet == mark && at < text.len() {
            return (&text[..at], &text[at + 1..]);
        }
    }
    (text, b"")
}

/// The name of a group of rows.
pub fn name_of(octets: &[u8]) -> &str {
    str::from_utf8(octets).unwrap_or("?")
}

/// The number that these digits write; what else stands there counts for nothing.
pub fn number_of(word: &[u8]) -> u128 {
    let mut number = 0u128;
    for octet in word {
        if octet.is_ascii_digit() {
            let digit = u128::from(octet.saturating_sub(b'0'));
            number = number.saturating_mul(10).saturating_add(digit);
        }
    }
    number
}

/// Whether a word is `+`.
pub fn is_true(word: &[u8]) -> bool {
    word == b"+".as_slice()
}

fn put_run(text: &mut Vec<u8>, piece: &[u8], times: u128) -> Result<(), OutOfMemory> {
    for _ in 0..times {
        text.extend_from_slice(piece)?;
    }
    Ok(())
}

/// Puts runs behind a text: how often a piece stands there, a backquote, the piece, and a backquote.
fn put_runs(text: &mut Vec<u8>, runs: &[u8]) -> Result<(), OutOfMemory> {
    let mut left = runs;
    for _ in 0..runs.len() {
        let (times, behind) = cut(left, b'`');
        let (piece, more) = cut(behind, b'`');
        put_run(text, piece, number_of(times))?;
        left = more;
    }
    Ok(())
}

/// Puts a piece behind a text, with a line feed for each `%`.
fn put_lines(text: &mut Vec<u8>, piece: &[u8]) -> Result<(), OutOfMemory> {
    for octet in piece {
        text.push(if *octet == b'%' { b'\n' } else { *octet })?;
    }
    Ok(())
}

/// Puts a piece of a row behind a text; one with backquotes has runs.
pub fn put(text: &mut Vec<u8>, piece: &[u8]) -> Result<(), OutOfMemory> {
    if piece.contains(&b'`') {
        put_runs(text, piece)
    } else {
        put_lines(text, piece)
    }
}

/// Puts a text behind another, without its spaces and line feeds.
pub fn put_solid(out: &mut Vec<u8>, text: &[u8]) -> Result<(), OutOfMemory> {
    for octet in text {
        if *octet != b' ' && *octet != b'\n' {
            out.push(*octet)?;
        }
    }
    Ok(())
}
