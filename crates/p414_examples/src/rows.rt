// The rows of the tables. A row that fails is told by the name of its group and its place there, from 0.
//
// A table is a text: a prover takes a text of many lines as one thing. A line that begins with `#` tells what the rows behind it have in
// common: their name, a letter for what is asked, and a text in front of that of each row. A row is what is expected, a blank, and a text,
// in which `?` is a line feed; `=` and a digit is a sample program.
use crate::lines::{cut, name_of};
use crate::programs::sample;
use crate::read::{is_program, is_read};
use crate::signatures::has_signature16;
use crate::tokenized::{ends_so, has_tokens};
use p4x_bits::OutOfMemory;
use std::alloc::Global;
use std::process::Abort;

/// What rows have in common.
#[derive(Clone, Copy, Drop)]
struct Group<'a> {
    name: &'a [u8],
    asked: u8,
    shared: &'a [u8],
}

fn group_of(line: &[u8]) -> Group<'_> {
    let (name, rest) = cut(line, b'|');
    let (letter, shared) = cut(rest, b'|');
    let asked = match letter {
        [asked] => *asked,
        _ => b'?',
    };
    Group {
        name,
        asked,
        shared,
    }
}

/// Whether what is expected is told of a text: of its tokens (`T`, `W`, `M`, `N`), of the signature of a program of P4_14 (`P`)
/// or P4_16 (`Q`), or of what is read of it.
fn is_told(alloc: Global, asked: u8, text: &[u8], wanted: &[u8]) -> bool {
    match asked {
        b'T' => ends_so(alloc, text, wanted),
        b'W' | b'M' | b'N' => has_tokens(alloc, asked, text, wanted),
        b'P' => is_program(alloc, text, wanted),
        b'Q' => has_signature16(alloc, text, wanted),
        _ => is_read(alloc, asked, text, wanted),
    }
}

/// Puts a piece behind a text, with a line feed for each `?`.
fn put_plain(text: &mut Vec<u8>, piece: &[u8]) -> Result<(), OutOfMemory> {
    for octet in piece {
        text.push(if *octet == b'?' { b'\n' } else { *octet })?;
    }
    Ok(())
}

/// Puts the text of a row behind a text.
fn put_row(text: &mut Vec<u8>, shared: &[u8], row: &[u8]) -> Result<(), OutOfMemory> {
    match row {
        [b'=', mark] => put_plain(text, sample(*mark)),
        _ => {
            put_plain(text, shared)?;
            put_plain(text, row)
        }
    }
}

/// Whether what a row expects is told of its text.
fn holds<'a>(alloc: Global, group: &Group<'a>, row: &'a [u8]) -> bool {
    let (wanted, behind) = cut(row, b' ');
    let mut text = Vec::new(alloc);
    match put_row(&mut text, group.shared, behind) {
        Ok(()) => is_told(alloc, group.asked, &text, wanted),
        Err(_) => false,
    }
}

fn check_row<'a>(rt: &(impl Abort + AllocGlobal), group: &Group<'a>, place: usize, row: &'a [u8]) {
    let holds = holds(rt.alloc(), group, row);
    assert!(rt; holds, "{}, row {place}", name_of(group.name));
}

/// Each row of a table holds.
pub fn check_table(rt: &(impl Abort + AllocGlobal), table: &[u8]) {
    let mut group = group_of(table);
    let mut place = 0usize;
    let mut left = table;
    for _ in 0..table.len() {
        let (line, more) = cut(left, b'\n');
        if let [b'#', head @ ..] = line {
            group = group_of(head);
            place = 0;
        } else {
            check_row(rt, &group, place, line);
            place = place.saturating_add(1);
        }
        if more.is_empty() {
            break;
        }
        left = more;
    }
}
