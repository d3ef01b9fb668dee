// The rows of the tables. A row that fails is told by the name of its group and its place there, from 0.
//
// A table is a text: a prover takes a text of many lines as one thing. A line that begins with `=` tells what the rows behind it
// have in common: their name, a letter for what is asked of them, and one for the place in a program where they stand. A row is a
// text, in which `%` is a line feed, and behind a `$` what is expected of it; neither has a part in P4_16.
use crate::expressions::has_kind;
use crate::frames::put_program;
use crate::lines::{cut, name_of};
use crate::sizes::has_sizes;
use crate::tokens::has_tokens;
use crate::writing::{is_written, is_written_solidly};
use crate::{deep, kinds, lexemes, written};
use p416_reader::read16;
use std::alloc::Global;
use std::process::Abort;

/// What rows have in common.
#[derive(Clone, Copy, Drop)]
struct Group<'a> {
    name: &'a [u8],
    /// `T` for its tokens, `Z` for the sizes of its types, `K` for the kind of its expression, `W` for how it is written to the octet,
    /// `D` for how a deep text is written but for spaces and line feeds, and any other letter for how another is.
    asked: u8,
    place: u8,
}

fn group_of(line: &[u8]) -> Group<'_> {
    let (name, letters) = cut(line, b'|');
    let (asked, place) = match letters {
        [asked, place] => (*asked, *place),
        _ => (b'W', b't'),
    };
    Group { name, asked, place }
}

/// Whether the types of a text have these sizes.
fn is_sized(alloc: Global, text: &[u8], wanted: &[u8]) -> bool {
    match &read16(alloc, text) {
        Ok(syntax) => matches!(has_sizes(alloc, syntax.decls.as_slice(), wanted), Ok(true)),
        Err(_) => false,
    }
}

/// Whether the expression of a text is of this kind.
fn is_of_kind(alloc: Global, text: &[u8], wanted: &[u8]) -> bool {
    match &read16(alloc, text) {
        Ok(syntax) => matches!(has_kind(alloc, syntax.decls.as_slice(), wanted), Ok(true)),
        Err(_) => false,
    }
}

/// Whether a text is written as the program with what stands behind the `$` of a row, or else in front of it.
fn is_row_written(alloc: Global, group: &Group<'_>, text: &[u8], row: &[u8]) -> bool {
    let (left, right) = cut(row, b'$');
    let piece = if right.is_empty() { left } else { right };
    let mut wanted = Vec::new(alloc);
    put_program(&mut wanted, group.place, piece).is_ok()
        && if group.asked == b'W' {
            is_written(alloc, text, &wanted)
        } else {
            is_written_solidly(alloc, text, &wanted, group.asked == b'D')
        }
}

fn is_told(alloc: Global, group: &Group<'_>, text: &[u8], row: &[u8]) -> bool {
    match group.asked {
        b'T' => has_tokens(alloc, text, cut(row, b'$').1),
        b'Z' => is_sized(alloc, text, cut(row, b'$').1),
        b'K' => is_of_kind(alloc, text, cut(row, b'$').1),
        _ => is_row_written(alloc, group, text, row),
    }
}

/// Whether what is expected is told of the text of a row.
fn holds(alloc: Global, group: &Group<'_>, row: &[u8]) -> bool {
    let mut text = Vec::new(alloc);
    put_program(&mut text, group.place, cut(row, b'$').0).is_ok()
        && is_told(alloc, group, &text, row)
}

fn check_row(rt: &(impl Abort + AllocGlobal), group: &Group<'_>, place: usize, row: &[u8]) {
    let holds = holds(rt.alloc(), group, row);
    assert!(rt; holds, "{}, row {place}", name_of(group.name));
}

fn check_table(rt: &(impl Abort + AllocGlobal), table: &[u8]) {
    let mut group = group_of(table);
    let mut place = 0usize;
    let mut left = table;
    for _ in 0..table.len() {
        let (line, more) = cut(left, b'\n');
        if let [b'=', head @ ..] = line {
            group = group_of(head);
            place = 0;
        } else {
            check_row(rt, &group, place, line);
            place = place.saturating_add(1);
        }
        if more.is_empty() {
            break;
        }
        left = more;
    }
}

#[test]
fn texts_have_these_tokens(rt: HostRuntime) {
    check_table(&rt, lexemes::rows());
}

#[test]
fn texts_are_written_so(rt: HostRuntime) {
    check_table(&rt, written::rows());
}

#[test]
fn deep_expressions_are_written_so(rt: HostRuntime) {
    check_table(&rt, deep::expressions());
}

#[test]
fn deep_statements_are_written_so(rt: HostRuntime) {
    check_table(&rt, deep::statements());
}

#[test]
fn types_have_their_sizes_and_expressions_their_kinds(rt: HostRuntime) {
    check_table(&rt, kinds::rows());
}
