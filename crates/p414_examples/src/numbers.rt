// The numbers of declarations, sort by sort.
use crate::lines::cut;
use p414_body_check::{Program14, check14};
use p414_reader::read14;
use p414_syntax::{Sort, Syntax14};
use std::alloc::Global;

static SORTS: [Sort; 8] = [
    Sort::HeaderType,
    Sort::Instance,
    Sort::Parse,
    Sort::Action,
    Sort::Table,
    Sort::List,
    Sort::Calculation,
    Sort::Object,
];

/// Some declarations of each sort, in another order than that of the sorts.
const EACH_SORT: &[u8] = b"register kept { width : 8; instance_count : 4; }
parser start { extract(h); return behind; }
header_type h_t { fields { a : 8; b : 8; } }
metadata m_t m;
action act() { no_op(); }
field_list l { h.a; }
field_list_calculation c { input { l; } algorithm : csum16; output_width : 16; }
header_type m_t { fields { f : 8; } }
header h_t h;
table t { actions { act; other; } default_action : act(); }
control ingress { apply(t); aside(); }
parser behind { return ingress; }
header h_t s[2];
action other() { no_op(); }
control aside { apply(u); }
table u { actions { other; } default_action : other(); }
counter seen { type : packets; instance_count : 4; }
field_list k { h.b; }
field_list_calculation d { input { k; } algorithm : csum16; output_width : 16; }
meter rate { type : bytes; instance_count : 4; }
";

/// One name in each sort, in each behind so many others.
const ONE_NAME: &[u8] = b"header_type x { fields { x : 8; } }
header x h1;
header x x;
parser start { extract(x); return p1; }
parser p1 { return x; }
parser x { return ingress; }
action a1() { no_op(); }
action a2() { no_op(); }
action a3() { no_op(); }
action x() { no_op(); }
table t1 { actions { a1; } default_action : a1(); }
table x { actions { x; } default_action : x(); }
field_list x { x.x; }
field_list_calculation x { input { x; } algorithm : csum16; output_width : 16; }
counter o1 { type : packets; instance_count : 1; }
meter o2 { type : bytes; instance_count : 1; }
register x { width : 8; instance_count : 1; }
control ingress { apply(t1); apply(x); }
";

/// A name on each line, and its number in each sort, in their order, or `-`. In each sort the names are numbered in the order of
/// the text, `ingress` and the other controls among the parser states.
const NUMBERS: &[u8] = b"h_t 0-------
m_t 1-------
m -0------
h -1------
s -2------
start --0-----
ingress --1-----
behind --2-----
aside --3-----
act ---0----
other ---1----
t ----0---
u ----1---
l -----0--
k -----1--
c ------0-
d ------1-
kept -------0
seen -------1
rate -------2
 --------
absent --------
h_ --------
h_t_t --------
H_T --------
a --------
egress --------
standard_metadata --------
no_op --------";

fn sorts() -> &'static [Sort] {
    &SORTS
}

/// The number that a digit writes; none where it is `-`.
fn digit_of(octet: u8) -> Option<u32> {
    if octet == b'-' {
        return None;
    }
    Some(u32::from(octet.saturating_sub(b'0')))
}

/// Whether the name of a line has these numbers in the sorts.
fn has_numbers(program: &Program14, line: &[u8]) -> bool {
    let (name, digits) = cut(line, b' ');
    for (place, sort) in sorts().iter().enumerate() {
        if place >= digits.len() || program.number_of(*sort, name) != digit_of(digits[place]) {
            return false;
        }
    }
    digits.len() == sorts().len()
}

/// How many lines stand before the first whose name has other numbers.
fn right_lines(program: &Program14, lines: &[u8]) -> usize {
    let mut left = lines;
    let mut right = 0usize;
    for _ in 0..lines.len() {
        let (line, more) = cut(left, b'\n');
        if !has_numbers(program, line) {
            break;
        }
        right = right.saturating_add(1);
        if more.is_empty() {
            break;
        }
        left = more;
    }
    right
}

fn right_of(alloc: Global, syntax: Syntax14, lines: &[u8]) -> usize {
    match &check14(alloc, syntax) {
        Ok(program) => right_lines(program, lines),
        Err(_) => 0,
    }
}

/// The same of the program of a text; none of one that breaks a rule.
fn right_of_text(alloc: Global, text: &[u8], lines: &[u8]) -> usize {
    match read14(alloc, text) {
        Ok(syntax) => right_of(alloc, syntax, lines),
        Err(_) => 0,
    }
}

#[test]
fn names_have_numbers_sort_by_sort_in_the_order_of_the_text(rt: HostRuntime) {
    let of_each = right_of_text(rt.alloc(), EACH_SORT, NUMBERS);
    let of_one = right_of_text(rt.alloc(), ONE_NAME, b"x 01231002");
    assert_eq!(rt; (of_each, of_one), (29, 1));
}
