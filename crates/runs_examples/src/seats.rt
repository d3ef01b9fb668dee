// Where the parts of a frame of P4_16 stand, by the values of the frame and the paths from there.
use p4x_bits::OutOfMemory;
use p416_names::{Kind, Top};
use p416_reader::read16;
use p416_syntax::Syntax16;
use std::alloc::Global;
use v1_layout::layout_of_kinds;
use v1_seats::{Seat, TypeTable, seats_of};

/// The types of the values.
const PROGRAM: &[u8] = b"#include <core.p4>
#include <v1model.p4>
struct hs { a_t a; b_t[3] s; a_t c; }
struct ms { bit<5> p; in_t q; bit<3> r; in_t t; }
struct in_t { bit<7> m; bit<9> n; }
header a_t { bit<8> x; bit<16> y; }
header b_t { bit<4> x; bit<4> y; bit<32> z; }
control I(inout hs hdr) { apply { } }
V1Switch(I()) main;
";

/// The values: headers, metadata, standard metadata, a number, a truth value, and once more headers.
const KINDS: [Kind<'static>; 6] = [
    Kind::Struct(b"hs"),
    Kind::Struct(b"ms"),
    Kind::Struct(b"standard_metadata_t"),
    Kind::Bits(8),
    Kind::Boolean,
    Kind::Struct(b"hs"),
];

/// The number of a value, a path from there, and where that leads: the first slot, the first header and the first stack.
const ROWS: &[u8] = b"0 a 0 0 0
0 a.x 0 0 0
0 a.y 1 0 0
0 s 2 1 0
0 s.1.x 5 2 0
0 s.2.z 10 3 0
0 c 11 4 1
0 c.y 12 4 1
1 p 13 5 1
1 q.n 15 5 1
1 r 16 5 1
1 t 17 5 1
1 t.m 17 5 1
2 ingress_port 19 5 1
2 parser_error 24 5 1
2 checksum_error 25 5 1
3 . 26 5 1
4 . 27 5 1
5 a.x 28 5 1
5 s.2.y 37 8 1
5 c.x 39 9 2
0 b none
0 a.z none
0 s.3 none
0 a.0 none
1 q.x none
3 x none";

/// These rows.
fn rows() -> &'static [u8] {
    ROWS
}

/// The number that these digits write.
fn number(digits: &[u8]) -> Option<u128> {
    let mut value = 0u128;
    for digit in digits {
        if !digit.is_ascii_digit() {
            return None;
        }
        value = value
            .checked_mul(10)?
            .checked_add(u128::from(*digit - b'0'))?;
    }
    Some(value)
}

/// What a step of a path leads to.
fn step<'a>(
    types: &TypeTable<'_, 'a>,
    seat: Seat<'a>,
    word: &[u8],
) -> Result<Option<Seat<'a>>, OutOfMemory> {
    match number(word) {
        Some(number) => Ok(types.element(seat, number)?),
        None => Ok(types.member(seat, word)?),
    }
}

/// What a path leads to.
fn follow<'a>(
    types: &TypeTable<'_, 'a>,
    seat: Option<Seat<'a>>,
    path: &[u8],
) -> Result<Option<Seat<'a>>, OutOfMemory> {
    let mut here = seat;
    for word in path.split(|octet| *octet == b'.') {
        if let Some(seat) = here {
            if !word.is_empty() {
                here = step(types, seat, word)?;
            }
        }
    }
    Ok(here)
}

/// Where a row says that a part stands; none where it says that there is none.
fn wanted(row: &[u8]) -> Option<(u128, u128, u128)> {
    let mut words = row.split(|octet| *octet == b' ').skip(2);
    let slot = number(words.next()?)?;
    let header = number(words.next()?)?;
    let stack = number(words.next()?)?;
    Some((slot, header, stack))
}

/// Where a part stands.
fn found(seat: Option<Seat<'_>>) -> Option<(u128, u128, u128)> {
    let start = seat?.start;
    Some((
        u128::from(start.slot),
        u128::from(start.header),
        u128::from(start.stack),
    ))
}

/// Whether each row leads to where it says.
fn are_right<'a>(
    types: &TypeTable<'_, 'a>,
    seats: &[Seat<'a>],
    rows: &[u8],
) -> Result<bool, OutOfMemory> {
    let mut right = true;
    for row in rows.split(|octet| *octet == b'\n') {
        right = is_right(types, seats, row)? && right;
    }
    Ok(right)
}

/// The seat of the value with a number.
fn seat_at<'a>(seats: &[Seat<'a>], digits: &[u8]) -> Option<Seat<'a>> {
    let value = usize::try_from(number(digits)?).ok()?;
    seats.get(value).copied()
}

/// Whether a row leads to where it says.
fn is_right<'a>(
    types: &TypeTable<'_, 'a>,
    seats: &[Seat<'a>],
    row: &[u8],
) -> Result<bool, OutOfMemory> {
    let mut words = row.split(|octet| *octet == b' ');
    let (Some(value), Some(path)) = (words.next(), words.next()) else {
        return Ok(false);
    };
    let part = follow(types, seat_at(seats, value), path)?;
    Ok(found(part) == wanted(row))
}

/// Whether each row leads to where it says in the frames of this program.
fn are_seats(alloc: Global, syntax: &Syntax16) -> Result<bool, OutOfMemory> {
    let top = Top::of(alloc, syntax.decls.as_slice())?;
    let types = TypeTable::of(alloc, &top)?;
    let seats = seats_of(alloc, &types, &KINDS)?;
    are_right(&types, &seats, rows())
}

/// How many slots, headers and stacks the frames have.
fn counts(alloc: Global, syntax: &Syntax16) -> Result<[usize; 3], OutOfMemory> {
    let top = Top::of(alloc, syntax.decls.as_slice())?;
    let layout = layout_of_kinds(alloc, &top, &KINDS)?;
    Ok([layout.slots(), layout.headers(), layout.stacks()])
}

/// Whether all this holds of the program.
fn are_laid_out(alloc: Global) -> bool {
    match read16(alloc, PROGRAM) {
        Ok(syntax) => {
            are_seats(alloc, &syntax) == Ok(true) && counts(alloc, &syntax) == Ok([41, 10, 2])
        }
        Err(_) => false,
    }
}

#[test]
fn parts_stand_where_they_are_laid_out(rt: HostRuntime) {
    assert!(rt; are_laid_out(rt.alloc()));
}
