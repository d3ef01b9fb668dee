// Programs that are put together of what several rows have in common and what each row puts there.
use crate::lines::put;
use p4x_bits::OutOfMemory;

/// Statements of a control, as they are laid out.
const STATEMENTS: [&[u8]; 2] = [
    b"#include <core.p4>
#include <v1model.p4>

control C(in h_t h) {
    apply {
        ",
    b"
    }
}

V1Switch(C()) main;
",
];

/// Declarations.
const DECLS: [&[u8]; 2] = [
    b"#include <core.p4>
#include <v1model.p4>
",
    b"
V1Switch(C()) main;
",
];

/// Properties of a table.
const PROPERTIES: [&[u8]; 2] = [
    b"#include <core.p4>
#include <v1model.p4>
control C(in h_t h) { table t {
",
    b"} apply { } }
V1Switch(C()) main;
",
];

/// Cases of a `select`.
const CASES: [&[u8]; 2] = [
    b"#include <core.p4>
#include <v1model.p4>
parser P(in h_t h) { state s { transition select(a) {
",
    b"} } }
V1Switch(C()) main;
",
];

/// Declarations beside header types of one bit and of one octet.
const TYPES: [&[u8]; 2] = [
    b"#include <core.p4>
#include <v1model.p4>
header bit_t { bit<1> a; }
header octet_t { bit<8> a; }
",
    b"
control C(inout standard_metadata_t sm) { apply { } }
V1Switch(C()) main;
",
];

/// The value of a variable of a control.
const VALUE: [&[u8]; 2] = [
    b"#include <core.p4>
#include <v1model.p4>
header h_t { bit<8> a; bit<16> b; }
struct hs { h_t h; h_t[4] s; }
struct ms { bit<7> m; }
control I(inout hs hdr, in ms meta, inout standard_metadata_t sm) {
bit<8> x;
bit<8> result = ",
    b";
apply { }
}
V1Switch(I()) main;
",
];

/// What stands in front of what a row puts in its place, and what behind it: `s` is the place of statements, `d` of declarations, `p` of
/// properties, `k` of cases, `z` of declarations beside header types, `x` of a value, and any other letter that of a whole text.
fn frame(place: u8) -> [&'static [u8]; 2] {
    match place {
        b's' => STATEMENTS,
        b'd' => DECLS,
        b'p' => PROPERTIES,
        b'k' => CASES,
        b'z' => TYPES,
        b'x' => VALUE,
        _ => [b"", b""],
    }
}

/// Puts the program of this place, with what a row puts there, behind a text.
pub fn put_program(text: &mut Vec<u8>, place: u8, piece: &[u8]) -> Result<(), OutOfMemory> {
    let [front, back] = frame(place);
    text.extend_from_slice(front)?;
    put(text, piece)?;
    text.extend_from_slice(back)?;
    Ok(())
}
