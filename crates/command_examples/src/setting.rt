// What the tests have in common: files in memory, and a run of words over them.
use p4x_cmd::p4x;
use p4x_io::{Desk, MemoryDesk, MemorySink};
use p4x_texts::{ONE_TABLE, ROUTER};
use std::alloc::Global;
use std::str;
use std::test::Fail;

/// The text that is written for the program `p`, whose header has 14 octets, and which sends to port 3.
pub const TEXT: &[u8] = b"#include <core.p4>
#include <v1model.p4>

header h_t {
    bit<48> f_a;
    bit<48> f_b;
    bit<16> f_c;
}

struct hs {
    h_t h;
}

struct ms { }

parser P(packet_in p, out hs hdr, inout ms meta, inout standard_metadata_t sm) {
    state start {
        p.extract(hdr.h);
        transition accept;
    }
}

control V(inout hs hdr, inout ms meta) {
    apply { }
}

control I(inout hs hdr, inout ms meta, inout standard_metadata_t sm) {
    @name(\"out3\")
    action a() {
        sm.egress_spec = 9w3;
    }

    @name(\"t\")
    table t {
        actions = {
            a;
        }
        default_action = a();
    }

    apply {
        if (sm.parser_error == error.NoError) {
            t.apply();
        } else {
            mark_to_drop(sm);
        }
    }
}

control E(inout hs hdr, inout ms meta, inout standard_metadata_t sm) {
    apply { }
}

control C(inout hs hdr, inout ms meta) {
    apply { }
}

control D(packet_out p, in hs hdr) {
    apply {
        p.emit(hdr.h);
    }
}

V1Switch(P(), V(), I(), E(), C(), D()) main;
";

/// A capture of link type 1 with one packet of 14 octets, of second 1 and microsecond 2.
pub const CAPTURE: &[u8] = &[
    0xd4, 0xc3, 0xb2, 0xa1, 2, 0, 4, 0, 0, 0, 0, 0, 0, 0, 0, 0, 0xff, 0xff, 0, 0, 1, 0, 0, 0, 1, 0,
    0, 0, 2, 0, 0, 0, 14, 0, 0, 0, 14, 0, 0, 0, 1, 2, 3, 4, 5, 6, 7, 8, 9, 10, 11, 12, 13, 14,
];

/// The sent file of a run that sends that packet. Its first 24 octets are the file's header.
pub const SENT: &[u8] = &[
    0xd4, 0xc3, 0xb2, 0xa1, 2, 0, 4, 0, 0, 0, 0, 0, 0, 0, 0, 0, 0, 0, 4, 0, 1, 0, 0, 0, 1, 0, 0, 0,
    2, 0, 0, 0, 14, 0, 0, 0, 14, 0, 0, 0, 1, 2, 3, 4, 5, 6, 7, 8, 9, 10, 11, 12, 13, 14,
];

/// The report of a run that sends that packet.
pub const REPORT: &[u8] = b"sent 3 14\nin 1\nout 1\ncut 0\nwork 6\n";

/// The words that carry the program.
pub const CARRY: &[u8] = b"carry p e c --text t --sent s --report r";

/// The files of each test: a program and the text that is written for it, a router, a capture, entries
/// and those that are none, ports, and one more file.
const FILES: [(&str, &[u8]); 8] = [
    ("p", ONE_TABLE),
    ("x", TEXT),
    ("q", ROUTER),
    ("c", CAPTURE),
    ("e", b""),
    ("n", b"#"),
    ("o", b"5\n"),
    ("else", b"x"),
];

/// A desk that has these files, and room for no output.
pub fn inputs(alloc: Global) -> Result<MemoryDesk, Fail> {
    let mut desk = MemoryDesk::new(alloc);
    for (name, octets) in FILES {
        desk.put(name, octets)?;
    }
    Ok(desk)
}

/// A desk that has these files, and room for the three outputs.
pub fn desk(alloc: Global) -> Result<MemoryDesk, Fail> {
    let mut desk = inputs(alloc)?;
    for name in ["t", "s", "r"] {
        desk.room(name, 4096)?;
    }
    Ok(desk)
}

/// A name or a word.
pub fn name_of(octets: &[u8]) -> &str {
    str::from_utf8(octets).unwrap_or("?")
}

/// What stands before the first of these marks in a text, and what behind it.
pub fn cut(text: &[u8], mark: u8) -> (&[u8], &[u8]) {
    let at = text.iter().position(|octet| *octet == mark);
    let (before, behind) = text.split_at(at.unwrap_or(text.len()).min(text.len()));
    match behind {
        [_, after @ ..] => (before, after),
        [] => (before, b""),
    }
}

/// The words of a text, between blanks.
pub fn words_of(alloc: Global, text: &[u8]) -> Result<Vec<String>, Fail> {
    let mut words = Vec::new(alloc);
    let mut left = text;
    for _ in 0..text.len() {
        if left.is_empty() {
            break;
        }
        let (word, behind) = cut(left, b' ');
        words.push(String::from_str(alloc, name_of(word))?)?;
        left = behind;
    }
    Ok(words)
}

/// Runs words with so much room for what is printed: whether they end with this status and print this.
pub fn ends_so<D: Desk>(
    alloc: Global,
    words: &[u8],
    desk: &mut D,
    room: usize,
    status: u8,
    line: &[u8],
) -> Result<bool, Fail> {
    let words = words_of(alloc, words)?;
    let mut sink = MemorySink::new(alloc, room)?;
    let found = p4x(alloc, &words, desk, &mut sink);
    Ok(found == status && sink.text() == line)
}

/// Whether a file holds these octets.
pub fn holds(desk: &MemoryDesk, name: &str, octets: &[u8]) -> bool {
    match desk.file(name) {
        Some(held) => held == octets,
        None => false,
    }
}

/// Whether the outputs are those of a run that carried the one packet, and no other file was made.
pub fn has_carried(desk: &MemoryDesk) -> bool {
    holds(desk, "t", TEXT) && holds(desk, "s", SENT) && holds(desk, "r", REPORT)
}
