// Packets of a small program, and how their parsing ends. What they come to follows from the text of the program.
use crate::programs::{program_of, state_of};
use p4x_bits::OutOfMemory;
use p414_body_check::Program14;
use p414_parse_run::{Parsed, parse_ready, parse14, ready14};
use p414_state::State14;
use std::alloc::Global;

/// The instances 0 to 2: a header of an octet, a stack of two, and metadata of 4 and 16 bits.
const PROGRAM: &[u8] = b"header_type h_t { fields { a : 8; } }
header_type m_t { fields { x : 4; y : 16; } }
header h_t h;
header h_t s[2];
metadata m_t m { x : 20; };
parser start {
  extract(h);
  set_metadata(m.y, current(4, 8));
  return select(latest.a) { 1 : more; 2 : ingress; 0x80 mask 0x80 : ingress; }
}
parser more { extract(s[next]); return select(latest.a) { 0 : more; default : ingress; } }
control ingress { }
";

/// Whether the header is valid, its octet, the octets of the stack's elements, how many of these were taken, and both numbers of the
/// metadata.
type Seen = [u128; 7];

/// A packet, how its parsing ends, what is seen then, and the octets that are left.
const ROWS: [(&[u8], Parsed, Seen, &[u8]); 7] = [
    // A case leads to ingress.
    (
        &[2, 0x23, 0x45],
        Parsed::Accepted,
        [1, 2, 0, 0, 0, 4, 0x34],
        &[0x23, 0x45],
    ),
    // Initial values are kept modulo the width.
    (&[], Parsed::OutOfPacket, [0, 0, 0, 0, 0, 4, 0], &[]),
    // A mask hides bits.
    (
        &[0x91, 0, 0],
        Parsed::Accepted,
        [1, 0x91, 0, 0, 0, 4, 0],
        &[0, 0],
    ),
    // A value of no case is unhandled.
    (
        &[5, 0, 0],
        Parsed::UnhandledSelect,
        [1, 5, 0, 0, 0, 4, 0],
        &[0, 0],
    ),
    // `current` may go past the end.
    (&[2, 0], Parsed::OutOfPacket, [1, 2, 0, 0, 0, 4, 0], &[0]),
    // `next` moves along a stack.
    (&[1, 0, 7, 9], Parsed::Accepted, [1, 1, 0, 7, 2, 4, 0], &[9]),
    // A full stack is told before missing octets.
    (&[1, 0, 0], Parsed::OutOfBounds, [1, 1, 0, 0, 2, 4, 0], &[]),
];

/// What is seen of a state.
fn seen(state: &State14) -> Seen {
    [
        u128::from(state.valid(0, 0)),
        state.number(0, 0, 0),
        state.number(1, 0, 0),
        state.number(1, 1, 0),
        u128::from(state.place(1)),
        state.number(2, 0, 0),
        state.number(2, 0, 1),
    ]
}

/// Whether a packet ends parsing so.
fn ends(
    alloc: Global,
    program: &Program14,
    packet: &[u8],
    end: Parsed,
    due: Seen,
    left: &[u8],
) -> Result<bool, OutOfMemory> {
    let mut state = state_of(alloc, program, packet, 0)?;
    let ended = parse14(alloc, program, &mut state)?;
    Ok(ended == end && seen(&state) == due && state.unparsed() == left)
}

/// How parsing of two packets ends by rows that are made once.
fn both_ended(
    alloc: Global,
    program: &Program14,
    first: &[u8],
    second: &[u8],
) -> Result<[Parsed; 2], OutOfMemory> {
    let parser = ready14(alloc, program)?;
    let mut state = state_of(alloc, program, first, 0)?;
    let end = parse_ready(&parser, &mut state)?;
    let mut state = state_of(alloc, program, second, 0)?;
    Ok([end, parse_ready(&parser, &mut state)?])
}

/// Whether all packets end parsing as they should.
fn all_end(alloc: Global, program: &Program14) -> bool {
    for (packet, end, due, left) in ROWS {
        if ends(alloc, program, packet, end, due, left) != Ok(true) {
            return false;
        }
    }
    both_ended(alloc, program, &[1, 0, 0], &[2, 0x23, 0x45])
        == Ok([Parsed::OutOfBounds, Parsed::Accepted])
}

/// The same of the program.
fn are_parsed(alloc: Global) -> bool {
    match program_of(alloc, PROGRAM) {
        Some(program) => all_end(alloc, &program),
        None => false,
    }
}

#[test]
fn each_packet_ends_parsing_with_this_state(rt: HostRuntime) {
    assert!(rt; are_parsed(rt.alloc()));
}
