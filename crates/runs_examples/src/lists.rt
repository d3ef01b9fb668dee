// Field lists of a small program by their numbers, in the state of a packet. Their bits follow from the text of the program.
use crate::programs::{parsed_of, program_of};
use p4x_bits::{Bits, OutOfMemory};
use p414_body_check::Program14;
use p414_field_lists::{FieldLists, field_list_bits, field_lists14};
use p414_state::State14;
use std::alloc::Global;

/// A header that is extracted, others that are not, and metadata; and lists with numbers, instances, lists and the payload.
const PROGRAM: &[u8] = b"header_type h_t { fields { a : 4; b : 12; } }
header_type m_t { fields { v : 9; w : 7; } }
header h_t h;
header h_t s[2];
header h_t gone;
metadata m_t m { w : 5; };
field_list outer { h.a; inner; inner; payload; }
field_list inner { h.b; 8'0x5a; }
field_list all { h; m; }
field_list absent { s[1]; gone.b; h.a; }
field_list standard { standard_metadata; }
field_list nothing { }
parser start { extract(h); return ingress; }
control ingress { }
";

/// A packet with two octets behind its header.
const PACKET: [u8; 4] = [0x12, 0x34, 0xab, 0xcd];

/// How many bits each list has, and the number that these are; the last one isn't there.
const EXPECTED: [(u32, u8, u128); 7] = [
    (0, 60, 0x1_2345a_2345a_abcd),
    (1, 20, 0x2345a),
    (2, 32, 0x1234_0005),
    (3, 32, 1),
    (4, 91, 7 << 82 | 4 << 32),
    (5, 0, 0),
    (6, 0, 0),
];

/// Whether these are so many bits, at most 128, with this number.
fn are_bits(bits: &Bits, len: u8, number: u128) -> bool {
    len <= 128 && bits.len() == usize::from(len) && bits.read_field(0, len) == number
}

/// Whether a list that is made ready has these bits.
fn has_bits(
    alloc: Global,
    lists: &FieldLists,
    state: &State14,
    expected: (u32, u8, u128),
) -> Result<bool, OutOfMemory> {
    let mut bits = Bits::new(alloc);
    lists.append(expected.0, state, &mut bits)?;
    Ok(are_bits(&bits, expected.1, expected.2))
}

/// Whether all lists have their bits.
fn all_have(alloc: Global, lists: &FieldLists, state: &State14) -> bool {
    for expected in EXPECTED {
        if has_bits(alloc, lists, state, expected) != Ok(true) {
            return false;
        }
    }
    true
}

/// The same of the program, and of its first list by the one call that makes it ready.
fn are_listed(alloc: Global, program: &Program14) -> Result<bool, OutOfMemory> {
    let state = parsed_of(alloc, program, &PACKET)?;
    let lists = field_lists14(alloc, program)?;
    let bits = field_list_bits(alloc, program, 0, &state)?;
    Ok(all_have(alloc, &lists, &state) && are_bits(&bits, 60, 0x1_2345a_2345a_abcd))
}

/// The same of the text.
fn lists_are_told(alloc: Global) -> bool {
    match program_of(alloc, PROGRAM) {
        Some(program) => are_listed(alloc, &program) == Ok(true),
        None => false,
    }
}

#[test]
fn lists_have_the_bits_of_their_items(rt: HostRuntime) {
    assert!(rt; lists_are_told(rt.alloc()));
}
