// The state of a packet, call by call. Expected values follow from the definition of a state and the widths of the fields.
ghost use Rattle.std.specs.Prelude.{◌≡◌, ◌^◌, ◌<◌, ◌≤◌, true};
ghost use Rattle.p414_state.specs.Packets.{IsHeader};

use crate::programs::{program_of, state_of};
use crate::stacks::{all_copy, all_move};
use fabric::{Event, RequestKind};
use p414_body_check::Program14;
use p414_state::{Request14, Standard, State14, layout14};
use std::alloc::Global;

/// The instances 0 to 3: a header of 16 bits, a stack of two, metadata of 9, 1, 127 and 128 bits, and a header of 64 bits.
const PROGRAM: &[u8] = b"header_type h_t { fields { a : 4; b : 12; } }
header_type m_t { fields { v : 9; w : 1; x : 127; y : 128; } }
header_type l_t { fields { n : 64; } }
header h_t h;
header h_t s[2];
metadata m_t m;
header l_t l;
parser start { extract(h); extract(s[next]); extract(l); return ingress; }
control ingress { }
";

/// The octets of an item.
pub const ITEM: [u8; 5] = [0x12, 0x34, 0x56, 0x78, 0x9a];

/// The greatest number of so many bits.
fn greatest_of(width: u8) -> u128
    requires { width ≤ 128 }
    ensures { result < 2 ^ width }
{
    if width < 128 {
        (1u128 << width) - 1
    } else {
        u128::MAX
    }
}

/// Puts the greatest number of a field.
fn put_greatest(state: &mut State14, instance: u32, element: u32, field: u32) -> bool {
    let greatest = greatest_of(state.width(instance, field));
    state.put_number(instance, element, field, greatest).is_ok()
}

/// Whether an instance is a header.
fn is_header(state: &State14, instance: u32) -> bool
    ensures { result ≡ true → IsHeader state.now.layout instance }
{
    !state.is_metadata(instance)
}

/// Makes a header valid or invalid; false of metadata.
pub fn put_valid(state: &mut State14, instance: u32, element: u32, on: bool) -> bool {
    is_header(state, instance) && state.put_valid(instance, element, on).is_ok()
}

/// Puts the place of a stack; false where the place is past the one behind its last element.
fn put_place(state: &mut State14, instance: u32, place: u32) -> bool {
    place <= state.last_place(instance) && state.put_place(instance, place).is_ok()
}

/// Fills a header with the next octets, and takes these off; false where too few are left.
pub fn extract(state: &mut State14, instance: u32, element: u32) -> bool {
    let octets = state.bits(instance).div_ceil(8);
    if state.unparsed().len() < octets {
        return false;
    }
    state.fill(instance, element);
    state.skip(octets).is_ok()
}

/// Whether an item begins with nothing parsed.
fn begins(state: &State14) -> bool {
    !state.valid(0, 0)
        && !state.valid(1, 1)
        && !state.valid(3, 0)
        && state.valid(2, 0)
        && state.number(2, 0, 3) == 0
        && state.place(1) == 0
        && state.unparsed() == ITEM.as_slice()
        && state.events().is_empty()
}

/// Whether instances have what they declare.
fn declares(state: &State14) -> bool {
    state.instances() == 4
        && [state.size(0), state.size(1), state.size(2)] == [1, 2, 1]
        && [state.last_place(0), state.last_place(1)] == [0, 2]
        && [state.fields(1), state.fields(2)] == [2, 4]
        && [state.bits(1), state.bits(2)] == [16, 265]
        && [state.width(2, 0), state.width(2, 3)] == [9, 128]
        && state.is_metadata(2)
        && !state.is_metadata(1)
}

/// Whether what isn't there reads 0 and gets nothing.
fn lacks(state: &mut State14) -> bool {
    let none = state.size(4) == 0 && state.fields(4) == 0 && state.width(2, 4) == 0;
    let invalid = !state.valid(4, 0) && !state.valid(1, 2);
    let put = put_valid(state, 1, 2, true)
        && put_valid(state, 4, 0, true)
        && put_greatest(state, 2, 1, 0)
        && put_greatest(state, 2, 0, 4);
    none && invalid
        && put
        && !state.valid(1, 2)
        && !state.valid(4, 0)
        && [
            state.number(2, 1, 0),
            state.number(2, 0, 0),
            state.number(2, 0, 4),
        ] == [0, 0, 0]
}

/// Whether the standard metadata tells port, length and kind, and keeps the port that is chosen.
fn tells(state: &mut State14) -> bool {
    let begun = state.standard(Standard::IngressPort) == 7
        && state.standard(Standard::PacketLength) == 5
        && state.standard(Standard::InstanceType) == 6
        && state.standard(Standard::EgressSpec) == 0;
    begun
        && state.put_standard(Standard::EgressSpec, 511).is_ok()
        && state.standard(Standard::EgressSpec) == 511
        && state.standard(Standard::EgressPort) == 0
}

/// The numbers of the metadata.
fn numbers(state: &State14) -> [u128; 4] {
    [
        state.number(2, 0, 0),
        state.number(2, 0, 1),
        state.number(2, 0, 2),
        state.number(2, 0, 3),
    ]
}

/// Whether each field keeps its greatest number beside the others.
fn keeps_numbers(state: &mut State14) -> bool {
    put_greatest(state, 2, 0, 1)
        && put_greatest(state, 2, 0, 2)
        && numbers(state) == [0, 1, u128::MAX >> 1, 0]
        && put_greatest(state, 2, 0, 3)
        && numbers(state) == [0, 1, u128::MAX >> 1, u128::MAX]
}

/// Whether a header that becomes valid has fields 0, and one that is valid keeps them; it is left invalid.
fn begins_with_0(state: &mut State14) -> bool {
    let lost = put_greatest(state, 0, 0, 1) && state.number(0, 0, 1) == 0;
    let begun = put_valid(state, 0, 0, true) && state.number(0, 0, 1) == 0;
    let kept = put_greatest(state, 0, 0, 1)
        && put_valid(state, 0, 0, true)
        && state.number(0, 0, 1) == 0xfff;
    let gone = put_valid(state, 0, 0, false) && state.number(0, 0, 1) == 0;
    let anew = put_valid(state, 0, 0, true) && state.number(0, 0, 1) == 0;
    lost && begun && kept && gone && anew && put_valid(state, 0, 0, false)
}

/// A request.
fn request(session: u32, list: Option<u32>) -> Option<Request14> {
    Some(Request14 { session, list })
}

/// Whether the last request of each kind stands, until it is taken back.
fn keeps_requests(state: &mut State14) -> bool {
    let put = state
        .put_request(RequestKind::CloneI2E, request(3, None))
        .is_ok()
        && state
            .put_request(RequestKind::CloneI2E, request(4, Some(1)))
            .is_ok();
    put && state.request(RequestKind::CloneI2E) == request(4, Some(1))
        && state.request(RequestKind::CloneE2E).is_none()
        && state.put_request(RequestKind::CloneI2E, None).is_ok()
        && state.request(RequestKind::CloneI2E).is_none()
}

/// A hit of a table.
const HIT: Event = Event {
    table: 2,
    entry: Some(5),
    action: Some(0),
};

/// A miss on which no action ran.
const MISS: Event = Event {
    table: 1,
    entry: None,
    action: None,
};

/// Whether events stand in order until they are forgotten.
fn keeps_events(state: &mut State14) -> bool {
    let put = state.push_event(HIT).is_ok() && state.push_event(MISS).is_ok();
    let stand = state.events() == [HIT, MISS].as_slice();
    state.clear_events();
    put && stand && state.events().is_empty()
}

/// Whether extracted bits are the fields, first field first.
fn extracts(state: &mut State14) -> bool {
    extract(state, 0, 0)
        && [state.number(0, 0, 0), state.number(0, 0, 1)] == [1, 0x234]
        && extract(state, 1, 1)
        && [state.number(1, 1, 0), state.number(1, 1, 1)] == [5, 0x678]
        && !state.valid(1, 0)
        && state.unparsed() == [0x9a].as_slice()
        && !extract(state, 3, 0)
}

/// Whether a copy has what the state behind `extracts` has, and is changed by itself.
fn copies(alloc: Global, state: &mut State14) -> bool {
    if state.push_event(MISS).is_err() {
        return false;
    }
    match state.copy(alloc) {
        Ok(mut copied) => {
            copied.number(0, 0, 1) == 0x234
                && copied.unparsed() == [0x9a].as_slice()
                && copied.events().len() == 1
                && put_valid(&mut copied, 0, 0, false)
                && state.valid(0, 0)
        }
        Err(_) => false,
    }
}

/// Whether, as parsing begins, headers are invalid, places 0, and metadata stays.
fn clears(state: &mut State14) -> bool {
    let placed = put_place(state, 1, 2) && !put_place(state, 1, 3) && state.place(1) == 2;
    let put = put_greatest(state, 2, 0, 0) && state.valid(1, 1);
    state.clear_headers();
    placed
        && put
        && !state.valid(1, 1)
        && state.number(1, 1, 1) == 0
        && state.place(1) == 0
        && state.number(2, 0, 0) == 511
}

/// Whether a layout serves a further state.
fn serves(alloc: Global, program: &Program14) -> bool {
    let Ok(layout) = layout14(alloc, program) else {
        return false;
    };
    match State14::of_layout(alloc, &layout, &ITEM, 510, 0) {
        Ok(state) => {
            state.instances() == 4
                && state.bits(3) == 64
                && state.standard(Standard::IngressPort) == 510
                && state.unparsed() == ITEM.as_slice()
        }
        Err(_) => false,
    }
}

/// Whether all hold of one state of a resubmitted item, one after another.
fn keeps(alloc: Global, state: &mut State14) -> bool {
    let begins = begins(state) && declares(state) && lacks(state) && tells(state);
    let keeps = keeps_numbers(state)
        && begins_with_0(state)
        && keeps_requests(state)
        && keeps_events(state);
    begins && keeps && extracts(state) && copies(alloc, state) && clears(state)
}

/// The same of the item.
fn item_keeps(alloc: Global, program: &Program14) -> bool {
    match state_of(alloc, program, &ITEM, 6) {
        Ok(mut state) => keeps(alloc, &mut state),
        Err(_) => false,
    }
}

/// The same, and what holds of further states.
fn are_kept(alloc: Global) -> bool {
    match program_of(alloc, PROGRAM) {
        Some(program) => {
            item_keeps(alloc, &program)
                && serves(alloc, &program)
                && all_move(alloc, &program)
                && all_copy(alloc, &program)
        }
        None => false,
    }
}

#[test]
fn states_keep_what_is_put(rt: HostRuntime) {
    assert!(rt; are_kept(rt.alloc()));
}
