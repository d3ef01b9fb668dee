// What actions leave that no packet shows: the place of a stack, and requests by the numbers of their sessions and lists.
use crate::programs::{parsed_of, program_of};
use fabric::RequestKind;
use p4x_bits::OutOfMemory;
use p414_act_run::act14;
use p414_body_check::Program14;
use p414_state::{Request14, State14};
use p414_syntax::Rule14;
use state_store::Store;
use std::alloc::Global;

/// A stack of three whose first element is parsed, two lists, and actions by their numbers.
const PROGRAM: &[u8] = b"header_type h_t { fields { a : 8; b : 8; } }
header_type m_t { fields { w8 : 8; w16 : 16; } }
header h_t h;
header h_t s[3];
metadata m_t m;
parser start { extract(h); extract(s[next]); return ingress; }
field_list l { h.a; h.b; }
field_list keep { m.w8; }
control ingress { }
action a0(p) { push(s, 2); }
action a1(p) { pop(s, 256); }
action a2(p) { clone_i2e(7); }
action a3(p) { clone_ingress_pkt_to_egress(7, keep); }
action a4(p) { clone_i2e(7, keep); clone_i2e(8); }
action a5(p) { clone_i2e(0x100000000); }
action a6(p) { clone_i2e(0xffffffff); }
action a7(p) { clone_i2e(p); }
action a8(p) { modify_field(m.w16, 5); clone_i2e(m.w16); }
action a9(p) { clone_e2e(9); }
action a10(p) { clone_egress_pkt_to_egress(9, keep); }
action a11(p) { clone_i2e(7); resubmit(); recirculate(); }
action a12(p) { resubmit(); }
action a13(p) { resubmit(keep); }
action a14(p) { clone_i2e(7); clone_e2e(7); recirculate(); }
action a15(p) { recirculate(); }
action a16(p) { recirculate(keep); }
action a17(p) { clone_i2e(7); clone_e2e(7); resubmit(); }
";

/// The octets of the packet.
const PACKET: [u8; 4] = [0x12, 0x34, 0x56, 0x78];

/// What is looked at: the place of the stack, or the request of a kind.
#[derive(Clone, Copy)]
enum Look {
    Place,
    Asked(RequestKind),
}

/// The requests of each kind.
const I2E: Look = Look::Asked(RequestKind::CloneI2E);

const E2E: Look = Look::Asked(RequestKind::CloneE2E);

const RESUBMIT: Look = Look::Asked(RequestKind::Resubmit);

const RECIRCULATE: Look = Look::Asked(RequestKind::Recirculate);

/// An action, what is looked at, and what is there under the sequential and the parallel rule: a place, or of a request 256 times its
/// session, and 1 without a list or 3 with the second one.
const ROWS: [(u32, Look, u64, u64); 18] = [
    (0, Look::Place, 1, 1),
    (1, Look::Place, 1, 1),
    (2, I2E, 0x701, 0x701),
    (3, I2E, 0x703, 0x703),
    (4, I2E, 0x801, 0x801),
    (5, I2E, 1, 1),
    (6, I2E, 0xffff_ffff01, 0xffff_ffff01),
    (7, I2E, 0x12c01, 0x12c01),
    (8, I2E, 0x501, 1),
    (9, E2E, 0x901, 0x901),
    (10, E2E, 0x903, 0x903),
    (11, E2E, 0, 0),
    (12, RESUBMIT, 1, 1),
    (13, RESUBMIT, 3, 3),
    (14, RESUBMIT, 0, 0),
    (15, RECIRCULATE, 1, 1),
    (16, RECIRCULATE, 3, 3),
    (17, RECIRCULATE, 0, 0),
];

/// A request as a number.
fn number_of(request: Option<Request14>) -> u64 {
    let Some(request) = request else {
        return 0;
    };
    let list = match request.list {
        Some(number) => u64::from(number % 253) + 2,
        None => 1,
    };
    u64::from(request.session) * 256 + list
}

/// What is there.
fn seen(state: &State14, look: Look) -> u64 {
    match look {
        Look::Place => u64::from(state.place(1)),
        Look::Asked(kind) => number_of(state.request(kind)),
    }
}

/// What an action leaves under a rule, of the packet.
fn left(
    alloc: Global,
    program: &Program14,
    rule: Rule14,
    action: u32,
    look: Look,
) -> Result<u64, OutOfMemory> {
    let mut state = parsed_of(alloc, program, &PACKET)?;
    let Ok(mut store) = Store::new(alloc, &[]) else {
        return Err(OutOfMemory);
    };
    act14(alloc, program, rule, action, &[300], &mut state, &mut store)?;
    Ok(seen(&state, look))
}

/// Whether all actions leave what they should.
fn all_leave(alloc: Global, program: &Program14) -> bool {
    for (action, look, sequential, parallel) in ROWS {
        if left(alloc, program, Rule14::Sequential, action, look) != Ok(sequential)
            || left(alloc, program, Rule14::Parallel, action, look) != Ok(parallel)
        {
            return false;
        }
    }
    true
}

/// The same of the text.
fn actions_leave(alloc: Global) -> bool {
    match program_of(alloc, PROGRAM) {
        Some(program) => all_leave(alloc, &program),
        None => false,
    }
}

#[test]
fn actions_leave_places_and_requests(rt: HostRuntime) {
    assert!(rt; actions_leave(rt.alloc()));
}
