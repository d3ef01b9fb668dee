// Which stage a program is of.
ghost use Rattle.std.specs.Prelude.{◌≡◌, map};
ghost use Rattle.std.specs.List.{list_any};
ghost use Rattle.p414_syntax.specs.References.{referred};
ghost use Rattle.p414_sem.specs.Stages.{is_call_of, calls_in_decl, calls_some, keeps_something, stage_of, stage_without_items, making_items, hashing};

use p414_names::is_among;
use p414_sem::Stage14;
use p414_syntax::{Call, Decl};

const MAKING_ITEMS: [&[u8]; 6] = [
    b"resubmit",
    b"recirculate",
    b"clone_ingress_pkt_to_egress",
    b"clone_i2e",
    b"clone_egress_pkt_to_egress",
    b"clone_e2e",
];

const HASHING: [&[u8]; 1] = [b"modify_field_with_hash_based_offset"];

/// Whether one of these calls is of one of these primitives.
fn call_some(primitives: &[&[u8]], calls: &[Call]) -> bool
    ensures { result ≡ list_any (is_call_of (map referred primitives.now)) calls.now }
{
    for call in calls {
        if is_among(call.name.as_slice(), primitives) {
            return true;
        }
    }
    false
}

/// Whether a declaration is an action that calls one of these primitives.
fn calls_in_decl(primitives: &[&[u8]], decl: &Decl) -> bool
    ensures { result ≡ calls_in_decl (map referred primitives.now) decl.now }
{
    match decl {
        Decl::Action(action) => call_some(primitives, action.calls.as_slice()),
        _ => false,
    }
}

/// Whether an action calls one of these primitives.
fn calls_some(primitives: &[&[u8]], decls: &[Decl]) -> bool
    ensures { result ≡ calls_some (map referred primitives.now) decls.now }
{
    for decl in decls {
        if calls_in_decl(primitives, decl) {
            return true;
        }
    }
    false
}

/// Whether an action makes a further item.
fn makes_items(decls: &[Decl]) -> bool
    ensures { result ≡ calls_some making_items decls.now }
{
    calls_some(&MAKING_ITEMS, decls)
}

/// Whether an action calls the hash.
fn hashes(decls: &[Decl]) -> bool
    ensures { result ≡ calls_some hashing decls.now }
{
    calls_some(&HASHING, decls)
}

/// Whether a declaration keeps something from packet to packet, or calculates a field.
fn keeps_something(decl: &Decl) -> bool
    ensures { result ≡ keeps_something decl.now }
{
    matches!(
        decl,
        Decl::Counter(_) | Decl::Meter(_) | Decl::Register(_) | Decl::CalculatedField(_)
    )
}

/// The same of some of these declarations.
fn some_keeps(decls: &[Decl]) -> bool
    ensures { result ≡ list_any keeps_something decls.now }
{
    for decl in decls {
        if keeps_something(decl) {
            return true;
        }
    }
    false
}

/// The stage of a program in which no action makes a further item.
fn without_items(stateful: bool) -> Stage14
    ensures { result ≡ stage_without_items stateful }
{
    if stateful {
        Stage14::Stateful
    } else {
        Stage14::Plain
    }
}

/// How much the program of these declarations asks of what runs or translates it: `Reentrant` exactly where an action
/// calls a clone, resubmit or recirculate, else `Stateful` exactly where it declares a counter, a meter, a register or a
/// calculated field or calls the hash, and else `Plain`. It takes no memory.
pub fn stage_of(decls: &[Decl]) -> Stage14
    ensures { result ≡ stage_of decls.now }
{
    if makes_items(decls) {
        Stage14::Reentrant
    } else {
        without_items(some_keeps(decls) || hashes(decls))
    }
}
