// C13: the calls as they are written.
ghost use Rattle.std.specs.Prelude.{◌≡◌, map};
ghost use Rattle.std.specs.List.{list_any};
ghost use Rattle.p414_syntax.specs.Arguments.{actions, invocations_of, placed};
ghost use Rattle.p414_syntax.specs.Calls.{optional_count, is_wrong_count, is_wrong_argument, copies_other_type, takes_others, is_wrong_call, has_wrong_call};
ghost use Rattle.p414_calls.specs.Shown.{shown_argument};
ghost use Rattle.p414_call_check.specs.Shown.{shown_wanted, call_of};
ghost use Rattle.p414_call_check.specs.internal.Placing.{is_wrong_placed, takes_other_arguments, is_wrong_action};

use crate::forms::takes;
use crate::types::have_other_types;
use crate::wanted::{Wanted, wanted_of};
use p414_calls::{ActionCalls, Argument, Invocation};
use p414_names::{Names14, is_among};
use p414_syntax::ArgumentPlace;

/// The primitives whose last argument may be left out.
const WITH_OPTIONAL_LAST: [&[u8]; 9] = [
    b"modify_field",
    b"push",
    b"pop",
    b"resubmit",
    b"recirculate",
    b"clone_ingress_pkt_to_egress",
    b"clone_i2e",
    b"clone_egress_pkt_to_egress",
    b"clone_e2e",
];

const COPY_HEADER: &[u8] = b"copy_header";

/// How many of the arguments may be left out.
fn optional_count(callee: &[u8]) -> usize
    ensures { result ≡ optional_count callee.now }
{
    if is_among(callee, &WITH_OPTIONAL_LAST) {
        1
    } else {
        0
    }
}

/// Whether so many arguments are too many or too few.
fn is_wrong_count(callee: &[u8], wanted: usize, given: usize) -> bool
    ensures { result ≡ is_wrong_count callee.now wanted given }
{
    wanted < given || optional_count(callee) < wanted - given
}

/// Whether an argument isn't what is wanted of it, if anything is.
fn is_wrong_placed(
    names: &Names14<'_>,
    wanted: Option<ArgumentPlace>,
    argument: Argument<'_>,
) -> bool
    ensures { result ≡ is_wrong_placed names.now wanted (shown_argument argument.entry) }
{
    match wanted {
        Some(place) => !takes(names, place, argument),
        None => false,
    }
}

/// Whether that is so of one of these arguments.
fn some_wrong_placed(names: &Names14<'_>, wanted: &Wanted<'_>, arguments: &[Argument<'_>]) -> bool
    ensures { result ≡ list_any (is_wrong_argument names.now) (placed (shown_wanted wanted.now) (map shown_argument arguments.now)) }
{
    for (index, argument) in arguments.iter().enumerate() {
        if is_wrong_placed(names, wanted.place(index), *argument) {
            return true;
        }
    }
    false
}

/// Whether the arguments aren't those that are wanted.
#[tactic(auto, using(crate::proofs::Placing::argument_count))]
fn takes_others(
    names: &Names14<'_>,
    callee: &[u8],
    wanted: &Wanted<'_>,
    arguments: &[Argument<'_>],
) -> bool
    ensures { result ≡ takes_others names.now (call_of callee.now (map shown_argument arguments.now)) (shown_wanted wanted.now) }
{
    is_wrong_count(callee, wanted.len(), arguments.len())
        || some_wrong_placed(names, wanted, arguments)
}

/// The same, if anything is wanted of them.
fn takes_other_arguments(names: &Names14<'_>, callee: &[u8], arguments: &[Argument<'_>]) -> bool
    ensures { result ≡ takes_other_arguments names.now (call_of callee.now (map shown_argument arguments.now)) }
{
    match wanted_of(names, callee) {
        Some(wanted) => takes_others(names, callee, &wanted, arguments),
        None => false,
    }
}

/// Whether a header is copied to one of another type.
fn copies_other_type(names: &Names14<'_>, callee: &[u8], arguments: &[Argument<'_>]) -> bool
    ensures { result ≡ copies_other_type names.now (call_of callee.now (map shown_argument arguments.now)) }
{
    callee == COPY_HEADER && have_other_types(names, arguments)
}

/// Whether a call has a wrong number of arguments or one of a wrong form (C13).
pub fn is_wrong_call(names: &Names14<'_>, callee: &[u8], arguments: &[Argument<'_>]) -> bool
    ensures { result ≡ is_wrong_call names.now (call_of callee.now (map shown_argument arguments.now)) }
{
    takes_other_arguments(names, callee, arguments) || copies_other_type(names, callee, arguments)
}

/// Whether that is so of one of these calls.
fn some_wrong_call(names: &Names14<'_>, calls: &[Invocation<'_>]) -> bool
    ensures { result ≡ list_any (is_wrong_call names.now) calls.now }
{
    for call in calls {
        if is_wrong_call(names, call.callee(), call.arguments()) {
            return true;
        }
    }
    false
}

/// Whether that is so of a call of one of these actions.
fn some_wrong_action(names: &Names14<'_>, calls: &[ActionCalls<'_>]) -> bool
    ensures { result ≡ list_any (is_wrong_action names.now) calls.now }
{
    for action in calls {
        if some_wrong_call(names, action.as_slice()) {
            return true;
        }
    }
    false
}

/// Whether a call, as it is written, has a wrong number of arguments or one of a wrong form (C13).
#[tactic(auto, using(crate::proofs::Placing::any_call))]
pub fn has_wrong_call(names: &Names14<'_>, calls: &[ActionCalls<'_>]) -> bool
    requires { calls.now ≡ map invocations_of (actions names.now) }
    ensures { result ≡ has_wrong_call names.now }
{
    some_wrong_action(names, calls)
}
