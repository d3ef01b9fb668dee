// C13 after expansion: what is given for parameters and isn't taken where they end.
ghost use Rattle.std.specs.Prelude.{◌≡◌, ◌+◌, ◌&&◌, map, IfOk};
ghost use Rattle.std.specs.List.{list_any};
ghost use Rattle.p414_calls.specs.Shown.{shown_argument};
ghost use Rattle.p414_expanded_check.specs.internal.Passing.{refuses};
ghost use Rattle.p414_expanded_check.specs.internal.Flow.{is_set, refused_from, refused_in, some_refused};

use crate::flow::start_at;
use crate::forms::refuses;
use crate::marks::is_set;
use p4x_bits::OutOfMemory;
use p414_calls::{ActionCalls, Argument, Invocation, action_number};
use p414_names::Names14;
use p414_syntax::ArgumentPlace;

/// The next number; one that is too large is want of memory.
fn next(number: usize) -> Result<usize, OutOfMemory>
    ensures { IfOk result (λ found. found ≡ number + 1) }
{
    match number.checked_add(1) {
        Some(found) => Ok(found),
        None => Err(OutOfMemory),
    }
}

/// Whether an argument is given for a parameter whose number is come to, and isn't taken at the place.
fn is_refused(place: ArgumentPlace, flags: &[bool], number: usize, argument: &Argument<'_>) -> bool
    ensures { result ≡ (is_set flags.now number && refuses place (shown_argument argument.now)) }
{
    is_set(flags, number) && refuses(place, argument)
}

/// The same of the arguments of a call, whose parameters have the numbers from this one on.
#[tactic(auto, using(crate::proofs::Loops::refused_now))]
fn some_argument(
    place: ArgumentPlace,
    flags: &[bool],
    from: usize,
    arguments: &[Argument<'_>],
) -> Result<bool, OutOfMemory>
    ensures { IfOk result (λ found. found ≡ refused_from place flags.now from (map shown_argument arguments.now)) }
{
    let mut number = from;
    for argument in arguments {
        if is_refused(place, flags, number, argument) {
            return Ok(true);
        }
        number = next(number)?;
    }
    Ok(false)
}

/// The same of a call.
fn is_call_refused(
    names: &Names14<'_>,
    place: ArgumentPlace,
    flags: &[bool],
    starts: &[usize],
    call: &Invocation<'_>,
) -> Result<bool, OutOfMemory>
    ensures { IfOk result (λ found. found ≡ refused_in names.now place flags.now starts.now call.now) }
{
    match action_number(names, call.callee()) {
        Some(action) => some_argument(place, flags, start_at(starts, action), call.arguments()),
        None => Ok(false),
    }
}

/// The same of one of these calls.
fn some_call(
    names: &Names14<'_>,
    place: ArgumentPlace,
    flags: &[bool],
    starts: &[usize],
    calls: &[Invocation<'_>],
) -> Result<bool, OutOfMemory>
    ensures { IfOk result (λ found. found ≡ list_any (refused_in names.now place flags.now starts.now) calls.now) }
{
    for call in calls {
        if is_call_refused(names, place, flags, starts, call)? {
            return Ok(true);
        }
    }
    Ok(false)
}

/// The same of the calls of one of the actions.
pub fn some_refused(
    names: &Names14<'_>,
    place: ArgumentPlace,
    flags: &[bool],
    starts: &[usize],
    calls: &[ActionCalls<'_>],
) -> Result<bool, OutOfMemory>
    ensures { IfOk result (λ found. found ≡ some_refused names.now place flags.now starts.now calls.now) }
{
    for action in calls {
        if some_call(names, place, flags, starts, action.as_slice())? {
            return Ok(true);
        }
    }
    Ok(false)
}
