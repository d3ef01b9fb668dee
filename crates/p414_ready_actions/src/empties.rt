// Actions that come to no primitive. They are left out where they are called, so that expanding takes no more steps than the
// primitives that come of it, each for as many actions as it stands within.
ghost use Rattle.std.specs.Prelude.{◌≡◌, map, option_copied, slice_get, IfOk};
ghost use Rattle.std.specs.List.{list_all};
ghost use Rattle.p414_syntax.specs.Arguments.{actions, invocations_of};
ghost use Rattle.p414_ready_actions.specs.internal.Empty.{AreEmpty, is_empty_call, is_marked};

use p4x_bits::OutOfMemory;
use p414_calls::{ActionCalls, Invocation, action_number};
use p414_names::Names14;
use std::alloc::Global;

/// Whether an action is marked.
pub fn is_marked(marks: &[bool], action: usize) -> bool
    ensures { result ≡ is_marked marks.now action }
{
    match marks.get(action) {
        Some(mark) => *mark,
        None => false,
    }
}

/// Whether a call is one of an action that is marked.
fn is_empty_call(names: &Names14<'_>, marks: &[bool], call: &Invocation<'_>) -> bool
    ensures { result ≡ is_empty_call names.now marks.now call.now }
{
    match action_number(names, call.callee()) {
        Some(number) => is_marked(marks, number),
        None => false,
    }
}

/// Whether all calls are ones of actions that are marked.
fn is_empty_body(names: &Names14<'_>, marks: &[bool], calls: &[Invocation<'_>]) -> bool
    ensures { result ≡ list_all (is_empty_call names.now marks.now) calls.now }
{
    for call in calls {
        if !is_empty_call(names, marks, call) {
            return false;
        }
    }
    true
}

/// The calls of the action with a number.
fn calls_at<'c, 'a>(calls: &'c [ActionCalls<'a>], action: usize) -> Option<&'c ActionCalls<'a>>
    ensures { option_copied result ≡ slice_get calls.now action }
{
    calls.get(action)
}

/// Marks an action, if all its calls are ones of actions that are marked.
fn mark(marks: &mut Vec<bool>, names: &Names14<'_>, calls: &[ActionCalls<'_>], action: usize)
    requires { calls.now ≡ map invocations_of (actions names.now) }
    ensures { AreEmpty names.now marks.old.items → AreEmpty names.now marks.new.items }
{
    let Some(found) = calls_at(calls, action) else {
        return;
    };
    if action < marks.len() && is_empty_body(names, marks, found.as_slice()) {
        marks[action] = true;
    }
}

/// The actions that come to no primitive, where these stand in an order in which each is behind those that it calls: more are
/// never marked, whatever the order is. The one error is want of memory.
#[tactic(auto, using(crate::proofs::Emptying::none_marked))]
pub fn empties(
    alloc: Global,
    names: &Names14<'_>,
    calls: &[ActionCalls<'_>],
    order: &[usize],
) -> Result<Vec<bool>, OutOfMemory>
    requires { calls.now ≡ map invocations_of (actions names.now) }
    ensures { IfOk result (λ marks. AreEmpty names.now marks.items) }
{
    let mut marks = vec![in alloc; false; calls.len()]?;
    for action in order {
        mark(&mut marks, names, calls, *action);
    }
    Ok(marks)
}
