// Calls of actions, expanded.
ghost use Rattle.std.specs.Prelude.{◌≡◌, ◌++◌, ◌∷◌, List, [], map, Some, IfOk, MatchOption, OnOk};
ghost use Rattle.p414_syntax.specs.Arguments.{Invocation as Called, action_number};
ghost use Rattle.p414_syntax.specs.ActionExpansion.{CallsExpand, given_for};
ghost use Rattle.p414_calls.specs.Shown.{shown_argument};
ghost use Rattle.p414_ready_actions.specs.Meaning.{AreRows, Means};
ghost use Rattle.p414_ready_actions.specs.Words.{row_of};
ghost use Rattle.p414_ready_actions.specs.declared.rows.ReadyPrimitive as ready;
ghost use Rattle.p414_ready_actions.specs.internal.Steps.{Steps, waiting};

use crate::names::ActionNames;
use crate::primitives::row_of;
use crate::rows::ReadyPrimitive;
use p4x_bits::{OutOfMemory, Rows};
use p414_calls::{Argument, Invocation};
use std::alloc::Global;
use std::marker::Model;
use work_stack::Stack;

/// Calls of an action that wait, and what it is called with. Contracts see them as calls with these arguments.
#[derive(Drop)]
struct Body<'c, 'a> {
    calls: &'c [Invocation<'a>],
    given: Vec<Argument<'a>>,
}

impl<'c, 'a> Model for Body<'c, 'a> {
    ghost use Rattle.std.specs.Prelude.{List, map};
    ghost use Rattle.p414_syntax.specs.Arguments.{Invocation as Called};
    ghost use Rattle.p414_syntax.specs.ActionExpansion.{invoked_with};
    ghost use Rattle.p414_calls.specs.Shown.{shown_argument};

    ghost Value = { List Called };

    ghost view = { λ b. map (invoked_with (map shown_argument b.given.items)) b.calls.now };
}

/// What an argument stands for, where its action is called with these.
#[tactic(auto, using(crate::proofs::Places::given_there, crate::proofs::Places::given_none))]
fn given_for<'a>(given: &[Argument<'a>], argument: &Argument<'a>) -> Argument<'a>
    ensures { shown_argument result ≡ given_for (map shown_argument given.now) (shown_argument argument.now) }
{
    match argument {
        Argument::Parameter(number) => match given.get(*number) {
            Some(found) => *found,
            None => Argument::Parameter(*number),
        },
        Argument::Number(number) => Argument::Number(*number),
        Argument::Field(field) => Argument::Field(field),
        Argument::Named(named) => Argument::Named(named),
    }
}

/// What arguments stand for, where their action is called with these.
fn all_given<'a>(
    alloc: Global,
    given: &[Argument<'a>],
    arguments: &[Argument<'a>],
) -> Result<Vec<Argument<'a>>, OutOfMemory>
    ensures { IfOk result (λ found. map shown_argument found.items ≡ map (given_for (map shown_argument given.now)) (map shown_argument arguments.now)) }
{
    let mut found = Vec::new(alloc);
    for argument in arguments {
        found.push(given_for(given, argument))?;
    }
    Ok(found)
}

/// The calls of an action that is called with these arguments are to be expanded, unless nothing comes of them.
#[tactic(auto, using(crate::proofs::Stepping::left_out))]
fn enter<'c, 'a>(
    left: &mut Stack<Body<'c, 'a>>,
    names: &'c ActionNames<'_, 'a>,
    callee: &[u8],
    number: usize,
    given: Vec<Argument<'a>>,
) -> Result<(), OutOfMemory>
    requires { action_number names.now callee.now ≡ Some number }
    ensures { OnOk result ((rows : List ready.ReadyPrimitive) → Steps names.now (record { callee = callee.now; arguments = map shown_argument given.entry.items } ∷ waiting left.old) rows (waiting left.new) rows) }
{
    let Some(calls) = names.calls(number) else {
        return Err(OutOfMemory);
    };
    if names.is_empty(number) {
        return Ok(());
    }
    left.push(Body {
        calls: calls.as_slice(),
        given,
    })?;
    Ok(())
}

/// A call with these arguments is expanded: a primitive makes a row, and an action's calls are to be expanded.
#[tactic(auto, using(crate::proofs::Stepping::one_row))]
fn expand_call<'c, 'a>(
    left: &mut Stack<Body<'c, 'a>>,
    rows: &mut Rows<ReadyPrimitive>,
    names: &'c ActionNames<'_, 'a>,
    callee: &[u8],
    given: Vec<Argument<'a>>,
) -> Result<(), OutOfMemory>
    ensures { OnOk result (Steps names.now (record { callee = callee.now; arguments = map shown_argument given.entry.items } ∷ waiting left.old) rows.old (waiting left.new) rows.new) }
{
    match names.action(callee) {
        Some(number) => {
            enter(left, names, callee, number, given)?;
            Ok(())
        }
        None => {
            let row = row_of(names, callee, &given)?;
            rows.push(row)?;
            Ok(())
        }
    }
}

/// The name and the arguments of the first of these calls, and the others; none where there is no call.
#[tactic(auto, using(crate::proofs::Stepping::first_bound))]
fn take_first<'c, 'a>(
    alloc: Global,
    body: Body<'c, 'a>,
) -> Result<Option<(&'a [u8], Vec<Argument<'a>>, Body<'c, 'a>)>, OutOfMemory>
    ensures { IfOk result (λ taken. MatchOption taken (body.entry ≡ []) (λ parts. body.entry ≡ record { callee = parts.0.now; arguments = map shown_argument parts.1.items } ∷ parts.2)) }
{
    let Body { calls, given } = body;
    match calls {
        [first, rest @ ..] => {
            let bound = all_given(alloc, &given, first.arguments())?;
            Ok(Some((first.callee(), bound, Body { calls: rest, given })))
        }
        [] => Ok(None),
    }
}

/// The first of these calls is expanded, if there is one, and the others wait.
#[tactic(auto, using(crate::proofs::Stepping::none_taken, crate::proofs::Stepping::first_taken))]
fn expand_first<'c, 'a>(
    alloc: Global,
    left: &mut Stack<Body<'c, 'a>>,
    rows: &mut Rows<ReadyPrimitive>,
    names: &'c ActionNames<'_, 'a>,
    body: Body<'c, 'a>,
) -> Result<(), OutOfMemory>
    ensures { OnOk result (Steps names.now (body.entry ++ waiting left.old) rows.old (waiting left.new) rows.new) }
{
    match take_first(alloc, body)? {
        Some((callee, given, rest)) => {
            left.push(rest)?;
            expand_call(left, rows, names, callee, given)?;
            Ok(())
        }
        None => Ok(()),
    }
}

/// The rows of calls in an action whose parameters stay.
#[tactic(auto, using(crate::proofs::Stepping::begun, crate::proofs::Stepping::one_more, crate::proofs::Stepping::ended))]
fn rows_of_calls<'c, 'a>(
    alloc: Global,
    names: &'c ActionNames<'_, 'a>,
    calls: &'c [Invocation<'a>],
) -> Result<Rows<ReadyPrimitive>, OutOfMemory>
    ensures { IfOk result (λ rows. (all : List Called) → CallsExpand names.now calls.now all → rows ≡ map (row_of names.now) all) }
{
    let mut rows = Rows::new(alloc);
    let mut left = Stack::new(alloc);
    left.push(Body {
        calls,
        given: Vec::new(alloc),
    })?;
    for _ in 0..u64::MAX {
        match left.pop() {
            Some(body) => expand_first(alloc, &mut left, &mut rows, names, body)?,
            None => return Ok(rows),
        }
    }
    Err(OutOfMemory)
}

/// The rows of the action with this number.
#[tactic(auto, using(crate::proofs::Stepping::are_rows))]
fn rows_of_action(
    alloc: Global,
    names: &ActionNames<'_, '_>,
    action: u32,
) -> Result<Rows<ReadyPrimitive>, OutOfMemory>
    ensures { IfOk result (AreRows names.now action) }
{
    let Some(calls) = names.calls(action as usize) else {
        return Err(OutOfMemory);
    };
    let rows = rows_of_calls(alloc, names, calls.as_slice())?;
    Ok(rows)
}

/// The rows of the action with this number, from 0 in the order of declaration, where the arguments of calls stand in the place
/// of parameters and the parameters of the action itself stay (P4_14 1.0.5, "Actions", "Primitive Actions"): run on a state
/// and a store, under either rule and with any arguments, they do what the action does. In time linear in the primitives that
/// come of it, each counted once for each action that it stands within. The one error is want of memory, which numbers count
/// as that are too large to keep, and arguments of a wrong form, such as no program has that breaks no rule.
#[tactic(auto, using(crate::proofs::Acting::rows_mean))]
pub fn ready_action(
    alloc: Global,
    names: &ActionNames<'_, '_>,
    action: u32,
) -> Result<Rows<ReadyPrimitive>, OutOfMemory>
    ensures are { IfOk result (AreRows names.now action) }
    ensures means { IfOk result (Means names.now action) }
{
    let rows = rows_of_action(alloc, names, action)?;
    Ok(rows)
}
