// Arguments with what is wanted of each.
ghost use Rattle.std.specs.Prelude.{◌≡◌, ◌++◌, map, flat_map, IfOk, OnOk};
ghost use Rattle.p414_syntax.specs.Arguments.{actions, invocations_of, placed, placed_in, placed_arguments};
ghost use Rattle.p414_calls.specs.Shown.{shown_argument};
ghost use Rattle.p414_call_check.specs.Shown.{shown_wanted, shown_placed, call_of};
ghost use Rattle.p414_call_check.specs.internal.Placing.{placed_with, placed_in_action};

use crate::wanted::{Wanted, wanted_of};
use p4x_bits::OutOfMemory;
use p414_calls::{ActionCalls, Argument, Invocation};
use p414_names::Names14;
use p414_syntax::ArgumentPlace;
use std::alloc::Global;

/// An argument with what is wanted of it. Contracts see it as a record of what is wanted and of what the argument stands
/// for, by `shown_placed`.
#[derive(Clone, Copy, Drop)]
pub struct PlacedArgument<'a> {
    /// What is wanted.
    pub wanted: ArgumentPlace,
    /// What the argument stands for.
    pub argument: Argument<'a>,
}

/// Puts an argument last, if something is wanted of it.
fn add_argument<'a>(
    found: &mut Vec<PlacedArgument<'a>>,
    wanted: Option<ArgumentPlace>,
    argument: Argument<'a>,
) -> Result<(), OutOfMemory>
    ensures { OnOk result (map shown_placed found.new.items ≡ map shown_placed found.old.items ++ placed_with wanted (shown_argument argument.entry)) }
{
    if let Some(wanted) = wanted {
        found.push(PlacedArgument { wanted, argument })?;
    }
    Ok(())
}

/// Puts arguments last, each with its place; one without a place is left out.
fn add_arguments<'a>(
    found: &mut Vec<PlacedArgument<'a>>,
    wanted: &Wanted<'_>,
    arguments: &[Argument<'a>],
) -> Result<(), OutOfMemory>
    ensures { OnOk result (map shown_placed found.new.items ≡ map shown_placed found.old.items ++ placed (shown_wanted wanted.now) (map shown_argument arguments.now)) }
{
    for (index, argument) in arguments.iter().enumerate() {
        add_argument(found, wanted.place(index), *argument)?;
    }
    Ok(())
}

/// The same of the arguments of a call.
fn add_call<'a>(
    found: &mut Vec<PlacedArgument<'a>>,
    names: &Names14<'_>,
    callee: &[u8],
    arguments: &[Argument<'a>],
) -> Result<(), OutOfMemory>
    ensures { OnOk result (map shown_placed found.new.items ≡ map shown_placed found.old.items ++ placed_in names.now (call_of callee.now (map shown_argument arguments.now))) }
{
    match wanted_of(names, callee) {
        Some(wanted) => add_arguments(found, &wanted, arguments),
        None => Ok(()),
    }
}

/// Puts the arguments of these calls last.
fn add_calls<'a>(
    found: &mut Vec<PlacedArgument<'a>>,
    names: &Names14<'_>,
    calls: &[Invocation<'a>],
) -> Result<(), OutOfMemory>
    ensures { OnOk result (map shown_placed found.new.items ≡ map shown_placed found.old.items ++ placed_in_action names.now calls.now) }
{
    for call in calls {
        add_call(found, names, call.callee(), call.arguments())?;
    }
    Ok(())
}

/// The arguments of the calls of all these actions.
fn placed_of<'a>(
    alloc: Global,
    names: &Names14<'_>,
    calls: &[ActionCalls<'a>],
) -> Result<Vec<PlacedArgument<'a>>, OutOfMemory>
    ensures { IfOk result (λ found. map shown_placed found.items ≡ flat_map (placed_in_action names.now) calls.now) }
{
    let mut found = Vec::new(alloc);
    for action in calls {
        add_calls(&mut found, names, action.as_slice())?;
    }
    Ok(found)
}

/// All arguments that stand in the actions of a program and have a place, in order. The one error is want of memory.
pub fn placed_arguments<'a>(
    alloc: Global,
    names: &Names14<'_>,
    calls: &[ActionCalls<'a>],
) -> Result<Vec<PlacedArgument<'a>>, OutOfMemory>
    requires { calls.now ≡ map invocations_of (actions names.now) }
    ensures { IfOk result (λ found. map shown_placed found.items ≡ placed_arguments names.now) }
{
    placed_of(alloc, names, calls)
}
