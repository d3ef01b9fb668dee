// The arguments of one call with what is wanted of each.
ghost use Rattle.std.specs.Prelude.{◌≡◌, ◌++◌, map, IfOk, OnOk};
ghost use Rattle.p414_syntax.specs.Arguments.{placed, placed_in};
ghost use Rattle.p414_calls.specs.Shown.{shown_argument};
ghost use Rattle.p414_call_check.specs.Shown.{shown_wanted, shown_placed};
ghost use Rattle.p414_parameter_widths.specs.internal.Noting.{placed_with};

use p4x_bits::OutOfMemory;
use p414_call_check::{PlacedArgument, Wanted, wanted_of};
use p414_calls::{Argument, Invocation};
use p414_names::Names14;
use p414_syntax::ArgumentPlace;
use std::alloc::Global;

/// Puts an argument last, if something is wanted of it.
fn add_argument<'a>(
    found: &mut Vec<PlacedArgument<'a>>,
    wanted: Option<ArgumentPlace>,
    argument: Argument<'a>,
) -> Result<(), OutOfMemory>
    ensures { OnOk result (map shown_placed found.new.items ≡ map shown_placed found.old.items ++ placed_with wanted (shown_argument argument.entry)) }
{
    if let Some(wanted) = wanted {
        found.push(PlacedArgument { wanted, argument })?;
    }
    Ok(())
}

/// These arguments, each with its place; one without a place is left out.
fn placed_by<'a>(
    alloc: Global,
    wanted: &Wanted<'_>,
    arguments: &[Argument<'a>],
) -> Result<Vec<PlacedArgument<'a>>, OutOfMemory>
    ensures { IfOk result (λ found. map shown_placed found.items ≡ placed (shown_wanted wanted.now) (map shown_argument arguments.now)) }
{
    let mut found = Vec::new(alloc);
    for (index, argument) in arguments.iter().enumerate() {
        add_argument(&mut found, wanted.place(index), *argument)?;
    }
    Ok(found)
}

/// The arguments of a call that have a place, in order. The one error is want of memory.
pub fn placed_in<'a>(
    alloc: Global,
    names: &Names14<'_>,
    call: &Invocation<'a>,
) -> Result<Vec<PlacedArgument<'a>>, OutOfMemory>
    ensures { IfOk result (λ found. map shown_placed found.items ≡ placed_in names.now call.now) }
{
    match wanted_of(names, call.callee()) {
        Some(wanted) => placed_by(alloc, &wanted, call.arguments()),
        None => Ok(Vec::new(alloc)),
    }
}
