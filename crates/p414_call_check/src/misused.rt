// C27: where parameters stand.
ghost use Rattle.std.specs.Prelude.{◌≡◌, map};
ghost use Rattle.std.specs.List.{list_any};
ghost use Rattle.p414_syntax.specs.Parameters.{is_read, is_misused_parameter};
ghost use Rattle.p414_call_check.specs.Shown.{shown_placed};

use crate::placed::PlacedArgument;
use p414_calls::Argument;
use p414_syntax::ArgumentPlace;

/// Whether a number is taken from a place.
fn is_read(place: ArgumentPlace) -> bool
    ensures { result ≡ is_read place }
{
    matches!(place, ArgumentPlace::Source | ArgumentPlace::Unsigned)
}

/// Whether an argument is a parameter where no number is taken.
fn is_misused_parameter(placed: &PlacedArgument<'_>) -> bool
    ensures { result ≡ is_misused_parameter (shown_placed placed.now) }
{
    match placed.argument {
        Argument::Parameter(_) => !is_read(placed.wanted),
        _ => false,
    }
}

/// Whether a parameter stands where no number is taken (C27), among all arguments of a program.
pub fn has_misused_parameter(placed: &[PlacedArgument<'_>]) -> bool
    ensures { result ≡ list_any is_misused_parameter (map shown_placed placed.now) }
{
    for argument in placed {
        if is_misused_parameter(argument) {
            return true;
        }
    }
    false
}
