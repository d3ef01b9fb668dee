// C13 after expansion: what a place doesn't take.
ghost use Rattle.std.specs.Prelude.{◌≡◌};
ghost use Rattle.p414_calls.specs.Shown.{shown_argument};
ghost use Rattle.p414_expanded_check.specs.internal.Passing.{refuses};

use p414_call_check::{takes_field, takes_number};
use p414_calls::Argument;
use p414_syntax::ArgumentPlace;

/// Whether a place doesn't take a number or a field.
pub fn refuses(place: ArgumentPlace, argument: &Argument<'_>) -> bool
    ensures { result ≡ refuses place (shown_argument argument.now) }
{
    match argument {
        Argument::Number(number) => !takes_number(place, *number),
        Argument::Field(_) => !takes_field(place),
        Argument::Parameter(_) => false,
        Argument::Named(_) => false,
    }
}
