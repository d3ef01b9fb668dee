// Seats of values of a frame by their numbers.
ghost use Rattle.std.specs.Prelude.{◌≡◌, ◌∷◌, ◌++◌, map, option_map, IfOk, OnOk};
ghost use Rattle.p416_syntax.specs.Declarations.{layouts_of};
ghost use Rattle.v1_core.specs.Slots.{the_variable};
ghost use Rattle.v1_core.specs.Programs.{frame_kinds, first_start, owner_seat};
ghost use Rattle.v1_seats.specs.Seen.{seen_seat};
ghost use Rattle.v1_seats.specs.Frame.{seats_from};
ghost use Rattle.v1_ready_program.specs.Seen.{seen_seats};
ghost use Rattle.v1_block_seats.specs.internal.Wanted.{seat_with, named_own};

use crate::counting::further;
use crate::numbers::Variable;
use p4x_bits::OutOfMemory;
use p416_syntax::Syntax16;
use v1_ready_program::NamedSeats;
use v1_seats::Seat;

/// How many values of a frame stand in front of its variables: headers, metadata and standard metadata.
const BEFORE: usize = 3;

/// The seat with a number, where there is one.
pub(crate) fn seat_with<'a>(seats: &[Seat<'a>], number: usize) -> Option<Seat<'a>>
    ensures { option_map seen_seat result ≡ seat_with seats.now number }
{
    match seats.get(number) {
        Some(seat) => Some(*seat),
        None => None,
    }
}

/// The seat of the variable with this number, given those of all values of the frames of a program; none where no variable
/// has it. A number that is too large for an address counts as want of memory.
pub fn variable_seat<'a>(
    syntax: &Syntax16,
    seats: &[Seat<'a>],
    number: usize,
) -> Result<Option<Seat<'a>>, OutOfMemory>
    requires { map seen_seat seats.now ≡ seats_from (layouts_of syntax.now.decls) (frame_kinds syntax.now) first_start }
    ensures { IfOk result (λ found. option_map seen_seat found ≡ owner_seat syntax.now (the_variable number)) }
{
    let place = further(BEFORE, number)?;
    Ok(seat_with(seats, place))
}

/// Declares a variable inside the names in scope.
#[tactic(auto, using(crate::proofs::Seating::one_declared))]
fn declare_variable<'a>(
    names: &mut NamedSeats<'a>,
    seats: &[Seat<'a>],
    variable: Variable<'a>,
) -> Result<(), OutOfMemory>
    ensures { OnOk result (seen_seats names.new ≡ named_own seats.now variable.entry ∷ seen_seats names.old) }
{
    let place = further(BEFORE, variable.number)?;
    names.declare(variable.name, seat_with(seats, place))
}

/// Declares variables inside the names in scope; the first of them is the innermost.
pub(crate) fn declare_variables<'a>(
    names: &mut NamedSeats<'a>,
    seats: &[Seat<'a>],
    variables: &[Variable<'a>],
) -> Result<(), OutOfMemory>
    ensures { OnOk result (seen_seats names.new ≡ map (named_own seats.now) variables.now ++ seen_seats names.old) }
{
    for variable in variables.iter().rev() {
        declare_variable(names, seats, *variable)?;
    }
    Ok(())
}
