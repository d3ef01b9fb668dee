// The names of a block.
ghost use Rattle.std.specs.Prelude.{◌≡◌, map, IfOk};
ghost use Rattle.p416_syntax.specs.Declarations.{layouts_of};
ghost use Rattle.v1_core.specs.Programs.{frame_kinds, first_start};
ghost use Rattle.v1_ready_forms.specs.Named.{seats_in};
ghost use Rattle.v1_seats.specs.Seen.{seen_seat};
ghost use Rattle.v1_seats.specs.Frame.{seats_from};
ghost use Rattle.v1_ready_program.specs.Seen.{seen_seats};
ghost use Rattle.v1_block_laws.specs.Variables.{own_names, parser_roots, control_roots};
ghost use Rattle.v1_block_seats.specs.Seen.{seen_variable};

use crate::numbers::Variable;
use crate::roots::{declare_of_control, declare_of_parser};
use crate::variables::declare_variables;
use p4x_bits::OutOfMemory;
use p416_syntax::{Control16, Parser16, Syntax16};
use std::alloc::Global;
use v1_core::Block;
use v1_ready_program::NamedSeats;
use v1_seats::Seat;

/// The names of a parser with these variables, given the seats of all values of the frames of its program: its parameters, and
/// its variables outside them. The one error is want of memory, which another number of parameters than a parser of an accepted
/// program has counts as.
pub fn parser_seats<'a>(
    alloc: Global,
    syntax: &Syntax16,
    seats: &[Seat<'a>],
    parser: &'a Parser16,
    variables: &[Variable<'a>],
) -> Result<NamedSeats<'a>, OutOfMemory>
    requires { map seen_seat seats.now ≡ seats_from (layouts_of syntax.now.decls) (frame_kinds syntax.now) first_start }
    ensures { IfOk result (λ names. seen_seats names ≡ seats_in syntax.now (parser_roots parser.now) (own_names (map seen_variable variables.now))) }
{
    let mut names = NamedSeats::new(alloc);
    declare_variables(&mut names, seats, variables)?;
    declare_of_parser(&mut names, seats, parser.parameters.as_slice())?;
    Ok(names)
}

/// The names of a control that stands as this block, with these variables; as `parser_seats`.
pub fn control_seats<'a>(
    alloc: Global,
    syntax: &Syntax16,
    seats: &[Seat<'a>],
    block: Block,
    control: &'a Control16,
    variables: &[Variable<'a>],
) -> Result<NamedSeats<'a>, OutOfMemory>
    requires { map seen_seat seats.now ≡ seats_from (layouts_of syntax.now.decls) (frame_kinds syntax.now) first_start }
    ensures { IfOk result (λ names. seen_seats names ≡ seats_in syntax.now (control_roots block control.now) (own_names (map seen_variable variables.now))) }
{
    let mut names = NamedSeats::new(alloc);
    declare_variables(&mut names, seats, variables)?;
    declare_of_control(&mut names, seats, block, control.parameters.as_slice())?;
    Ok(names)
}
