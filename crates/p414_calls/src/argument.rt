// What the arguments of a call stand for.
ghost use Rattle.std.specs.Prelude.{◌≡◌, map, IfOk};
ghost use Rattle.p414_syntax.specs.Arguments.{argument_by_name, argument_of};
ghost use Rattle.p414_calls.specs.Shown.{shown_argument};

use name_numbers::{Numbering, number_names};
use p4x_bits::{OutOfMemory, Text};
use p414_syntax::{Arg, Inst, Number, Ref};
use std::alloc::Global;

/// What an argument of a call stands for (P4_14 1.0.5, "Actions").
#[derive(Clone, Copy, Drop)]
pub enum Argument<'a> {
    /// A number.
    Number(Number),
    /// A field.
    Field(&'a Ref),
    /// The parameter of the action with this number, from 0.
    Parameter(usize),
    /// What is declared by this name: an instance, an object, a list or a calculation; or an element of a stack.
    Named(&'a Inst),
}

/// The parameters of an action, to look them up. The one error is want of memory.
pub fn parameters_of(alloc: Global, parameters: &[Text]) -> Result<Numbering<'_>, OutOfMemory>
    ensures { IfOk result (λ found. found ≡ parameters.now) }
{
    let mut names = Vec::new(alloc);
    for parameter in parameters {
        names.push(parameter.as_slice())?;
    }
    number_names(alloc, names)
}

/// What a name or an element of a stack stands for in an action with these parameters.
fn argument_by_name<'a>(parameters: &Numbering<'_>, instance: &'a Inst) -> Argument<'a>
    ensures { shown_argument result ≡ argument_by_name parameters.now instance.now }
{
    if instance.index.is_some() {
        return Argument::Named(instance);
    }
    match parameters.find(instance.name.as_slice()) {
        Some(number) => Argument::Parameter(number as usize),
        None => Argument::Named(instance),
    }
}

/// What an argument stands for in an action with these parameters.
fn argument_of<'a>(parameters: &Numbering<'_>, argument: &'a Arg) -> Argument<'a>
    ensures { shown_argument result ≡ argument_of parameters.now argument.now }
{
    match argument {
        Arg::Number(number) => Argument::Number(*number),
        Arg::Field(field) => Argument::Field(field),
        Arg::Instance(instance) => argument_by_name(parameters, instance),
    }
}

/// What these arguments stand for. The one error is want of memory.
pub fn arguments_of<'a>(
    alloc: Global,
    parameters: &Numbering<'_>,
    arguments: &'a [Arg],
) -> Result<Vec<Argument<'a>>, OutOfMemory>
    ensures { IfOk result (λ found. map shown_argument found.items ≡ map (argument_of parameters.now) arguments.now) }
{
    let mut found = Vec::new(alloc);
    for argument in arguments {
        found.push(argument_of(parameters, argument))?;
    }
    Ok(found)
}
