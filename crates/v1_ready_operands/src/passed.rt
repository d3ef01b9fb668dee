// The parameters of an action with their arguments.
ghost use Rattle.std.specs.Prelude.{◌≡◌, ◌+◌, [], List, Some, IfOk};
ghost use Rattle.p416_syntax.specs.Scopes.{Scope};
ghost use Rattle.v1_ready_forms.specs.Named.{NamedSeat};
ghost use Rattle.v1_ready_statements.specs.Around.{Around};
ghost use Rattle.v1_ready_statements.specs.Given.{all_incoming, all_outgoing};
ghost use Rattle.v1_ready_operands.specs.internal.Passes.{behind_in, behind_out};

use p4x_bits::OutOfMemory;
use p416_syntax::{ExpView, Param};
use std::alloc::Global;
use work_stack::Stack;

/// A parameter of an action with its argument.
#[derive(Drop)]
pub struct Passed<'a> {
    /// The parameter.
    pub parameter: &'a Param,
    /// Its number among all variables and parameters of actions of the program, from 0.
    pub number: usize,
    /// The argument.
    pub argument: ExpView<'a>,
}

/// The number behind this one. One that is too large for an address counts as want of memory.
fn further(number: usize) -> Result<usize, OutOfMemory>
    ensures { IfOk result (λ next. next ≡ number + 1) }
{
    number.checked_add(1).ok_or(OutOfMemory)
}

/// These parameters, of which the first has this number, with their arguments; the last one is in front. The one error is want of
/// memory, which more or fewer arguments than parameters count as: no accepted program has such a call.
pub fn passed_to<'a>(
    alloc: Global,
    first: usize,
    parameters: &'a [Param],
    mut arguments: Stack<ExpView<'a>>,
) -> Result<Stack<Passed<'a>>, OutOfMemory>
    ensures incoming { IfOk result (λ passed. (b : Around) (s : Scope) (seats : List NamedSeat) → behind_in b s seats passed (Some []) ≡ all_incoming b s seats first parameters.now arguments.entry) }
    ensures outgoing { IfOk result (λ passed. (b : Around) (s : Scope) (seats : List NamedSeat) → behind_out b s seats passed (Some []) ≡ all_outgoing b s seats first parameters.now arguments.entry) }
{
    let mut passed = Stack::new(alloc);
    let mut number = first;
    for parameter in parameters {
        let Some(argument) = arguments.pop() else {
            return Err(OutOfMemory);
        };
        passed.push(Passed {
            parameter,
            number,
            argument,
        })?;
        number = further(number)?;
    }
    match arguments.pop() {
        Some(_) => Err(OutOfMemory),
        None => Ok(passed),
    }
}
