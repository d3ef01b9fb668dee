// The variables of a block with their numbers.
ghost use Rattle.std.specs.Prelude.{◌≡◌, ◌+◌, ◌++◌, length, map, flat_map, IfOk, OnOk};
ghost use Rattle.p416_scopes.specs.Seen.{seen_scope};
ghost use Rattle.v1_core.specs.Slots.{local_kinds};
ghost use Rattle.v1_block_laws.specs.Variables.{vars_from, own_variables, locals_from};
ghost use Rattle.v1_block_seats.specs.Seen.{seen_variable};
ghost use Rattle.v1_block_seats.specs.Numbers.{own_action, actions_from};

use crate::counting::{count_of, further};
use p4x_bits::OutOfMemory;
use p416_scopes::Scope;
use p416_syntax::{Local, Var};
use std::alloc::Global;
use v1_layout::add_local;

/// A variable by its name, and its number among all variables and parameters of actions of the program, from 0.
#[derive(Clone, Copy, Drop)]
pub struct Variable<'a> {
    /// The name.
    pub name: &'a [u8],
    /// The number.
    pub number: usize,
}

/// The numbers of what stands in a control.
pub struct ControlNumbers<'a> {
    /// The variables of the control.
    pub variables: Vec<Variable<'a>>,
    /// For each action, in the order of the text, the number of its first parameter.
    pub actions: Vec<usize>,
    /// The number of the first variable of the control's statements.
    pub body: usize,
}

impl Drop for ControlNumbers<'_> {
    fn drop(self) {
        let ControlNumbers {
            variables: _variables,
            actions: _actions,
            body: _body,
        } = self;
    }
}

/// The variables of a parser, of which the first has this number. The one error is want of memory, which numbers of more bits
/// than an address has count as.
#[tactic(auto, using(crate::proofs::Numbering::one_var_more))]
pub fn parser_variables<'a>(
    alloc: Global,
    first: usize,
    vars: &'a [Var],
) -> Result<Vec<Variable<'a>>, OutOfMemory>
    ensures { IfOk result (λ found. map seen_variable found.items ≡ vars_from first vars.now) }
{
    let mut found = Vec::new(alloc);
    let mut number = first;
    for var in vars {
        found.push(Variable {
            name: var.name.as_slice(),
            number,
        })?;
        number = further(number, 1)?;
    }
    Ok(found)
}

/// How many variables and parameters of actions stand in what a control declares. The scope is that of the control, and is
/// then what it was.
#[tactic(auto, using(crate::proofs::Before::counted))]
fn count_in<'a>(
    alloc: Global,
    scope: &mut Scope<'_, 'a>,
    local: &'a Local,
) -> Result<usize, OutOfMemory>
    ensures count { IfOk result (λ n. n ≡ length (local_kinds (seen_scope scope.old) local.now)) }
    ensures scope { OnOk result (seen_scope scope.new ≡ seen_scope scope.old) }
    ensures top { scope.new.top ≡ scope.old.top }
{
    let mut kinds = Vec::new(alloc);
    add_local(alloc, scope, local, &mut kinds)?;
    Ok(count_of(&kinds))
}

/// Puts a variable behind the others, where that is declared.
fn add_variable<'a>(
    found: &mut Vec<Variable<'a>>,
    number: usize,
    local: &'a Local,
) -> Result<(), OutOfMemory>
    ensures { OnOk result (map seen_variable found.new.items ≡ map seen_variable found.old.items ++ own_variables number local.now) }
{
    if let Local::Var(var) = local {
        found.push(Variable {
            name: var.name.as_slice(),
            number,
        })?;
    }
    Ok(())
}

/// Puts the number of the first parameter of an action behind the others, where that is declared.
fn add_action(found: &mut Vec<usize>, number: usize, local: &Local) -> Result<(), OutOfMemory>
    ensures { OnOk result (found.new.items ≡ found.old.items ++ own_action number local.now) }
{
    if let Local::Action(_) = local {
        found.push(number)?;
    }
    Ok(())
}

/// The numbers of what stands in a control that declares this, where the first has this number. The scope is that of the control,
/// and is then what it was. Errors as those of `parser_variables`.
#[tactic(auto, using(crate::proofs::Numbering::one_local_more, crate::proofs::Numbering::one_action_more, crate::proofs::Numbering::one_further))]
pub fn control_numbers<'a>(
    alloc: Global,
    scope: &mut Scope<'_, 'a>,
    first: usize,
    locals: &'a [Local],
) -> Result<ControlNumbers<'a>, OutOfMemory>
    ensures variables { IfOk result (λ found. map seen_variable found.variables.items ≡ locals_from (seen_scope scope.old) first locals.now) }
    ensures actions { IfOk result (λ found. found.actions.items ≡ actions_from (seen_scope scope.old) first locals.now) }
    ensures body { IfOk result (λ found. found.body ≡ first + length (flat_map (local_kinds (seen_scope scope.old)) locals.now)) }
    ensures scope { OnOk result (seen_scope scope.new ≡ seen_scope scope.old) }
    ensures top { scope.new.top ≡ scope.old.top }
{
    let mut variables = Vec::new(alloc);
    let mut actions = Vec::new(alloc);
    let mut body = first;
    for local in locals {
        add_variable(&mut variables, body, local)?;
        add_action(&mut actions, body, local)?;
        let count = count_in(alloc, scope, local)?;
        body = further(body, count)?;
    }
    Ok(ControlNumbers {
        variables,
        actions,
        body,
    })
}
