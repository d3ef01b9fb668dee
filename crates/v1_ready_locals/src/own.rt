// What a control declares: its variables, its actions and its tables, by their numbers and names (P4_16 1.2, "Control blocks").
ghost use Rattle.std.specs.Prelude.{◌≡◌, map, filter_map, slice_get, IfOk};
ghost use Rattle.p416_syntax.specs.Declarations.{action_in, table_in};
ghost use Rattle.v1_core.specs.Blocks.{var_in};
ghost use Rattle.v1_ready_operands.specs.Callees.{seen_action, action_name, table_name};
ghost use Rattle.v1_ready_locals.specs.Owned.{seen_own};
ghost use Rattle.v1_ready_locals.specs.internal.Zipped.{number_in, zip_actions, zip_variables};

use name_numbers::{Numbering, number_names};
use p4x_bits::OutOfMemory;
use p416_syntax::{Action16, Local, Table16, Var};
use std::alloc::Global;
use v1_block_seats::Variable;
use v1_ready_bodies::OwnVariable;
use v1_ready_operands::OwnAction;

/// The number at a place.
fn number_at(numbers: &[usize], place: usize) -> Option<usize>
    ensures { result ≡ slice_get numbers.now place }
{
    numbers.get(place).copied()
}

/// The numbers of variables, in order.
fn numbers_of(alloc: Global, variables: &[Variable<'_>]) -> Result<Vec<usize>, OutOfMemory>
    ensures { IfOk result (λ numbers. numbers.items ≡ map number_in variables.now) }
{
    let mut numbers = Vec::new(alloc);
    for variable in variables {
        numbers.push(variable.number)?;
    }
    Ok(numbers)
}

/// The actions among what a control declares.
fn actions_in<'a>(alloc: Global, locals: &'a [Local]) -> Result<Vec<&'a Action16>, OutOfMemory>
    ensures { IfOk result (λ found. map (λ a. a.now) found.items ≡ filter_map action_in locals.now) }
{
    let mut found = Vec::new(alloc);
    for local in locals {
        if let Local::Action(action) = local {
            found.push(action)?;
        }
    }
    Ok(found)
}

/// Actions with these numbers. As many of these are wanted; fewer count as want of memory.
fn numbered_actions<'a>(
    alloc: Global,
    numbers: &[usize],
    actions: &[&'a Action16],
) -> Result<Vec<OwnAction<'a>>, OutOfMemory>
    ensures { IfOk result (λ found. map seen_action found.items ≡ zip_actions numbers.now (map (λ a. a.now) actions.now)) }
{
    let mut found = Vec::new(alloc);
    let mut next = 0usize;
    for action in actions {
        let Some(first) = number_at(numbers, next) else {
            return Err(OutOfMemory);
        };
        found.push(OwnAction {
            action: *action,
            first,
        })?;
        next += 1;
    }
    Ok(found)
}

/// The actions among what a control declares, of which these are the numbers in the order of the text.
pub fn own_actions<'a>(
    alloc: Global,
    numbers: &[usize],
    locals: &'a [Local],
) -> Result<Vec<OwnAction<'a>>, OutOfMemory>
    ensures { IfOk result (λ found. map seen_action found.items ≡ zip_actions numbers.now (filter_map action_in locals.now)) }
{
    let actions = actions_in(alloc, locals)?;
    let found = numbered_actions(alloc, numbers, &actions)?;
    Ok(found)
}

/// The variables among what a control declares.
fn vars_in<'a>(alloc: Global, locals: &'a [Local]) -> Result<Vec<&'a Var>, OutOfMemory>
    ensures { IfOk result (λ found. map (λ v. v.now) found.items ≡ filter_map var_in locals.now) }
{
    let mut found = Vec::new(alloc);
    for local in locals {
        if let Local::Var(var) = local {
            found.push(var)?;
        }
    }
    Ok(found)
}

/// Variables with these numbers. As many of these are wanted; fewer count as want of memory.
fn numbered_variables<'a>(
    alloc: Global,
    numbers: &[usize],
    vars: &[&'a Var],
) -> Result<Vec<OwnVariable<'a>>, OutOfMemory>
    ensures { IfOk result (λ found. map seen_own found.items ≡ zip_variables numbers.now (map (λ v. v.now) vars.now)) }
{
    let mut found = Vec::new(alloc);
    let mut next = 0usize;
    for var in vars {
        let Some(number) = number_at(numbers, next) else {
            return Err(OutOfMemory);
        };
        found.push(OwnVariable { number, var: *var })?;
        next += 1;
    }
    Ok(found)
}

/// The variables among what a control declares, of which these are the numbers in the order of the text.
pub fn own_variables<'a>(
    alloc: Global,
    numbers: &[Variable<'_>],
    locals: &'a [Local],
) -> Result<Vec<OwnVariable<'a>>, OutOfMemory>
    ensures { IfOk result (λ found. map seen_own found.items ≡ zip_variables (map number_in numbers.now) (filter_map var_in locals.now)) }
{
    let vars = vars_in(alloc, locals)?;
    let numbers = numbers_of(alloc, numbers)?;
    let found = numbered_variables(alloc, &numbers, &vars)?;
    Ok(found)
}

/// The tables among what a control declares.
pub fn own_tables<'a>(alloc: Global, locals: &'a [Local]) -> Result<Vec<&'a Table16>, OutOfMemory>
    ensures { IfOk result (λ found. map (λ t. t.now) found.items ≡ filter_map table_in locals.now) }
{
    let mut found = Vec::new(alloc);
    for local in locals {
        if let Local::Table(table) = local {
            found.push(table)?;
        }
    }
    Ok(found)
}

/// The names of actions.
pub fn action_names<'a>(
    alloc: Global,
    actions: &[OwnAction<'a>],
) -> Result<Numbering<'a>, OutOfMemory>
    ensures { IfOk result (λ names. names ≡ map action_name (map seen_action actions.now)) }
{
    let mut names = Vec::new(alloc);
    for own in actions {
        names.push(own.action.name.as_slice())?;
    }
    number_names(alloc, names)
}

/// The names of tables.
pub fn table_names<'a>(alloc: Global, tables: &[&'a Table16]) -> Result<Numbering<'a>, OutOfMemory>
    ensures { IfOk result (λ names. names ≡ map table_name (map (λ t. t.now) tables.now)) }
{
    let mut names = Vec::new(alloc);
    for table in tables {
        names.push(table.name.as_slice())?;
    }
    number_names(alloc, names)
}
