// How deep controls nest.
ghost use Rattle.std.specs.Prelude.{◌≡◌, false, option_copied, IfOk};
ghost use Rattle.std.specs.List.{list_any};
ghost use Rattle.std.specs.Option.{option_map_or};
ghost use Rattle.p416_syntax.specs.Properties.{default_action_of, default_arguments_of};
ghost use Rattle.p416_depth_check.specs.internal.Deep.{has_deep_argument, is_deep_key, is_deep_default, is_deep_table, is_deep_local, is_deep_control};

use crate::bodies::{is_deep_body, is_deep_instance, is_deep_var};
use crate::expressions::{has_deep_argument, is_deep};
use p4x_bits::OutOfMemory;
use p416_syntax::{Control16, Exp, Local, Table16, TableKey};
use std::alloc::Global;

/// Whether one of these keys nests over 512 deep.
fn some_deep_key(alloc: Global, keys: &[TableKey]) -> Result<bool, OutOfMemory>
    ensures { IfOk result (λ deep. deep ≡ list_any is_deep_key keys.now) }
{
    for key in keys {
        if is_deep(alloc, &key.exp.view())? {
            return Ok(true);
        }
    }
    Ok(false)
}

/// Whether one of these arguments nests over 512 deep, where there are some.
fn is_deep_given(alloc: Global, given: Option<&Exp>) -> Result<bool, OutOfMemory>
    ensures { IfOk result (λ deep. deep ≡ option_map_or has_deep_argument (option_copied given.entry) false) }
{
    match given {
        Some(given) => has_deep_argument(alloc, &given.view()),
        None => Ok(false),
    }
}

/// Whether an argument of the default action of a table nests over 512 deep.
fn has_deep_default(alloc: Global, table: &Table16) -> Result<bool, OutOfMemory>
    ensures { IfOk result (λ deep. deep ≡ is_deep_default (default_action_of table.now.properties) (default_arguments_of table.now.properties)) }
{
    match table.default_action() {
        Some(_) => is_deep_given(alloc, table.default_arguments()),
        None => Ok(false),
    }
}

/// Whether a table nests over 512 deep.
fn is_deep_table(alloc: Global, table: &Table16) -> Result<bool, OutOfMemory>
    ensures { IfOk result (λ deep. deep ≡ is_deep_table table.now) }
{
    if some_deep_key(alloc, table.keys())? {
        return Ok(true);
    }
    has_deep_default(alloc, table)
}

/// Whether what is declared in a control nests over 512 deep.
fn is_deep_local(alloc: Global, declared: &Local) -> Result<bool, OutOfMemory>
    ensures { IfOk result (λ deep. deep ≡ is_deep_local declared.now) }
{
    match declared {
        Local::Instance(_, instance) => is_deep_instance(alloc, instance),
        Local::Var(var) => is_deep_var(alloc, var),
        Local::Action(action) => is_deep_body(alloc, 1, &action.body.statements()),
        Local::Table(table) => is_deep_table(alloc, table),
    }
}

/// Whether one of these does.
fn some_deep_local(alloc: Global, locals: &[Local]) -> Result<bool, OutOfMemory>
    ensures { IfOk result (λ deep. deep ≡ list_any is_deep_local locals.now) }
{
    for declared in locals {
        if is_deep_local(alloc, declared)? {
            return Ok(true);
        }
    }
    Ok(false)
}

/// Whether blocks or expressions of a control nest over 512 deep.
pub(crate) fn is_deep_control(alloc: Global, control: &Control16) -> Result<bool, OutOfMemory>
    ensures { IfOk result (λ deep. deep ≡ is_deep_control control.now) }
{
    if some_deep_local(alloc, control.locals.as_slice())? {
        return Ok(true);
    }
    is_deep_body(alloc, 1, &control.body.statements())
}
