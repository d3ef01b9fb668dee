// The default action of a table (P4_16 1.2, "Tables", `default_action`).
ghost use Rattle.std.specs.Prelude.{◌≡◌, [], Some, map, option_map, option_and_then, IfOk};
ghost use Rattle.std.specs.Option.{option_map_or};
ghost use Rattle.p416_syntax.specs.Properties.{default_action_of, default_arguments_of};
ghost use Rattle.p416_syntax.specs.Totals.{size_value};
ghost use Rattle.p416_syntax.specs.Uses.{arguments_of};
ghost use Rattle.p416_scopes.specs.Seen.{seen_scope};
ghost use Rattle.v1_core.specs.Signatures.{planes_of};
ghost use Rattle.v1_core.specs.Tables.{own_default};
ghost use Rattle.v1_block_run.specs.Blocks.{seen_chosen};
ghost use Rattle.v1_ready_tables.specs.Tables.{chosen_by, default_by};
ghost use Rattle.v1_ready_tables.specs.internal.Listed.{own_chosen};

use crate::listed::plane_of;
use name_numbers::Numbering;
use p4x_bits::{Numbers, OutOfMemory, Text};
use p416_scopes::Scope;
use p416_signature::number_of;
use p416_syntax::{ActionName, ExpHead, ExpView, Table16};
use std::alloc::Global;
use v1_block_run::Chosen;
use v1_ready_tests::arguments_in;

/// The value of a literal; 0 of what isn't one.
fn literal_value(argument: &ExpView<'_>) -> u128
    ensures { result ≡ size_value argument.now }
{
    match argument.head() {
        ExpHead::Literal(number) => number.value,
        _ => 0,
    }
}

/// The values of the literals in an argument list, in order.
fn literal_values(alloc: Global, arguments: &ExpView<'_>) -> Result<Numbers, OutOfMemory>
    ensures { IfOk result (λ values. values ≡ map size_value (arguments_of arguments.now)) }
{
    let mut given = arguments_in(alloc, arguments)?;
    let mut values = Numbers::new(alloc);
    while let Some(argument) = given.pop() {
        values.push(literal_value(&argument))?;
    }
    Ok(values)
}

/// The values of the arguments of a table's default action.
fn default_values(alloc: Global, table: &Table16) -> Result<Numbers, OutOfMemory>
    ensures { IfOk result (λ values. values ≡ map size_value (option_map_or arguments_of (default_arguments_of table.now.properties) [])) }
{
    match table.default_arguments() {
        Some(arguments) => literal_values(alloc, &arguments.view()),
        None => Ok(Numbers::new(alloc)),
    }
}

/// The action of this name as the default of a table whose actions have these control-plane names in order, where the actions of
/// the control have those names; none where none has it.
fn chosen_default<'a>(
    alloc: Global,
    scope: &Scope<'_, 'a>,
    actions: &Numbering<'_>,
    planes: &Numbering<'_>,
    table: &'a Table16,
    name: &'a Text,
) -> Result<Option<Chosen>, OutOfMemory>
    requires { planes.now ≡ planes_of (seen_scope scope.now) table.now }
    ensures { IfOk result (λ found. option_map seen_chosen found ≡ chosen_by actions.now (own_chosen (seen_scope scope.now) table.now name.now)) }
{
    let Some(action) = actions.find(name.as_slice()) else {
        return Ok(None);
    };
    let number = number_of(planes, plane_of(scope, name.as_slice()))?;
    let arguments = default_values(alloc, table)?;
    Ok(Some(Chosen {
        action,
        number,
        arguments,
    }))
}

/// The default action of a table, where it has one that isn't `NoAction`; as `chosen_default`.
pub(crate) fn ready_default<'a>(
    alloc: Global,
    scope: &Scope<'_, 'a>,
    actions: &Numbering<'_>,
    planes: &Numbering<'_>,
    table: &'a Table16,
) -> Result<Option<Option<Chosen>>, OutOfMemory>
    requires { planes.now ≡ planes_of (seen_scope scope.now) table.now }
    ensures { IfOk result (λ found. option_map (option_map seen_chosen) found ≡ default_by actions.now (option_and_then (own_default (seen_scope scope.now) table.now) (default_action_of table.now.properties))) }
{
    match table.default_action() {
        Some(ActionName::Declared(name)) => {
            match chosen_default(alloc, scope, actions, planes, table, name)? {
                Some(chosen) => Ok(Some(Some(chosen))),
                None => Ok(None),
            }
        }
        _ => Ok(Some(None)),
    }
}
