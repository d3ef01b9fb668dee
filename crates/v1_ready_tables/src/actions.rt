// The actions of a table by their numbers in the control (P4_16 1.2, "Tables").
ghost use Rattle.std.specs.Prelude.{◌≡◌, map, option_map, option_and_then, IfOk};
ghost use Rattle.p416_syntax.specs.Properties.{default_action_of};
ghost use Rattle.p416_scopes.specs.Seen.{seen_scope};
ghost use Rattle.v1_core.specs.Signatures.{planes_of};
ghost use Rattle.v1_core.specs.Tables.{own_default};
ghost use Rattle.v1_ready_statements.specs.Blocks.{all_of};
ghost use Rattle.v1_block_run.specs.Blocks.{seen_chosen};
ghost use Rattle.v1_ready_tables.specs.Tables.{number_listed, default_by};
ghost use Rattle.v1_ready_tables.specs.internal.Listed.{seen_listed, number_among};

use crate::defaults::ready_default;
use crate::listed::{ListedAction, listed_actions, name_with, planes};
use name_numbers::{Numbering, number_names};
use p4x_bits::{OutOfMemory, Rows};
use p416_scopes::Scope;
use p416_signature::in_order;
use p416_syntax::Table16;
use std::alloc::Global;
use v1_block_run::Chosen;

/// The actions of a table.
#[derive(Drop)]
pub(crate) struct TableActions {
    /// Their numbers in the control, in the order of their control-plane names; none where one isn't there.
    pub(crate) numbers: Option<Rows<u32>>,
    /// The default action, where it has one that isn't `NoAction`; none where it isn't there.
    pub(crate) default: Option<Option<Chosen>>,
}

/// The number among those of the control of the first listed action with a control-plane name, where these are the
/// control-plane names of the actions.
fn number_with(
    actions: &Numbering<'_>,
    rows: &[ListedAction<'_>],
    names: &Numbering<'_>,
    plane: &[u8],
) -> Option<u32>
    ensures { result ≡ number_among actions.now (map seen_listed rows.now) names.now plane.now }
{
    actions.find(name_with(rows, names, plane))
}

/// The numbers of the first listed actions with these control-plane names, in order; none where one isn't there.
#[tactic(auto, using(v1_ready_bodies::proofs::Fronts::all_ready, v1_ready_bodies::proofs::Fronts::none_more))]
fn numbers_with(
    alloc: Global,
    actions: &Numbering<'_>,
    rows: &[ListedAction<'_>],
    names: &Numbering<'_>,
    ordered: &[&[u8]],
) -> Result<Option<Rows<u32>>, OutOfMemory>
    ensures { IfOk result (λ found. found ≡ all_of (λ name. number_among actions.now (map seen_listed rows.now) names.now name.now) ordered.now) }
{
    let mut numbers = Rows::new(alloc);
    for name in ordered {
        match number_with(actions, rows, names, name) {
            Some(number) => numbers.push(number)?,
            None => return Ok(None),
        }
    }
    Ok(Some(numbers))
}

/// The actions of a table in a scope, where the actions of the control have these names.
pub(crate) fn table_actions<'a>(
    alloc: Global,
    scope: &Scope<'_, 'a>,
    actions: &Numbering<'_>,
    table: &'a Table16,
) -> Result<TableActions, OutOfMemory>
    ensures numbers { IfOk result (λ found. found.numbers ≡ all_of (number_listed actions.now (seen_scope scope.now) table.now) (planes_of (seen_scope scope.now) table.now)) }
    ensures default { IfOk result (λ found. option_map (option_map seen_chosen) found.default ≡ default_by actions.now (option_and_then (own_default (seen_scope scope.now) table.now) (default_action_of table.now.properties))) }
{
    let listed = listed_actions(alloc, scope, table.actions())?;
    let names = planes(alloc, &listed)?;
    let ordered = in_order(alloc, &names)?;
    let named = number_names(alloc, names)?;
    let numbers = numbers_with(alloc, actions, &listed, &named, &ordered)?;
    let placed = number_names(alloc, ordered)?;
    let default = ready_default(alloc, scope, actions, &placed, table)?;
    Ok(TableActions { numbers, default })
}
