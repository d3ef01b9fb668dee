// Tables made ready (P4_16 1.2, "Tables").
ghost use Rattle.std.specs.Prelude.{◌≡◌, All, option_map, IfOk, IfSome, OnOk};
ghost use Rattle.p416_syntax.specs.Declarations.{layouts_of};
ghost use Rattle.p416_syntax.specs.Tables.{table_plane};
ghost use Rattle.p416_scopes.specs.Seen.{seen_scope};
ghost use Rattle.v1_core.specs.Signatures.{key_scope, place_among};
ghost use Rattle.v1_ready_program.specs.Seen.{seen_seats};
ghost use Rattle.v1_block_run.specs.Blocks.{seen_chosen};
ghost use Rattle.v1_ready_nodes.specs.Held.{Held, IsHeld, Grows};
ghost use Rattle.v1_ready_statements.specs.Blocks.{all_of, with_parts};
ghost use Rattle.v1_ready_tables.specs.Seen.{seen_keys, seen_table, seen_tables, AreKeysIn, IsTableIn};
ghost use Rattle.v1_ready_tables.specs.Tables.{table_by};

use crate::actions::{TableActions, table_actions};
use crate::keys::ready_keys;
use crate::names::TableNames;
use name_numbers::Numbering;
use p4x_bits::{OutOfMemory, Rows};
use p416_scopes::Scope;
use p416_signature::{number_of, plane_name};
use p416_syntax::Table16;
use std::alloc::Global;
use v1_block_run::ReadyTable;
use v1_ready_nodes::ReadyNodes;
use v1_ready_program::Around;

/// The number of a table among all tables of the program, whose control-plane names these are.
fn table_number(tables: &Numbering<'_>, table: &Table16) -> Result<u32, OutOfMemory>
    ensures { IfOk result (λ number. number ≡ place_among tables.now (table_plane table.now)) }
{
    number_of(tables, plane_name(table.notes.as_slice(), &table.name))
}

/// A table of these parts, if all of them are some.
fn joined(
    number: u32,
    direct: Option<u32>,
    keys: Option<Rows<usize>>,
    actions: TableActions,
) -> Option<ReadyTable>
    ensures table { (h : Held) → option_map (seen_table h) result ≡ with_parts number direct (option_map (seen_keys h) keys) actions.numbers (option_map (option_map seen_chosen) actions.default) }
    ensures within { (h : Held) → IfSome keys (AreKeysIn h) → IfSome result (IsTableIn h) }
{
    let TableActions { numbers, default } = actions;
    match (keys, numbers, default) {
        (Some(keys), Some(actions), Some(default)) => Some(ReadyTable {
            number,
            keys,
            direct,
            actions,
            default,
        }),
        _ => None,
    }
}

/// Makes a table of a control with this scope ready; its keys stand in a scope of keys.
fn ready_table<'a>(
    alloc: Global,
    nodes: &mut ReadyNodes<'_>,
    keys: Around<'_, 'a>,
    scope: &Scope<'_, 'a>,
    names: TableNames<'_, 'a>,
    table: &'a Table16,
) -> Result<Option<ReadyTable>, OutOfMemory>
    requires held { IsHeld nodes.old }
    requires types { keys.types.now ≡ layouts_of keys.scope.now.top.now }
    requires keys { seen_scope keys.scope.now ≡ key_scope (seen_scope scope.now) }
    ensures table { IfOk result (λ found. option_map (seen_table nodes.new) found ≡ table_by names.entry (seen_scope scope.now) (seen_seats keys.entry.seats.now) table.now) }
    ensures within { IfOk result (λ found. IfSome found (IsTableIn nodes.new)) }
    ensures grows { OnOk result (Grows nodes.old nodes.new) }
{
    let ready = ready_keys(alloc, nodes, keys, table.keys())?;
    let actions = table_actions(alloc, scope, names.actions, table)?;
    let direct = names.objects.direct(names.own, table)?;
    let number = table_number(names.tables, table)?;
    Ok(joined(number, direct, ready, actions))
}

/// Makes the tables of a control with this scope ready, in order, given the scope of its keys with the seats of its names: none
/// exactly where one of them is none. Their keys are put behind the other expressions. In time proportional to the tables, but
/// for look-ups and the order of names. The one error is want of memory.
#[tactic(auto, using(v1_ready_bodies::proofs::Fronts::all_ready, v1_ready_bodies::proofs::Fronts::none_more, v1_ready_nodes::proofs::Growing::grows_same))]
pub fn ready_tables<'a>(
    alloc: Global,
    nodes: &mut ReadyNodes<'_>,
    keys: Around<'_, 'a>,
    scope: &Scope<'_, 'a>,
    names: TableNames<'_, 'a>,
    tables: &[&'a Table16],
) -> Result<Option<Rows<ReadyTable>>, OutOfMemory>
    requires held { IsHeld nodes.old }
    requires types { keys.types.now ≡ layouts_of keys.scope.now.top.now }
    requires keys { seen_scope keys.scope.now ≡ key_scope (seen_scope scope.now) }
    ensures tables { IfOk result (λ found. option_map (seen_tables nodes.new) found ≡ all_of (λ table. table_by names.entry (seen_scope scope.now) (seen_seats keys.entry.seats.now) table.now) tables.now) }
    ensures within { IfOk result (λ found. IfSome found (All (IsTableIn nodes.new))) }
    ensures grows { OnOk result (Grows nodes.old nodes.new) }
{
    let mut rows = Rows::new(alloc);
    for table in tables {
        match ready_table(alloc, nodes, keys, scope, names, table)? {
            Some(row) => rows.push(row)?,
            None => return Ok(None),
        }
    }
    Ok(Some(rows))
}
