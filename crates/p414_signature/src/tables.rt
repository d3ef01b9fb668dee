// The tables of a signature.
ghost use Rattle.std.specs.Prelude.{◌≡◌, ◌^◌, ◌-◌, ◌++◌, filter_map, map, min, option_copied, option_to_list, IfOk, OnOk};
ghost use Rattle.p414_syntax.specs.References.{referred};
ghost use Rattle.p414_parameter_widths.specs.Widths.{AreWidths};
ghost use Rattle.p414_sem.specs.Signatures.{action_sig, actions_in_order, table_of, table_sig, table_size};
ghost use Rattle.p414_signature.specs.internal.Gathered.{AreObjects, declared_table};

use crate::directs::Objects;
use crate::keys::key_specs;
use crate::order::in_order;
use match_core::{ActionSig, TableSig};
use p4x_bits::{Numbers, OutOfMemory, Rows, Text};
use p414_names::Names14;
use p414_parameter_widths::widths_of_action;
use p414_syntax::{Decl, Sort, Table};
use std::alloc::Global;

/// How many entries a table may have that gives no size.
const UNSIZED: u32 = 1_024;

/// An action of a table.
fn action_sig(
    alloc: Global,
    names: &Names14<'_>,
    rows: &[Numbers],
    name: &[u8],
) -> Result<ActionSig, OutOfMemory>
    requires { AreWidths names.now rows.now }
    ensures { IfOk result (λ action. action ≡ action_sig names.now name.now) }
{
    let widths = Numbers::from_slice(alloc, widths_of_action(names, rows, name))?;
    let name = Text::from_slice(alloc, name)?;
    Ok(ActionSig { name, widths })
}

/// The actions with these names, in order.
fn action_sigs(
    alloc: Global,
    names: &Names14<'_>,
    rows: &[Numbers],
    ordered: &[&[u8]],
) -> Result<Rows<ActionSig>, OutOfMemory>
    requires { AreWidths names.now rows.now }
    ensures { IfOk result (λ actions. actions ≡ map (action_sig names.now) (map referred ordered.now)) }
{
    let mut actions = Rows::new(alloc);
    for name in ordered {
        actions.push(action_sig(alloc, names, rows, name)?)?;
    }
    Ok(actions)
}

/// A size as one of 32 bits, or the greatest of them.
fn capped(size: u128) -> u32
    ensures { result ≡ min (2 ^ 32 - 1) size }
{
    if size > 4_294_967_295 {
        u32::MAX
    } else {
        size as u32
    }
}

/// How many entries a table may have.
fn table_size(table: &Table) -> u32
    ensures { result ≡ table_size table.now }
{
    match table.size() {
        Some(size) => capped(size.value),
        None => match table.max_size() {
            Some(size) => capped(size.value),
            None => UNSIZED,
        },
    }
}

/// The actions of a table, in the order of their names.
fn actions_of(
    alloc: Global,
    names: &Names14<'_>,
    rows: &[Numbers],
    table: &Table,
) -> Result<Rows<ActionSig>, OutOfMemory>
    requires { AreWidths names.now rows.now }
    ensures { IfOk result (λ actions. actions ≡ map (action_sig names.now) (actions_in_order table.now)) }
{
    let ordered = in_order(alloc, table.actions())?;
    action_sigs(alloc, names, rows, &ordered)
}

/// A table, as a control plane sees it.
fn table_sig(
    alloc: Global,
    names: &Names14<'_>,
    rows: &[Numbers],
    objects: &Objects<'_>,
    table: &Table,
) -> Result<TableSig, OutOfMemory>
    requires widths { AreWidths names.now rows.now }
    requires objects { AreObjects names.now objects.now }
    ensures { IfOk result (λ made. made ≡ table_sig names.now table.now) }
{
    let actions = actions_of(alloc, names, rows, table)?;
    let keys = key_specs(alloc, names, table.reads())?;
    let direct = objects.direct(table.name.as_slice())?;
    let name = Text::from_slice(alloc, table.name.as_slice())?;
    Ok(TableSig {
        name,
        keys,
        actions,
        size: table_size(table),
        direct,
    })
}

/// The table that is declared by a name.
fn declared_table<'a>(names: &Names14<'a>, name: &[u8]) -> Option<&'a Table>
    ensures { option_copied result ≡ declared_table names.now name.now }
{
    match names.declaration_of(Sort::Table, name) {
        Some(Decl::Table(table)) => Some(table),
        _ => None,
    }
}

/// The table with a name; none where no table has it.
#[tactic(auto, using(crate::proofs::TableNames::table_is))]
fn table_of<'a>(names: &Names14<'a>, name: &[u8]) -> Option<&'a Table>
    ensures { option_copied result ≡ table_of names.now name.now }
{
    declared_table(names, name)
}

/// Puts the table with a name last, if there is one.
fn add_table(
    alloc: Global,
    found: &mut Rows<TableSig>,
    names: &Names14<'_>,
    rows: &[Numbers],
    objects: &Objects<'_>,
    name: &[u8],
) -> Result<(), OutOfMemory>
    requires widths { AreWidths names.now rows.now }
    requires objects { AreObjects names.now objects.now }
    ensures { OnOk result (found.new ≡ found.old ++ map (table_sig names.now) (option_to_list (table_of names.now name.now))) }
{
    if let Some(table) = table_of(names, name) {
        found.push(table_sig(alloc, names, rows, objects, table)?)?;
    }
    Ok(())
}

/// The tables with these names, in order. The one error is want of memory.
pub fn table_sigs(
    alloc: Global,
    names: &Names14<'_>,
    rows: &[Numbers],
    objects: &Objects<'_>,
    ordered: &[&[u8]],
) -> Result<Rows<TableSig>, OutOfMemory>
    requires widths { AreWidths names.now rows.now }
    requires objects { AreObjects names.now objects.now }
    ensures { IfOk result (λ tables. tables ≡ map (table_sig names.now) (filter_map (table_of names.now) (map referred ordered.now))) }
{
    let mut tables = Rows::new(alloc);
    for name in ordered {
        add_table(alloc, &mut tables, names, rows, objects, name)?;
    }
    Ok(tables)
}
