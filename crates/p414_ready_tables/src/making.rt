// Tables are made ready.
ghost use Rattle.std.specs.Prelude.{◌≡◌, map, IfOk, Some};
ghost use Rattle.p414_syntax.specs.declared.tables.Table.{Table as TableTree};
ghost use Rattle.p414_sem.specs.Signatures.{signature14, table_of, table_sig};
ghost use Rattle.p414_ready_tables.specs.Tables.{AreReadyTables, IsReadyTable, some_number};
ghost use Rattle.p414_ready_tables.specs.internal.Defaults.{sig_number};

use crate::defaults::default_of;
use crate::keys::key_rows;
use crate::tables::ReadyTable;
use match_core::{ActionSig, Signature, TableSig};
use p4x_bits::{OutOfMemory, Rows};
use p414_names::{Names14, names_of};
use p414_slots::Slots;
use p414_syntax::{Decl, Sort, Table};
use std::alloc::Global;

/// The numbers of actions, in the order of declaration. An action that isn't declared, such as no table lists of a program that breaks
/// no rule, counts as want of memory.
#[tactic(auto, using(crate::proofs::Kept::one_numbered))]
fn action_numbers(
    alloc: Global,
    names: &Names14<'_>,
    actions: &[ActionSig],
) -> Result<Rows<u32>, OutOfMemory>
    ensures { IfOk result (λ numbers. map some_number numbers ≡ map (sig_number names.now) actions.now) }
{
    let mut numbers = Rows::new(alloc);
    for action in actions {
        let Some(number) = names.find(Sort::Action, action.name.as_slice()) else {
            return Err(OutOfMemory);
        };
        numbers.push(number)?;
    }
    Ok(numbers)
}

/// A table that the signature has so.
#[tactic(auto, using(crate::proofs::Kept::table_made))]
fn ready_table(
    alloc: Global,
    slots: &Slots<'_, '_>,
    table: &Table,
    sig: &TableSig,
) -> Result<ReadyTable, OutOfMemory>
    ensures { IfOk result (λ made. sig.now ≡ table_sig slots.now table.now → IsReadyTable slots.now table.now made) }
{
    let keys = key_rows(alloc, slots, table.reads())?;
    let actions = action_numbers(alloc, slots.names(), sig.actions.as_slice())?;
    let default = default_of(alloc, sig.actions.as_slice(), table)?;
    Ok(ReadyTable {
        keys,
        actions,
        direct: sig.direct,
        default,
    })
}

/// The table that has the name which stands in the signature.
fn table_named(
    alloc: Global,
    slots: &Slots<'_, '_>,
    sig: &TableSig,
) -> Result<ReadyTable, OutOfMemory>
    ensures { IfOk result (λ made. (t : TableTree) → table_of slots.now t.name ≡ Some t → sig.now ≡ table_sig slots.now t → IsReadyTable slots.now t made) }
{
    match slots
        .names()
        .declaration_of(Sort::Table, sig.name.as_slice())
    {
        Some(Decl::Table(table)) => ready_table(alloc, slots, table, sig),
        _ => Err(OutOfMemory),
    }
}

/// All tables of a signature.
#[tactic(auto, using(crate::proofs::Kept::no_tables, crate::proofs::Kept::one_ready, crate::proofs::Kept::all_ready))]
fn tables_of(
    alloc: Global,
    slots: &Slots<'_, '_>,
    signature: &Signature,
) -> Result<Rows<ReadyTable>, OutOfMemory>
    requires { signature.now ≡ signature14 slots.now }
    ensures { IfOk result (AreReadyTables slots.now) }
{
    let mut tables = Rows::new(alloc);
    for sig in signature.tables.as_slice() {
        tables.push(table_named(alloc, slots, sig)?)?;
    }
    Ok(tables)
}

/// The tables of a program, in the order of its signature. The one error is want of memory.
pub fn all_tables(
    alloc: Global,
    decls: &[Decl],
    signature: &Signature,
) -> Result<Rows<ReadyTable>, OutOfMemory>
    requires { signature.now ≡ signature14 decls.now }
    ensures { IfOk result (AreReadyTables decls.now) }
{
    match names_of(alloc, decls)? {
        Some(names) => {
            let slots = Slots::of(alloc, &names)?;
            tables_of(alloc, &slots, signature)
        }
        // No name is declared twice in a program that breaks no rule.
        None => Err(OutOfMemory),
    }
}
