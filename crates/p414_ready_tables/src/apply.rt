// A table is applied.
ghost use Rattle.std.specs.Prelude.{◌≡◌, ℕ, map, IfOk, OnOk};
ghost use Rattle.p414_sem.specs.Controls.{counted, noted};
ghost use Rattle.p414_act_run.specs.Moments.{IsMoved, moment};
ghost use Rattle.p414_ready_tables.specs.Tables.{FitsDirect};
ghost use Rattle.p414_ready_tables.specs.internal.Acting.{FitsActions};
ghost use Rattle.p414_ready_tables.specs.internal.Applying.{IsCalled, IsRun, call_by, found_by, noted_by};

use crate::actions::ReadyActions;
use crate::applied::ReadyApplied;
use crate::calls::{called_action, called_arguments};
use crate::keys::key_of;
use crate::tables::ReadyTable;
use fabric::Event;
use match_core::{Table, TableFill};
use p4x_bits::OutOfMemory;
use p414_sem::Standard;
use p414_state::State14;
use state_store::Store;
use std::alloc::Global;

/// The entry that a table finds.
pub fn found_by(
    alloc: Global,
    state: &State14,
    table: &ReadyTable,
    filled: &Table<'_>,
) -> Result<Option<u32>, OutOfMemory>
    ensures { IfOk result (λ entry. entry ≡ found_by state.now.state table.now filled.now) }
{
    let key = key_of(alloc, state, table.keys.as_slice())?;
    Ok(filled.lookup(&key))
}

/// The entry of a hit is counted by the direct counter, if the table has one.
fn count_entry(state: &State14, store: &mut Store, direct: Option<u32>, entry: Option<u32>)
    requires { FitsDirect store.old.shapes direct }
    ensures counts { moment state.now store.new ≡ counted direct entry (moment state.now store.old) }
    ensures shapes { store.new.shapes ≡ store.old.shapes }
{
    if let Some(counter) = direct {
        if let Some(entry) = entry {
            store.count(counter, entry, state.standard(Standard::PacketLength));
        }
    }
}

/// Notes the application of the table with a number, and counts the entry.
fn note(
    number: u32,
    table: &ReadyTable,
    fill: &TableFill,
    entry: Option<u32>,
    state: &mut State14,
    store: &mut Store,
) -> Result<(), OutOfMemory>
    requires { FitsDirect store.old.shapes table.now.direct }
    ensures { OnOk result (IsMoved state.old state.new store.old store.new (noted_by number table.now fill.now entry (moment state.old store.old))) }
{
    state.push_event(Event {
        table: number,
        entry,
        action: called_action(fill, &table.default, entry),
    })?;
    count_entry(state, store, table.direct, entry);
    Ok(())
}

/// The call of an application is made, if there is one. The action that ran, by its number.
fn call(
    alloc: Global,
    actions: &ReadyActions,
    table: &ReadyTable,
    fill: &TableFill,
    entry: Option<u32>,
    state: &mut State14,
    store: &mut Store,
) -> Result<Option<u32>, OutOfMemory>
    requires { FitsActions state.old.layout store.old.shapes actions.now }
    ensures { IfOk result (λ ran. IsCalled actions.now table.now (call_by fill.now table.now.default entry) ran state.old state.new store.old store.new) }
{
    let Some(place) = called_action(fill, &table.default, entry) else {
        return Ok(None);
    };
    // A call of an action that the table doesn't list, such as no entry has that fits, counts as want of memory.
    let Some(action) = table.actions.get(place as usize) else {
        return Err(OutOfMemory);
    };
    let action = *action;
    if !actions.has(action) {
        return Err(OutOfMemory);
    }
    let arguments = called_arguments(fill, &table.default, entry);
    actions.run(alloc, action, arguments, state, store)?;
    Ok(Some(action))
}

/// The table with a number is applied, where it found this entry.
#[tactic(auto, using(crate::proofs::Applying::still_fit, crate::proofs::Applying::run_made))]
pub fn apply_found(
    alloc: Global,
    actions: &ReadyActions,
    number: u32,
    table: &ReadyTable,
    fill: &TableFill,
    entry: Option<u32>,
    state: &mut State14,
    store: &mut Store,
) -> Result<ReadyApplied, OutOfMemory>
    requires actions { FitsActions state.old.layout store.old.shapes actions.now }
    requires direct { FitsDirect store.old.shapes table.now.direct }
    ensures { IfOk result (λ ran. IsRun actions.now number table.now fill.now entry ran state.old state.new store.old store.new) }
{
    note(number, table, fill, entry, state, store)?;
    let action = call(alloc, actions, table, fill, entry, state, store)?;
    Ok(ReadyApplied {
        hit: entry.is_some(),
        action,
    })
}
