// The keys of tables.
ghost use Rattle.std.specs.Prelude.{◌≡◌, map, IfOk};
ghost use Rattle.p414_sem.specs.Slots.{element_of};
ghost use Rattle.p414_ready_tables.specs.Tables.{key_row, row_value, valid_row};

use crate::tables::KeyRow;
use match_core::Key;
use p4x_bits::{OutOfMemory, Rows};
use p414_act_run::read;
use p414_slots::{Slots, element_number};
use p414_state::State14;
use p414_syntax::{Inst, Read, ReadKey};
use std::alloc::Global;

/// The validity of an instance.
fn valid_row(slots: &Slots<'_, '_>, instance: &Inst) -> Result<KeyRow, OutOfMemory>
    ensures { IfOk result (λ row. row ≡ valid_row (element_of slots.now instance.now)) }
{
    let number = slots.instance(instance.name.as_slice())?;
    let element = element_number(instance.index)?;
    Ok(KeyRow::Valid {
        instance: number,
        element,
    })
}

/// A key.
fn key_row(slots: &Slots<'_, '_>, read: &Read) -> Result<KeyRow, OutOfMemory>
    ensures { IfOk result (λ row. row ≡ key_row slots.now read.now) }
{
    match &read.key {
        ReadKey::Field(field) => {
            let slot = slots.slot(field)?;
            match read.mask {
                Some(mask) => Ok(KeyRow::Masked(slot, mask.value)),
                None => Ok(KeyRow::Field(slot)),
            }
        }
        ReadKey::Instance(instance) => valid_row(slots, instance),
    }
}

/// The keys of a table, in order. The one error is want of memory.
pub fn key_rows(
    alloc: Global,
    slots: &Slots<'_, '_>,
    reads: &[Read],
) -> Result<Rows<KeyRow>, OutOfMemory>
    ensures { IfOk result (λ rows. rows ≡ map (key_row slots.now) reads.now) }
{
    let mut rows = Rows::new(alloc);
    for read in reads {
        rows.push(key_row(slots, read)?)?;
    }
    Ok(rows)
}

/// What a key is in a packet's state.
fn row_value(state: &State14, row: KeyRow) -> u128
    ensures { result ≡ row_value state.now.state row }
{
    match row {
        KeyRow::Field(slot) => read(state, slot),
        KeyRow::Masked(slot, mask) => read(state, slot) & mask,
        KeyRow::Valid { instance, element } => {
            if state.valid(instance, element) { 1 } else { 0 }
        }
    }
}

/// What the keys of a table are in a packet's state. Up to eight keys take no memory; want of it is the one error.
pub fn key_of(alloc: Global, state: &State14, rows: &[KeyRow]) -> Result<Key, OutOfMemory>
    ensures { IfOk result (λ key. key ≡ map (row_value state.now.state) rows.now) }
{
    let mut key = Key::new(alloc);
    for row in rows {
        key.push(row_value(state, *row))?;
    }
    Ok(key)
}
