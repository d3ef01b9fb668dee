// Calculated fields are made ready.
ghost use Rattle.std.specs.Prelude.{◌≡◌, ◌++◌, filter, map, IfOk, OnOk};
ghost use Rattle.p414_syntax.specs.Lists.{calculated_fields, calculated_in, is_update, is_verify};
ghost use Rattle.p414_sem.specs.Slots.{element_of};
ghost use Rattle.p414_ready_actions.specs.Words.{calculation_number};
ghost use Rattle.p414_calculated_fields.specs.Rows.{condition_test, element_test, entry_row, entry_test, field_row};

use crate::rows::{CalculatedRow, EntryRow, EntryTest};
use p4x_bits::{OutOfMemory, Rows};
use p414_names::Names14;
use p414_slots::{Slots, element_number};
use p414_syntax::{Calc, CalcCond, CalcUse, CalculatedField, Decl, Inst, Sort};
use std::alloc::Global;

/// That an instance is valid.
fn valid_test(slots: &Slots<'_, '_>, instance: &Inst) -> Result<EntryTest, OutOfMemory>
    ensures { IfOk result (λ test. test ≡ element_test (element_of slots.now instance.now)) }
{
    let number = slots.instance(instance.name.as_slice())?;
    let element = element_number(instance.index)?;
    Ok(EntryTest::Valid {
        instance: number,
        element,
    })
}

/// A condition.
fn condition_test(slots: &Slots<'_, '_>, condition: &CalcCond) -> Result<EntryTest, OutOfMemory>
    ensures { IfOk result (λ test. test ≡ condition_test slots.now condition.now) }
{
    match condition {
        CalcCond::Valid(instance) => valid_test(slots, instance),
        CalcCond::Equal(field, number) => {
            let slot = slots.slot(field)?;
            Ok(EntryTest::Equal(slot, number.value))
        }
    }
}

/// A condition, or none.
fn entry_test(slots: &Slots<'_, '_>, condition: &Option<CalcCond>) -> Result<EntryTest, OutOfMemory>
    ensures { IfOk result (λ test. test ≡ entry_test slots.now condition.now) }
{
    match condition {
        Some(condition) => condition_test(slots, condition),
        None => Ok(EntryTest::Always),
    }
}

/// The number of a calculation. A name that no calculation has, such as no program has that breaks no rule, counts as want of
/// memory.
fn calculation_number(names: &Names14<'_>, name: &[u8]) -> Result<u32, OutOfMemory>
    ensures { IfOk result (λ number. number ≡ calculation_number names.now name.now) }
{
    match names.find(Sort::Calculation, name) {
        Some(number) => Ok(number),
        None => Err(OutOfMemory),
    }
}

/// An entry.
fn entry_row(slots: &Slots<'_, '_>, entry: &Calc) -> Result<EntryRow, OutOfMemory>
    ensures { IfOk result (λ row. row ≡ entry_row slots.now entry.now) }
{
    let test = entry_test(slots, &entry.condition)?;
    let calculation = calculation_number(slots.names(), entry.calculation.as_slice())?;
    Ok(EntryRow { test, calculation })
}

/// Whether an entry is one for an update.
fn is_update(entry: &Calc) -> bool
    ensures { result ≡ is_update entry.now }
{
    match entry.used_to {
        CalcUse::Update => true,
        CalcUse::Verify => false,
    }
}

/// The entries for an update.
fn update_rows(
    alloc: Global,
    slots: &Slots<'_, '_>,
    entries: &[Calc],
) -> Result<Rows<EntryRow>, OutOfMemory>
    ensures { IfOk result (λ rows. rows ≡ map (entry_row slots.now) (filter is_update entries.now)) }
{
    let mut rows = Rows::new(alloc);
    for entry in entries {
        if is_update(entry) {
            rows.push(entry_row(slots, entry)?)?;
        }
    }
    Ok(rows)
}

/// The entries for a verification.
fn verify_rows(
    alloc: Global,
    slots: &Slots<'_, '_>,
    entries: &[Calc],
) -> Result<Rows<EntryRow>, OutOfMemory>
    ensures { IfOk result (λ rows. rows ≡ map (entry_row slots.now) (filter is_verify entries.now)) }
{
    let mut rows = Rows::new(alloc);
    for entry in entries {
        if !is_update(entry) {
            rows.push(entry_row(slots, entry)?)?;
        }
    }
    Ok(rows)
}

/// A calculated field.
fn field_row(
    alloc: Global,
    slots: &Slots<'_, '_>,
    declared: &CalculatedField,
) -> Result<CalculatedRow, OutOfMemory>
    ensures { IfOk result (λ row. row ≡ field_row slots.now declared.now) }
{
    let slot = slots.slot(&declared.field)?;
    let verify = verify_rows(alloc, slots, declared.entries.as_slice())?;
    let update = update_rows(alloc, slots, declared.entries.as_slice())?;
    Ok(CalculatedRow {
        slot,
        verify,
        update,
    })
}

/// Puts a calculated field last, if a declaration is one.
fn add_field(
    alloc: Global,
    rows: &mut Rows<CalculatedRow>,
    slots: &Slots<'_, '_>,
    decl: &Decl,
) -> Result<(), OutOfMemory>
    ensures { OnOk result (rows.new ≡ rows.old ++ map (field_row slots.now) (calculated_in decl.now)) }
{
    if let Decl::CalculatedField(declared) = decl {
        rows.push(field_row(alloc, slots, declared)?)?;
    }
    Ok(())
}

/// The calculated fields of these declarations of a program, in order. In time O(n log n) in the program; the one error is want
/// of memory, which names and elements count as that are too large to keep or that aren't there: no program has one that breaks
/// no rule.
#[tactic(auto, using(crate::proofs::Gathering::fields_now))]
pub fn field_rows(
    alloc: Global,
    slots: &Slots<'_, '_>,
    decls: &[Decl],
) -> Result<Rows<CalculatedRow>, OutOfMemory>
    ensures { IfOk result (λ rows. rows ≡ map (field_row slots.now) (calculated_fields decls.now)) }
{
    let mut rows = Rows::new(alloc);
    for decl in decls {
        add_field(alloc, &mut rows, slots, decl)?;
    }
    Ok(rows)
}
