// Calculated fields are verified and updated.
ghost use Rattle.std.specs.Prelude.{◌≡◌, ◌==◌, not, false, true, IfOk, OnOk};
ghost use Rattle.p414_sem.specs.State.{read};
ghost use Rattle.p414_slots.specs.Shown.{slot_in};
ghost use Rattle.p414_state.specs.Packets.{with_state};
ghost use Rattle.p414_act_run.specs.Sums.{sums_in};
ghost use Rattle.p414_calculated_fields.specs.Rows.{field_rows};
ghost use Rattle.p414_calculated_fields.specs.Running.{first_sum, row_fails, row_updated, rows_fail, rows_updated, sum_written, test_holds};

use crate::making::field_rows;
use crate::rows::{CalculatedRow, EntryRow, EntryTest};
use p4x_bits::{OutOfMemory, Rows};
use p414_act_run::{Calculations, bits_of, is_live, put, read};
use p414_names::Names14;
use p414_slots::{Slots, low};
use p414_state::State14;
use std::alloc::Global;
use std::marker::Model;

/// The calculated fields of a program, ready to be verified and updated in the states of packets. Contracts see their rows.
#[derive(Drop)]
pub struct CalculatedFields {
    rows: Rows<CalculatedRow>,
}

impl Model for CalculatedFields {
    ghost use Rattle.std.specs.Prelude.{List};
    ghost use Rattle.p414_calculated_fields.specs.declared.rows.CalculatedRow.{CalculatedRow as Row};

    ghost Value = { List Row };

    ghost view = { λ f. f.rows };
}

/// Whether the condition of an entry holds.
fn test_holds(state: &State14, test: EntryTest) -> bool
    ensures { result ≡ test_holds state.now.state test }
{
    match test {
        EntryTest::Always => true,
        EntryTest::Valid { instance, element } => state.valid(instance, element),
        EntryTest::Equal(slot, number) => read(state, slot) == number,
    }
}

/// The calculation of the first entry whose condition holds.
fn first_sum(state: &State14, entries: &[EntryRow]) -> Option<u32>
    ensures { result ≡ first_sum state.now.state entries.now }
{
    for entry in entries {
        if test_holds(state, entry.test) {
            return Some(entry.calculation);
        }
    }
    None
}

/// Whether a field isn't what its calculation gives.
fn row_fails(
    alloc: Global,
    calculations: &Calculations,
    state: &State14,
    row: &CalculatedRow,
) -> Result<bool, OutOfMemory>
    ensures { IfOk result (λ fails. fails ≡ row_fails (sums_in calculations.now) state.now.state row.now) }
{
    if !is_live(state, row.slot) {
        return Ok(false);
    }
    match first_sum(state, row.verify.as_slice()) {
        Some(calculation) => {
            let sum = calculations.result(alloc, calculation, state)?;
            Ok(sum != read(state, row.slot))
        }
        None => Ok(false),
    }
}

/// A field becomes what its calculation gives.
fn update_row(
    alloc: Global,
    calculations: &Calculations,
    state: &mut State14,
    row: &CalculatedRow,
) -> Result<(), OutOfMemory>
    ensures { OnOk result (state.new ≡ with_state state.old (row_updated state.old.layout (sums_in calculations.now) state.old.state row.now)) }
{
    if !is_live(state, row.slot) {
        return Ok(());
    }
    match first_sum(state, row.update.as_slice()) {
        Some(calculation) => {
            let sum = calculations.result(alloc, calculation, state)?;
            let width = bits_of(state, row.slot);
            put(state, row.slot, low(width, sum))?;
            Ok(())
        }
        None => Ok(()),
    }
}

/// Whether some field isn't what its calculation gives.
fn rows_fail(
    alloc: Global,
    calculations: &Calculations,
    state: &State14,
    rows: &[CalculatedRow],
) -> Result<bool, OutOfMemory>
    ensures { IfOk result (λ fails. fails ≡ rows_fail (sums_in calculations.now) state.now.state rows.now) }
{
    for row in rows {
        if row_fails(alloc, calculations, state, row)? {
            return Ok(true);
        }
    }
    Ok(false)
}

/// Fields become what their calculations give, one after another.
fn update_rows(
    alloc: Global,
    calculations: &Calculations,
    state: &mut State14,
    rows: &[CalculatedRow],
) -> Result<(), OutOfMemory>
    ensures { OnOk result (state.new ≡ with_state state.old (rows_updated state.old.layout (sums_in calculations.now) state.old.state rows.now)) }
{
    for row in rows {
        update_row(alloc, calculations, state, row)?;
    }
    Ok(())
}

impl CalculatedFields {
    /// The calculated fields of the program of these names. In time O(n log n) in the program; the one error is want of memory.
    pub(crate) fn of(alloc: Global, names: &Names14<'_>) -> Result<CalculatedFields, OutOfMemory>
        ensures { IfOk result (λ fields. fields ≡ field_rows names.now) }
    {
        let slots = Slots::of(alloc, names)?;
        let rows = field_rows(alloc, &slots, names.decls())?;
        Ok(CalculatedFields { rows })
    }

    /// Whether `p4_pe_checksum` is raised: some field of a valid header isn't what the first of its entries gives that verify
    /// it and whose condition holds (P4_14 1.0.5, "Checksums and Hash-value Generators", "Standard Parser Exceptions"). It takes
    /// memory for the bits that are summed alone, and want of it is the one error.
    pub fn fail(
        &self,
        alloc: Global,
        calculations: &Calculations,
        state: &State14,
    ) -> Result<bool, OutOfMemory>
        ensures { IfOk result (λ fails. fails ≡ rows_fail (sums_in calculations.now) state.now.state self.now) }
    {
        rows_fail(alloc, calculations, state, self.rows.as_slice())
    }

    /// Each field of a valid header becomes what the first of its entries gives that update it and whose condition holds, one
    /// field after another in the order of declaration, so that later fields see it. It takes memory for the bits that are
    /// summed alone, and want of it is the one error; the state isn't used again after it.
    pub fn update(
        &self,
        alloc: Global,
        calculations: &Calculations,
        state: &mut State14,
    ) -> Result<(), OutOfMemory>
        ensures { OnOk result (state.new ≡ with_state state.old (rows_updated state.old.layout (sums_in calculations.now) state.old.state self.now)) }
    {
        update_rows(alloc, calculations, state, self.rows.as_slice())
    }
}
