// The bits of rows in a packet's state.
ghost use Rattle.std.specs.Prelude.{◌≡◌, [], ◌++◌, IfOk, IfSome, OnOk};
ghost use Rattle.p4x_bits.specs.BitLists.{bits, octet_bits};
ghost use Rattle.p414_sem.specs.State.{read};
ghost use Rattle.p414_slots.specs.Shown.{slot_in};
ghost use Rattle.p414_field_lists.specs.Rows.{row_bits, rows_at, rows_bits};
ghost use Rattle.p414_field_lists.specs.internal.Runs.{IsRun, run_bits};

use crate::lists::FieldLists;
use crate::rows::ItemRow;
use p4x_bits::{Bits, OutOfMemory};
use p414_slots::{FieldSlot, low};
use p414_state::State14;
use std::alloc::Global;

/// Puts the lowest bits of a number last, so many as these.
#[tactic(auto, using(crate::proofs::Numbers::low_bits, crate::proofs::Numbers::wide_bits))]
fn push_low(list: &mut Bits, width: u8, value: u128) -> Result<(), OutOfMemory>
    ensures { OnOk result (list.new ≡ list.old ++ bits width value) }
{
    if width <= 128 {
        list.push_number(width, low(width, value))?;
    } else {
        list.push_number(width - 128, 0)?;
        list.push_number(128, value)?;
    }
    Ok(())
}

/// A field's number; 0 where its header is invalid.
fn read(state: &State14, slot: FieldSlot) -> u128
    ensures { result ≡ read state.now.state (slot_in slot) }
{
    match slot {
        FieldSlot::Standard(field) => u128::from(state.standard(field)),
        FieldSlot::Declared {
            instance,
            element,
            field,
        } => state.number(instance, element, field),
    }
}

/// Some bits that are still to be put, at most 128, as the number that they make.
#[derive(Clone, Copy, Drop)]
struct Run {
    width: u8,
    number: u128,
}

/// No bits.
#[tactic(auto, using(crate::proofs::Numbers::no_bits))]
fn no_bits() -> Run
    ensures run { IsRun result }
    ensures none { run_bits result ≡ [] }
{
    Run {
        width: 0,
        number: 0,
    }
}

/// The bits of a run with the lowest bits of a number behind them, so many as these; none where these are more than 128 bits
/// together, or 128 by themselves.
#[tactic(auto, using(crate::proofs::Numbers::joined_fits, crate::proofs::Numbers::joined_bits))]
fn joined(run: Run, width: u8, value: u128) -> Option<Run>
    requires { IsRun run }
    ensures run { IfSome result IsRun }
    ensures bits { IfSome result (λ both. run_bits both ≡ run_bits run ++ bits width value) }
{
    if width >= 128 || run.width > 128 - width {
        return None;
    }
    Some(Run {
        width: run.width + width,
        number: run.number << width | low(width, value),
    })
}

/// Puts the bits of a run last, and leaves none in it.
fn push_run(list: &mut Bits, run: &mut Run) -> Result<(), OutOfMemory>
    requires { IsRun run.old }
    ensures run { OnOk result (IsRun run.new) }
    ensures none { OnOk result (run_bits run.new ≡ []) }
    ensures put { OnOk result (list.new ≡ list.old ++ run_bits run.old) }
{
    list.push_number(run.width, run.number)?;
    *run = no_bits();
    Ok(())
}

/// Puts the lowest bits of a number, so many as these, behind those of a run: into the run, or into the list behind it.
#[tactic(auto, using(crate::proofs::Numbers::put_before, crate::proofs::Numbers::put_behind))]
fn push_behind(list: &mut Bits, run: &mut Run, width: u8, value: u128) -> Result<(), OutOfMemory>
    requires { IsRun run.old }
    ensures run { OnOk result (IsRun run.new) }
    ensures put { OnOk result (list.new ++ run_bits run.new ≡ list.old ++ run_bits run.old ++ bits width value) }
{
    if let Some(both) = joined(*run, width, value) {
        *run = both;
        return Ok(());
    }
    push_run(list, run)?;
    if let Some(one) = joined(*run, width, value) {
        *run = one;
        return Ok(());
    }
    push_low(list, width, value)?;
    Ok(())
}

/// Puts octets behind the bits of a run, which go into the list.
#[tactic(auto, using(crate::proofs::Numbers::put_behind))]
fn push_octets(list: &mut Bits, run: &mut Run, octets: &[u8]) -> Result<(), OutOfMemory>
    requires { IsRun run.old }
    ensures run { OnOk result (IsRun run.new) }
    ensures put { OnOk result (list.new ++ run_bits run.new ≡ list.old ++ run_bits run.old ++ octet_bits octets.now) }
{
    push_run(list, run)?;
    list.push_octets(octets)?;
    Ok(())
}

/// Puts the bits of a row behind those of a run.
fn push_row(
    list: &mut Bits,
    run: &mut Run,
    state: &State14,
    row: ItemRow,
) -> Result<(), OutOfMemory>
    requires { IsRun run.old }
    ensures run { OnOk result (IsRun run.new) }
    ensures put { OnOk result (list.new ++ run_bits run.new ≡ list.old ++ run_bits run.old ++ row_bits state.now.state row) }
{
    match row {
        ItemRow::Payload => push_octets(list, run, state.unparsed()),
        ItemRow::Number { width, value } => push_behind(list, run, width, value),
        ItemRow::Field { slot, width } => push_behind(list, run, width, read(state, slot)),
    }
}

/// Puts the bits of rows last, row after row. Numbers are put together before, so that the list grows by up to 128 bits at once.
#[tactic(auto, using(crate::proofs::Numbers::rows_begin, crate::proofs::Numbers::next_rows, crate::proofs::Numbers::rows_end))]
fn push_rows(list: &mut Bits, state: &State14, rows: &[ItemRow]) -> Result<(), OutOfMemory>
    ensures { OnOk result (list.new ≡ list.old ++ rows_bits state.now.state rows.now) }
{
    let mut run = no_bits();
    for row in rows {
        push_row(list, &mut run, state, *row)?;
    }
    push_run(list, &mut run)?;
    Ok(())
}

impl FieldLists {
    /// Puts the bits of the list with this number last, as a packet's state has them: item after item, `payload` as the octets
    /// that aren't parsed, and 0 for a field of an invalid header; nothing of a list that isn't there. The one error is want
    /// of memory, and then some of them may have been put.
    pub fn append(&self, list: u32, state: &State14, bits: &mut Bits) -> Result<(), OutOfMemory>
        ensures { OnOk result (bits.new ≡ bits.old ++ rows_bits state.now.state (rows_at self.now list)) }
    {
        push_rows(bits, state, self.rows(list))
    }

    /// The bits of the list with this number, as `append` puts them. The one error is want of memory.
    pub fn bits_of(&self, alloc: Global, list: u32, state: &State14) -> Result<Bits, OutOfMemory>
        ensures { IfOk result (λ bits. bits ≡ rows_bits state.now.state (rows_at self.now list)) }
    {
        let mut bits = Bits::new(alloc);
        self.append(list, state, &mut bits)?;
        Ok(bits)
    }
}
