// The statements of parser states.
ghost use Rattle.std.specs.Prelude.{◌≡◌, None, option_copied, IfOk};
ghost use Rattle.p414_syntax.specs.Uses.{last_behind, last_of};
ghost use Rattle.p414_syntax.specs.declared.parsers.PStmt.TheVariants as pstmt;
ghost use Rattle.p414_ready_parser.specs.Rows.{fixed_element, statement_row, statement_rows};

use crate::rows::ReadyStatement;
use crate::values::value_row;
use p4x_bits::{OutOfMemory, Rows};
use p414_slots::{Slots, element_number};
use p414_syntax::{Index, Inst, PStmt, PValue, Ref};
use std::alloc::Global;

/// The element that an index names; none of `next`.
fn fixed_element(index: Option<Index>) -> Result<Option<u32>, OutOfMemory>
    ensures { IfOk result (λ element. element ≡ fixed_element index) }
{
    match index {
        Some(Index::Next) => Ok(None),
        Some(Index::At(number)) => Ok(Some(element_number(Some(Index::At(number)))?)),
        Some(Index::Last) => Ok(Some(0)),
        None => Ok(Some(0)),
    }
}

/// An extraction.
fn extract_row(slots: &Slots<'_, '_>, instance: &Inst) -> Result<ReadyStatement, OutOfMemory>
    ensures { IfOk result (λ row. row ≡ statement_row slots.now None (pstmt.Extract instance.now)) }
{
    let bits = slots.bits_of_fields(instance.name.as_slice());
    let element = fixed_element(instance.index)?;
    let instance = slots.instance(instance.name.as_slice())?;
    Ok(ReadyStatement::Extract {
        instance,
        element,
        bits,
    })
}

/// A field that gets a value.
fn set_row(
    slots: &Slots<'_, '_>,
    latest: Option<&Inst>,
    field: &Ref,
    value: &PValue,
) -> Result<ReadyStatement, OutOfMemory>
    ensures { IfOk result (λ row. row ≡ statement_row slots.now (option_copied latest.entry) (pstmt.SetMetadata field.now value.now)) }
{
    let slot = slots.slot(field)?;
    let width = slots.bits(field)?;
    let value = value_row(slots, latest, width, value)?;
    Ok(ReadyStatement::Set { slot, width, value })
}

/// A statement, where `latest` was extracted last.
fn statement_row(
    slots: &Slots<'_, '_>,
    latest: Option<&Inst>,
    statement: &PStmt,
) -> Result<ReadyStatement, OutOfMemory>
    ensures { IfOk result (λ row. row ≡ statement_row slots.now (option_copied latest.entry) statement.now) }
{
    match statement {
        PStmt::Extract(instance) => extract_row(slots, instance),
        PStmt::SetMetadata(field, value) => set_row(slots, latest, field, value),
    }
}

/// What was extracted last behind a statement.
fn last_behind<'a>(latest: Option<&'a Inst>, statement: &'a PStmt) -> Option<&'a Inst>
    ensures { option_copied result ≡ last_behind (option_copied latest.entry) statement.now }
{
    match statement {
        PStmt::Extract(instance) => Some(instance),
        PStmt::SetMetadata(_, _) => latest,
    }
}

/// What was extracted last behind all these statements.
pub fn last_of(statements: &[PStmt]) -> Option<&Inst>
    ensures { option_copied result ≡ last_of None statements.now }
{
    let mut latest = None;
    for statement in statements {
        latest = last_behind(latest, statement);
    }
    latest
}

/// The statements of a state, in order. The one error is want of memory.
pub fn statement_rows(
    alloc: Global,
    slots: &Slots<'_, '_>,
    statements: &[PStmt],
) -> Result<Rows<ReadyStatement>, OutOfMemory>
    ensures { IfOk result (λ rows. rows ≡ statement_rows slots.now None statements.now) }
{
    let mut rows = Rows::new(alloc);
    let mut latest = None;
    for statement in statements {
        rows.push(statement_row(slots, latest, statement)?)?;
        latest = last_behind(latest, statement);
    }
    Ok(rows)
}
