// The values of parser states.
ghost use Rattle.std.specs.Prelude.{◌≡◌, Some, option_copied, unwrap_or, IfOk};
ghost use Rattle.p414_syntax.specs.Selects.{latest_bits, value_bits};
ghost use Rattle.p414_ready_parser.specs.declared.rows.ReadyValue.TheVariants as ready_value;
ghost use Rattle.p414_ready_parser.specs.Rows.{latest_row, value_row, select_part};

use crate::numbers::wrapped;
use crate::rows::{ReadyValue, SelectPart};
use p4x_bits::OutOfMemory;
use p414_slots::{Slots, narrow_number, narrow_width};
use p414_syntax::{Inst, Literal, PValue};

/// Bits behind those that are extracted.
fn current(offset: Literal, width: Literal) -> Result<ReadyValue, OutOfMemory>
    ensures { IfOk result (λ value. value ≡ ready_value.Current offset.value width.value) }
{
    let offset = narrow_number(offset.value)?;
    let width = narrow_width(width.value)?;
    Ok(ReadyValue::Current { offset, width })
}

/// A field of this instance, which was extracted last.
fn latest_of(slots: &Slots<'_, '_>, latest: &Inst, field: &[u8]) -> Result<ReadyValue, OutOfMemory>
    ensures { IfOk result (λ value. value ≡ latest_row slots.now (Some latest.now) field.now) }
{
    let instance = slots.instance(latest.name.as_slice())?;
    let field = slots.field(latest.name.as_slice(), field)?;
    Ok(ReadyValue::Latest { instance, field })
}

/// A field of what was extracted last, if something was.
fn latest_row(
    slots: &Slots<'_, '_>,
    latest: Option<&Inst>,
    field: &[u8],
) -> Result<ReadyValue, OutOfMemory>
    ensures { IfOk result (λ value. value ≡ latest_row slots.now (option_copied latest.entry) field.now) }
{
    match latest {
        Some(latest) => latest_of(slots, latest, field),
        None => Ok(ReadyValue::Number(0)),
    }
}

/// A value, where `latest` was extracted last, and so many bits get the value. The one error is want of memory.
pub fn value_row(
    slots: &Slots<'_, '_>,
    latest: Option<&Inst>,
    width: u8,
    value: &PValue,
) -> Result<ReadyValue, OutOfMemory>
    ensures { IfOk result (λ row. row ≡ value_row slots.now (option_copied latest.entry) width value.now) }
{
    match value {
        PValue::Current(offset, bits) => current(*offset, *bits),
        PValue::Latest(field) => latest_row(slots, latest, field.as_slice()),
        PValue::Field(field) => Ok(ReadyValue::Field(slots.slot(field)?)),
        PValue::Number(number) => Ok(ReadyValue::Number(wrapped(width, *number)?)),
    }
}

/// The bits of a field of what was extracted last; 0 where nothing was.
fn latest_bits(slots: &Slots<'_, '_>, latest: Option<&Inst>, field: &[u8]) -> u128
    ensures { result ≡ latest_bits slots.now (option_copied latest.entry) field.now }
{
    match latest {
        Some(latest) => slots
            .names()
            .width_of(latest.name.as_slice(), field)
            .unwrap_or(0),
        None => 0,
    }
}

/// How many bits of a value a select joins.
fn value_bits(slots: &Slots<'_, '_>, latest: Option<&Inst>, value: &PValue) -> u128
    ensures { result ≡ value_bits slots.now (option_copied latest.entry) value.now }
{
    match value {
        PValue::Current(_, bits) => bits.value,
        PValue::Latest(field) => latest_bits(slots, latest, field.as_slice()),
        PValue::Field(field) => slots.names().ref_width(field).unwrap_or(0),
        PValue::Number(_) => 0,
    }
}

/// One of the values that a select joins. The one error is want of memory.
pub fn select_part(
    slots: &Slots<'_, '_>,
    latest: Option<&Inst>,
    value: &PValue,
) -> Result<SelectPart, OutOfMemory>
    ensures { IfOk result (λ part. part ≡ select_part slots.now (option_copied latest.entry) value.now) }
{
    let width = narrow_width(value_bits(slots, latest, value))?;
    let value = value_row(slots, latest, width, value)?;
    Ok(SelectPart { value, width })
}
