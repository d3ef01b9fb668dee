// How parser states end.
ghost use Rattle.std.specs.Prelude.{◌≡◌, map, option_copied, sum, IfOk};
ghost use Rattle.p414_ready_parser.specs.Rows.{end_row, key_bits, select_part, select_rows};

use crate::cases::rows_of;
use crate::names::ParserNames;
use crate::rows::{Next, ReadyEnd, SelectPart};
use crate::values::select_part;
use p4x_bits::{OutOfMemory, Rows};
use p414_slots::add_bits;
use p414_syntax::{Case, Inst, PValue, Return};
use std::alloc::Global;

/// The bits that these values have together.
fn key_bits(parts: &[SelectPart]) -> Result<u32, OutOfMemory>
    ensures { IfOk result (λ bits. bits ≡ key_bits parts.now) }
{
    let mut total = 0;
    for part in parts {
        total = add_bits(total, u128::from(part.width))?;
    }
    Ok(total)
}

/// The values that a select joins, in order.
fn parts_of(
    alloc: Global,
    names: &ParserNames<'_, '_>,
    latest: Option<&Inst>,
    values: &[PValue],
) -> Result<Rows<SelectPart>, OutOfMemory>
    ensures { IfOk result (λ parts. parts ≡ map (select_part names.now (option_copied latest.entry)) values.now) }
{
    let mut parts = Rows::new(alloc);
    for value in values {
        parts.push(select_part(names.slots(), latest, value)?)?;
    }
    Ok(parts)
}

/// A select by its parts and cases.
fn select_rows(
    alloc: Global,
    names: &ParserNames<'_, '_>,
    parts: Rows<SelectPart>,
    cases: &[Case],
) -> Result<ReadyEnd, OutOfMemory>
    ensures { IfOk result (λ end. end ≡ select_rows names.now parts cases.now) }
{
    let width = key_bits(parts.as_slice())?;
    let rows = rows_of(alloc, names, width, cases)?;
    Ok(ReadyEnd::Select { parts, rows })
}

/// How a state ends, where `latest` was extracted last. The one error is want of memory.
pub fn end_row(
    alloc: Global,
    names: &ParserNames<'_, '_>,
    latest: Option<&Inst>,
    end: &Return,
) -> Result<ReadyEnd, OutOfMemory>
    ensures { IfOk result (λ row. row ≡ end_row names.now (option_copied latest.entry) end.now) }
{
    match end {
        Return::Select(values, cases) => {
            let parts = parts_of(alloc, names, latest, values.as_slice())?;
            select_rows(alloc, names, parts, cases.as_slice())
        }
        Return::State(name) => Ok(ReadyEnd::To(names.next(name.as_slice()))),
        Return::ParseError(_) => Ok(ReadyEnd::To(Next::Unhandled)),
    }
}
