// The cases of a select as rows.
ghost use Rattle.std.specs.Prelude.{◌≡◌, ◌++◌, filter_map, flat_map, map, option_to_list, IfOk, OnOk};
ghost use Rattle.p414_ready_parser.specs.Rows.{case_next, case_rows, row_to, test_by, test_of};

use crate::names::ParserNames;
use crate::numbers::fits;
use crate::rows::{CaseRow, CaseTest, Next};
use p4x_bits::{OutOfMemory, Rows};
use p414_syntax::{Case, CaseTarget, CaseValues, Literal, Masked};
use std::alloc::Global;

/// Where a case leads.
fn case_next(names: &ParserNames<'_, '_>, target: &CaseTarget) -> Next
    ensures { result ≡ case_next names.now target.now }
{
    match target {
        CaseTarget::ParseError(_) => Next::Unhandled,
        CaseTarget::State(name) => names.next(name.as_slice()),
    }
}

/// Which keys a value takes, on the bits of its mask where one stands.
fn test_by(value: u128, mask: Option<Literal>) -> CaseTest
    ensures { result ≡ test_by value mask }
{
    match mask {
        Some(mask) => CaseTest::Masked {
            mask: mask.value,
            value: value & mask.value,
        },
        None => CaseTest::Equal(value),
    }
}

/// Which keys of so many bits a value takes; none where a key can't have it.
fn test_of(width: u32, masked: Masked) -> Option<CaseTest>
    ensures { result ≡ test_of width masked }
{
    if fits(width, masked.value.value) {
        Some(test_by(masked.value.value, masked.mask))
    } else {
        None
    }
}

/// Puts the row of a value last, if it has one.
fn add_value(
    rows: &mut Rows<CaseRow>,
    width: u32,
    next: Next,
    masked: Masked,
) -> Result<(), OutOfMemory>
    ensures { OnOk result (rows.new ≡ rows.old ++ map (row_to next) (option_to_list (test_of width masked))) }
{
    if let Some(test) = test_of(width, masked) {
        rows.push(CaseRow { test, next })?;
    }
    Ok(())
}

/// Puts the rows of these values last.
#[tactic(auto, using(crate::proofs::Loops::kept_now))]
fn add_values(
    rows: &mut Rows<CaseRow>,
    width: u32,
    next: Next,
    values: &[Masked],
) -> Result<(), OutOfMemory>
    ensures { OnOk result (rows.new ≡ rows.old ++ map (row_to next) (filter_map (test_of width) values.now)) }
{
    for masked in values {
        add_value(rows, width, next, *masked)?;
    }
    Ok(())
}

/// Puts the rows of a case last.
fn add_case(
    rows: &mut Rows<CaseRow>,
    names: &ParserNames<'_, '_>,
    width: u32,
    case: &Case,
) -> Result<(), OutOfMemory>
    ensures { OnOk result (rows.new ≡ rows.old ++ case_rows names.now width case.now) }
{
    let next = case_next(names, &case.target);
    match &case.values {
        CaseValues::Default => rows.push(CaseRow {
            test: CaseTest::Any,
            next,
        }),
        CaseValues::Values(values) => add_values(rows, width, next, values.as_slice()),
    }
}

/// The rows of these cases, in order, for keys of so many bits. The one error is want of memory.
pub fn rows_of(
    alloc: Global,
    names: &ParserNames<'_, '_>,
    width: u32,
    cases: &[Case],
) -> Result<Rows<CaseRow>, OutOfMemory>
    ensures { IfOk result (λ rows. rows ≡ flat_map (case_rows names.now width) cases.now) }
{
    let mut rows = Rows::new(alloc);
    for case in cases {
        add_case(&mut rows, names, width, case)?;
    }
    Ok(rows)
}
