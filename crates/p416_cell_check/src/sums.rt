// Whether there are too many cells, or none in an object (the limits are this project's own).
ghost use Rattle.std.specs.Prelude.{◌≡◌, ◌||◌, nat_lt, IfOk};
ghost use Rattle.std.specs.List.{list_any};
ghost use Rattle.p416_syntax.specs.Totals.{is_bad_cell_count, cell_sum, has_bad_cells};

use crate::cells::cell_counts;
use p4x_bits::OutOfMemory;
use p416_syntax::Decl16;
use std::alloc::Global;

/// How many cells one object may have.
const MOST_IN_ONE: u128 = 1_048_576;

/// How many cells all objects together may have.
const MOST_IN_ALL: u128 = 4_194_304;

/// Whether an object has no cell, or too many of them.
fn is_bad_cell_count(count: u128) -> bool
    ensures { result ≡ is_bad_cell_count count }
{
    count < 1 || MOST_IN_ONE < count
}

/// Whether one of these objects has no cell, or too many of them.
fn has_bad_count(counts: &[u128]) -> bool
    ensures { result ≡ list_any is_bad_cell_count counts.now }
{
    for count in counts {
        if is_bad_cell_count(*count) {
            return true;
        }
    }
    false
}

/// Whether these objects have too many cells together.
#[tactic(auto, using(crate::proofs::Summing::within_now, crate::proofs::Summing::over_now))]
fn are_too_many(counts: &[u128]) -> bool
    ensures { result ≡ nat_lt 4194304 (cell_sum counts.now) }
{
    let mut left = MOST_IN_ALL;
    for count in counts {
        if left < *count {
            return true;
        }
        left -= *count;
    }
    false
}

/// Whether one of these objects has no cell or too many, or they have too many together.
fn are_bad_counts(counts: &[u128]) -> bool
    ensures { result ≡ (list_any is_bad_cell_count counts.now || nat_lt 4194304 (cell_sum counts.now)) }
{
    has_bad_count(counts) || are_too_many(counts)
}

/// Whether the objects of these declarations that aren't direct have over 4,194,304 cells together, one of them over
/// 1,048,576 or none: what T12 asks of them, exactly. In time linear in the declarations; the one error is want of memory.
pub fn has_bad_cells(alloc: Global, decls: &[Decl16]) -> Result<bool, OutOfMemory>
    ensures { IfOk result (λ bad. bad ≡ has_bad_cells decls.now) }
{
    let counts = cell_counts(alloc, decls)?;
    Ok(are_bad_counts(&counts))
}
