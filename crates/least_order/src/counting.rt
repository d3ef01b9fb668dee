// A number above all labels.
ghost use Rattle.std.specs.Prelude.{ℕ, ◌<◌, ◌≤◌, IfOk};
ghost use Rattle.digraph.specs.Graphs.{Among};
ghost use Rattle.least_order.specs.Labelled.{labels_of};

use p4x_bits::{OutOfMemory, Rows};

/// A number above all labels. Where there is none that fits, memory would run out.
pub fn count_of(labels: &[Rows<usize>]) -> Result<usize, OutOfMemory>
    ensures { IfOk result (λ count. (a x : ℕ) → Among x (labels_of labels.now a) → x < count) }
{
    let mut count = 0;
    for row in labels {
        count = above_all(count, row.as_slice())?;
    }
    Ok(count)
}

/// A number above these, and not below the least one.
fn above_all(least: usize, numbers: &[usize]) -> Result<usize, OutOfMemory>
    ensures least { IfOk result (λ count. least ≤ count) }
    ensures above { IfOk result (λ count. (x : ℕ) → Among x numbers.now → x < count) }
{
    let mut count = least;
    for number in numbers {
        count = above_one(count, *number)?;
    }
    Ok(count)
}

/// A number above this one, and not below the least one.
fn above_one(least: usize, number: usize) -> Result<usize, OutOfMemory>
    ensures least { IfOk result (λ count. least ≤ count) }
    ensures above { IfOk result (λ count. number < count) }
{
    if number < least {
        return Ok(least);
    }
    let next = number.checked_add(1).ok_or(OutOfMemory)?;
    Ok(next)
}
