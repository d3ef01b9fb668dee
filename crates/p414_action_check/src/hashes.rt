// C15: how long the inputs of hashes are.
ghost use Rattle.std.specs.Prelude.{◌≡◌, ◌+◌, ◌≤◌, ◌++◌, map, min, slice_index, sum_by, option_to_list, IfOk, OnOk};
ghost use Rattle.p414_syntax.specs.Lists.{calculation_in};
ghost use Rattle.p414_action_check.specs.internal.Counted.{list_length, input_length, input_lengths};

use p4x_bits::{OutOfMemory, Text};
use p414_list_check::list_number;
use p414_names::Names14;
use p414_syntax::{Decl, FieldListCalculation};
use std::alloc::Global;

/// What is counted stays at this number, which is over each limit.
pub const LIMIT: u64 = 65_537;

/// The sum, but at most the limit.
pub fn capped(so_far: u64, more: u64) -> u64
    requires { so_far ≤ 65537 }
    ensures { result ≡ min 65537 (so_far + more) }
{
    if more > LIMIT - so_far {
        LIMIT
    } else {
        so_far + more
    }
}

/// The number at a place, and 0 where there is none.
pub fn number_at(numbers: &[u64], place: usize) -> u64
    ensures { result ≡ slice_index numbers.now place }
{
    match numbers.get(place) {
        Some(number) => *number,
        None => 0,
    }
}

/// How many items the list with a name comes to, by how long each list is.
fn list_length(names: &Names14<'_>, lengths: &[u64], name: &[u8]) -> u64
    ensures { result ≡ list_length names.now lengths.now name.now }
{
    match list_number(names, name) {
        Some(number) => number_at(lengths, number),
        None => 0,
    }
}

/// The same of these lists together, but at most the limit.
#[tactic(auto, using(p414_list_check::proofs::Loops::cut_now))]
fn names_length(names: &Names14<'_>, lengths: &[u64], inputs: &[Text]) -> u64
    ensures { result ≡ min 65537 (sum_by (list_length names.now lengths.now) inputs.now) }
{
    let mut total = 0;
    for name in inputs {
        total = capped(total, list_length(names, lengths, name.as_slice()));
    }
    total
}

/// The same of the lists that a calculation takes.
fn input_length(names: &Names14<'_>, lengths: &[u64], calculation: &FieldListCalculation) -> u64
    ensures { result ≡ input_length names.now lengths.now calculation.now }
{
    names_length(names, lengths, calculation.input.as_slice())
}

/// Puts what a declaration takes last, if it is a calculation.
fn add_input(
    found: &mut Vec<u64>,
    names: &Names14<'_>,
    lengths: &[u64],
    decl: &Decl,
) -> Result<(), OutOfMemory>
    ensures { OnOk result (found.new.items ≡ found.old.items ++ map (input_length names.now lengths.now) (option_to_list (calculation_in decl.now))) }
{
    if let Decl::FieldListCalculation(declared) = decl {
        found.push(input_length(names, lengths, declared))?;
    }
    Ok(())
}

/// How many items the lists come to that each calculation takes, in order, but at most the limit. The one error is want of
/// memory.
pub fn input_lengths(
    alloc: Global,
    names: &Names14<'_>,
    lengths: &[u64],
) -> Result<Vec<u64>, OutOfMemory>
    ensures { IfOk result (λ found. found.items ≡ input_lengths names.now lengths.now) }
{
    let mut found = Vec::new(alloc);
    for decl in names.decls() {
        add_input(&mut found, names, lengths, decl)?;
    }
    Ok(found)
}
