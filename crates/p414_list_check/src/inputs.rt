// C8: the lists that the calculations of calculated fields take.
ghost use Rattle.std.specs.Prelude.{◌≡◌, ◌++◌, map, slice_index, IfOk, OnOk};
ghost use Rattle.std.specs.List.{flat_map};
ghost use Rattle.p414_syntax.specs.Expansion.{list_number};
ghost use Rattle.p414_syntax.specs.Lists.{calculated_in};
ghost use Rattle.p414_list_check.specs.internal.Expanded.{entry_numbers, field_numbers, input_numbers, total_from};

use crate::calculated::calculation_of;
use crate::expanded::{capped, list_number};
use p4x_bits::{OutOfMemory, Text};
use p414_names::Names14;
use p414_syntax::{Calc, Decl};
use std::alloc::Global;

/// Puts the numbers of the lists with these names last.
fn add_names(
    found: &mut Vec<Option<usize>>,
    names: &Names14<'_>,
    inputs: &[Text],
) -> Result<(), OutOfMemory>
    ensures { OnOk result (found.new.items ≡ found.old.items ++ map (list_number names.now) inputs.now) }
{
    for name in inputs {
        found.push(list_number(names, name.as_slice()))?;
    }
    Ok(())
}

/// Puts the numbers of the lists that an entry takes last.
fn add_entry(
    found: &mut Vec<Option<usize>>,
    names: &Names14<'_>,
    entry: &Calc,
) -> Result<(), OutOfMemory>
    ensures { OnOk result (found.new.items ≡ found.old.items ++ entry_numbers names.now entry.now) }
{
    match calculation_of(names, entry.calculation.as_slice()) {
        Some(calculation) => add_names(found, names, calculation.input.as_slice()),
        None => Ok(()),
    }
}

/// The same of these entries.
fn add_entries(
    found: &mut Vec<Option<usize>>,
    names: &Names14<'_>,
    entries: &[Calc],
) -> Result<(), OutOfMemory>
    ensures { OnOk result (found.new.items ≡ found.old.items ++ flat_map (entry_numbers names.now) entries.now) }
{
    for entry in entries {
        add_entry(found, names, entry)?;
    }
    Ok(())
}

/// The same of a declaration, if it is a calculated field.
fn add_decl(
    found: &mut Vec<Option<usize>>,
    names: &Names14<'_>,
    decl: &Decl,
) -> Result<(), OutOfMemory>
    ensures { OnOk result (found.new.items ≡ found.old.items ++ flat_map (field_numbers names.now) (calculated_in decl.now)) }
{
    match decl {
        Decl::CalculatedField(declared) => add_entries(found, names, declared.entries.as_slice()),
        _ => Ok(()),
    }
}

/// The numbers of the lists that all entries of calculated fields take, entry after entry; none for a list that isn't
/// there.
#[tactic(auto, using(crate::proofs::Loops::field_now))]
pub fn input_numbers(alloc: Global, names: &Names14<'_>) -> Result<Vec<Option<usize>>, OutOfMemory>
    ensures { IfOk result (λ found. found.items ≡ input_numbers names.now) }
{
    let mut found = Vec::new(alloc);
    for decl in names.decls() {
        add_decl(&mut found, names, decl)?;
    }
    Ok(found)
}

/// The size of the list with this number.
fn size_at(sizes: &[u64], list: usize) -> u64
    ensures { result ≡ slice_index sizes.now list }
{
    match sizes.get(list) {
        Some(size) => *size,
        None => 0,
    }
}

/// What these lists come to together, but at most the limit; nothing where one isn't there.
pub fn total(sizes: &[u64], lists: &[Option<usize>]) -> Option<u64>
    ensures { result ≡ total_from 65537 sizes.now 0 lists.now }
{
    let mut so_far = 0;
    for list in lists {
        let Some(list) = *list else {
            return None;
        };
        so_far = capped(so_far, size_at(sizes, list));
    }
    Some(so_far)
}
