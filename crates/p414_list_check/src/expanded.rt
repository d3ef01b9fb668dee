// C8: what the items of a field list come to by themselves, and the lists that stand in it.
ghost use Rattle.std.specs.Prelude.{◌≡◌, ◌+◌, ◌≤◌, ◌++◌, cond, length, map, min, sum_by, option_to_list, IfOk, OnOk};
ghost use Rattle.std.specs.Option.{option_map_or};
ghost use Rattle.p414_syntax.specs.Fields.{instance_type};
ghost use Rattle.p414_syntax.specs.Totals.{field_count};
ghost use Rattle.p414_syntax.specs.Expansion.{list_number, inner_by_name, inner_number, fields_of, list_in};
ghost use Rattle.p414_list_check.specs.internal.Expanded.{capped_count, own_counts};
ghost use Rattle.p414_list_check.specs.internal.Measures.{own_length_of, own_length, own_standard, own_of};

use p4x_bits::OutOfMemory;
use p414_names::{Names14, is_standard};
use p414_syntax::{Decl, Inst, Item, Sort};
use std::alloc::Global;

/// What is counted stays at this number, which is over each limit.
pub const LIMIT: u64 = 65_537;

/// What is counted of the items that a list comes to.
#[derive(Clone, Copy, Drop)]
pub enum Measure {
    /// Each item.
    Items,
    /// Fields of standard metadata.
    Standard,
}

/// The sum, but at most the limit.
pub fn capped(so_far: u64, more: u64) -> u64
    requires { so_far ≤ 65537 }
    ensures { result ≡ min 65537 (so_far + more) }
{
    if more > LIMIT - so_far {
        LIMIT
    } else {
        so_far + more
    }
}

/// The number of the list with a name.
#[tactic(auto, using(crate::proofs::ListNames::same_number))]
pub fn list_number(names: &Names14<'_>, name: &[u8]) -> Option<usize>
    ensures { result ≡ list_number names.now name.now }
{
    names.number_of(Sort::List, name)
}

/// The number of the list that a name with or without an index stands for.
fn inner_by_name(names: &Names14<'_>, instance: &Inst) -> Option<usize>
    ensures { result ≡ inner_by_name names.now instance.now }
{
    if names.is_instance(instance.name.as_slice()) || instance.index.is_some() {
        None
    } else {
        list_number(names, instance.name.as_slice())
    }
}

/// The number of the list that an item stands for.
pub fn inner_number(names: &Names14<'_>, item: &Item) -> Option<usize>
    ensures { result ≡ inner_number names.now item.now }
{
    match item {
        Item::Instance(instance) => inner_by_name(names, instance),
        _ => None,
    }
}

/// How many fields the type of an instance has.
fn type_field_count(names: &Names14<'_>, name: &[u8]) -> usize
    ensures { result ≡ option_map_or field_count (instance_type names.now name.now) 0 }
{
    match names.instance_type(name) {
        Some(found) => found.fields().len(),
        None => 0,
    }
}

/// How many fields an instance has. Standard metadata has five.
fn field_count(names: &Names14<'_>, name: &[u8]) -> usize
    ensures { result ≡ length (fields_of names.now name.now) }
{
    if is_standard(name) {
        5
    } else {
        type_field_count(names, name)
    }
}

/// How many items an instance comes to, and none where a list is meant.
fn own_length_of(names: &Names14<'_>, instance: &Inst) -> usize
    ensures { result ≡ own_length_of names.now instance.now }
{
    match inner_by_name(names, instance) {
        Some(_) => 0,
        None => field_count(names, instance.name.as_slice()),
    }
}

/// How many items an item comes to by itself.
fn own_length(names: &Names14<'_>, item: &Item) -> usize
    ensures { result ≡ own_length names.now item.now }
{
    match item {
        Item::Instance(instance) => own_length_of(names, instance),
        _ => 1,
    }
}

/// The number where the choice is made, and else 0.
fn chosen(choice: bool, number: usize) -> usize
    ensures { result ≡ cond choice number 0 }
{
    if choice { number } else { 0 }
}

/// How many fields of standard metadata are among these.
fn own_standard(item: &Item) -> usize
    ensures { result ≡ own_standard item.now }
{
    match item {
        Item::Instance(instance) => chosen(is_standard(instance.name.as_slice()), 5),
        Item::Field(field) => chosen(is_standard(field.instance.name.as_slice()), 1),
        _ => 0,
    }
}

/// What is counted of what an item comes to by itself.
fn own_count(names: &Names14<'_>, measure: Measure, item: &Item) -> u64
    ensures { result ≡ own_of names.now measure item.now }
{
    match measure {
        Measure::Items => own_length(names, item) as u64,
        Measure::Standard => own_standard(item) as u64,
    }
}

/// The same of these items together, but at most the limit.
#[tactic(auto, using(crate::proofs::Loops::cut_now))]
fn items_count(names: &Names14<'_>, measure: Measure, items: &[Item]) -> u64
    ensures { result ≡ min 65537 (sum_by (own_of names.now measure) items.now) }
{
    let mut total = 0;
    for item in items {
        total = capped(total, own_count(names, measure, item));
    }
    total
}

/// Puts the number of a declaration behind these, if it is a list.
fn add_count(
    found: &mut Vec<u64>,
    names: &Names14<'_>,
    measure: Measure,
    decl: &Decl,
) -> Result<(), OutOfMemory>
    ensures { OnOk result (found.new.items ≡ found.old.items ++ map (capped_count 65537 (own_of names.now measure)) (option_to_list (list_in decl.now))) }
{
    if let Decl::FieldList(declared) = decl {
        found.push(items_count(names, measure, declared.items.as_slice()))?;
    }
    Ok(())
}

/// What is counted of each list by itself, but at most the limit.
#[tactic(auto, using(crate::proofs::Loops::list_now))]
pub fn own_counts(
    alloc: Global,
    names: &Names14<'_>,
    measure: Measure,
) -> Result<Vec<u64>, OutOfMemory>
    ensures { IfOk result (λ found. found.items ≡ own_counts 65537 (own_of names.now measure) names.now) }
{
    let mut found = Vec::new(alloc);
    for decl in names.decls() {
        add_count(&mut found, names, measure, decl)?;
    }
    Ok(found)
}
