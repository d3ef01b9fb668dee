// The new names of what is declared.
ghost use Rattle.std.specs.Prelude.{◌≡◌, ◌++◌, map, filter_map, option_copied, IfOk, OnOk};
ghost use Rattle.std.specs.List.{flat_map};
ghost use Rattle.p414_syntax.specs.Names.{name_in, names_in};
ghost use Rattle.lower_laws_names.specs.NewNames.{letter_of, new_name};
ghost use Rattle.lower_names.specs.RenamedSorts.{renamed, renamed_of, renamed_sorts, new_names};

use crate::making::called;
use crate::staying::stays;
use p4x_bits::{OutOfMemory, Rows, Text};
use p414_names::Names14;
use p414_syntax::{Decl, Sort};
use std::alloc::Global;

/// The new name of what is declared with this number in a sort.
#[derive(Drop)]
pub struct Renamed {
    /// The sort.
    pub sort: Sort,
    /// The number in the sort, from 0 in the order of declaration.
    pub number: u32,
    /// The new name.
    pub name: Text,
}

/// The sorts that have new names, in order.
const SORTS: [Sort; 6] = [
    Sort::HeaderType,
    Sort::Instance,
    Sort::Parse,
    Sort::Action,
    Sort::Table,
    Sort::Object,
];

/// The letter of a sort.
fn letter_of(sort: Sort) -> u8
    ensures { result ≡ letter_of sort }
{
    match sort {
        Sort::HeaderType => b'h',
        Sort::Instance => b'i',
        Sort::Parse => b's',
        Sort::Action => b'a',
        Sort::Table => b't',
        Sort::List => b'l',
        Sort::Calculation => b'k',
        Sort::Object => b'o',
    }
}

/// The new name of what has a name in a sort, with its number there; one that isn't declared counts as the first.
fn rename(
    alloc: Global,
    names: &Names14<'_>,
    sort: Sort,
    name: &[u8],
) -> Result<Renamed, OutOfMemory>
    ensures { IfOk result (λ found. found ≡ renamed names.now sort name.now) }
{
    let number = names.find(sort, name).unwrap_or(0);
    let stays = stays(names, sort, name);
    let name = called(alloc, letter_of(sort), number, name, stays)?;
    Ok(Renamed { sort, number, name })
}

/// The new name of what has a name in a sort.
pub fn new_name(
    alloc: Global,
    names: &Names14<'_>,
    sort: Sort,
    name: &[u8],
) -> Result<Text, OutOfMemory>
    ensures { IfOk result (λ text. text ≡ new_name names.now sort name.now) }
{
    let number = names.find(sort, name).unwrap_or(0);
    let stays = stays(names, sort, name);
    called(alloc, letter_of(sort), number, name, stays)
}

/// The name that a declaration declares in a sort.
fn name_in(sort: Sort, decl: &Decl) -> Option<&Text>
    ensures { option_copied result ≡ name_in sort decl.now }
{
    match (sort, decl) {
        (Sort::HeaderType, Decl::HeaderType(declared)) => Some(declared.name()),
        (Sort::Instance, Decl::Header(declared)) => Some(&declared.name),
        (Sort::Instance, Decl::Metadata(declared)) => Some(&declared.name),
        (Sort::Parse, Decl::Parser(declared)) => Some(&declared.name),
        (Sort::Parse, Decl::Control(declared)) => Some(declared.name()),
        (Sort::Action, Decl::Action(declared)) => Some(&declared.name),
        (Sort::Table, Decl::Table(declared)) => Some(&declared.name),
        (Sort::List, Decl::FieldList(declared)) => Some(&declared.name),
        (Sort::Calculation, Decl::FieldListCalculation(declared)) => Some(&declared.name),
        (Sort::Object, Decl::Counter(declared)) => Some(&declared.name),
        (Sort::Object, Decl::Meter(declared)) => Some(&declared.name),
        (Sort::Object, Decl::Register(declared)) => Some(&declared.name),
        _ => None,
    }
}

/// Puts the new names of a sort behind those that are there.
fn add_sort(
    alloc: Global,
    found: &mut Rows<Renamed>,
    names: &Names14<'_>,
    sort: Sort,
) -> Result<(), OutOfMemory>
    ensures { OnOk result (found.new ≡ found.old ++ renamed_of names.now sort) }
{
    for decl in names.decls() {
        if let Some(name) = name_in(sort, decl) {
            found.push(rename(alloc, names, sort, name.as_slice())?)?;
        }
    }
    Ok(())
}

/// The new names of a program, sort by sort, each sort in the order of declaration.
pub fn new_names(alloc: Global, names: &Names14<'_>) -> Result<Rows<Renamed>, OutOfMemory>
    ensures { IfOk result (λ found. found ≡ new_names names.now) }
{
    let mut found = Rows::new(alloc);
    for sort in &SORTS {
        add_sort(alloc, &mut found, names, *sort)?;
    }
    Ok(found)
}
