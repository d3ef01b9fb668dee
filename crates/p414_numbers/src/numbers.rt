// The names of a program, sort by sort, with the number of each.
ghost use Rattle.std.specs.Prelude.{◌≡◌, false, option_copied, IfOk};
ghost use Rattle.std.specs.List.{list_any};
ghost use Rattle.p414_syntax.specs.Names.{name_in, names_in, repeats};
ghost use Rattle.p414_syntax.specs.Twice.{sorts, repeats_in, declares_twice};
ghost use Rattle.p414_numbers.specs.Sorts.{place_of, names_for, names_by_sort, number_among};

use crate::owned_names::OwnedNames;
use p4x_bits::{OutOfMemory, Text};
use p414_syntax::{Decl, Sort};
use std::alloc::Global;
use std::marker::Model;

/// The sorts in order.
const SORTS: [Sort; 8] = [
    Sort::HeaderType,
    Sort::Instance,
    Sort::Parse,
    Sort::Action,
    Sort::Table,
    Sort::List,
    Sort::Calculation,
    Sort::Object,
];

/// The names that a program declares, each found with its number. Contracts see the names of each sort, in the order of the
/// text.
#[derive(Drop)]
pub struct DeclNumbers {
    sorts: Vec<OwnedNames>,
}

impl Model for DeclNumbers {
    ghost use Rattle.std.specs.Prelude.{ℕ, List};

    ghost Value = { List (List (List ℕ)) };

    ghost view = { λ n. n.sorts.items };
}

/// Where a sort stands among the sorts.
fn place_of(sort: Sort) -> usize
    ensures { result ≡ place_of sort }
{
    match sort {
        Sort::HeaderType => 0,
        Sort::Instance => 1,
        Sort::Parse => 2,
        Sort::Action => 3,
        Sort::Table => 4,
        Sort::List => 5,
        Sort::Calculation => 6,
        Sort::Object => 7,
    }
}

/// The name that a declaration declares in a sort.
fn name_in(sort: Sort, decl: &Decl) -> Option<&Text>
    ensures { option_copied result ≡ name_in sort decl.now }
{
    match (sort, decl) {
        (Sort::HeaderType, Decl::HeaderType(declared)) => Some(declared.name()),
        (Sort::Instance, Decl::Header(declared)) => Some(&declared.name),
        (Sort::Instance, Decl::Metadata(declared)) => Some(&declared.name),
        (Sort::Parse, Decl::Parser(declared)) => Some(&declared.name),
        (Sort::Parse, Decl::Control(declared)) => Some(declared.name()),
        (Sort::Action, Decl::Action(declared)) => Some(&declared.name),
        (Sort::Table, Decl::Table(declared)) => Some(&declared.name),
        (Sort::List, Decl::FieldList(declared)) => Some(&declared.name),
        (Sort::Calculation, Decl::FieldListCalculation(declared)) => Some(&declared.name),
        (Sort::Object, Decl::Counter(declared)) => Some(&declared.name),
        (Sort::Object, Decl::Meter(declared)) => Some(&declared.name),
        (Sort::Object, Decl::Register(declared)) => Some(&declared.name),
        _ => None,
    }
}

/// The names of a sort in which no name stands twice.
#[tactic(auto, using(crate::proofs::Once::not_there))]
fn names_in(alloc: Global, sort: Sort, decls: &[Decl]) -> Result<OwnedNames, OutOfMemory>
    requires { repeats (names_in sort decls.now) ≡ false }
    ensures { IfOk result (λ names. names ≡ names_in sort decls.now) }
{
    let mut names = OwnedNames::new(alloc);
    for decl in decls {
        if let Some(name) = name_in(sort, decl) {
            names.add(alloc, name.as_slice())?;
        }
    }
    Ok(names)
}

/// The names of each of these sorts, in none of which a name stands twice.
#[tactic(auto, using(crate::proofs::Once::once_in))]
fn names_of_sorts(
    alloc: Global,
    sorts: &[Sort],
    decls: &[Decl],
) -> Result<Vec<OwnedNames>, OutOfMemory>
    requires { list_any (repeats_in decls.now) sorts.now ≡ false }
    ensures { IfOk result (λ found. found.items ≡ names_for decls.now sorts.now) }
{
    let mut found = Vec::new(alloc);
    for sort in sorts {
        found.push(names_in(alloc, *sort, decls)?)?;
    }
    Ok(found)
}

/// The numbers of the declarations of a program that declares no name twice in its sort. The only error is want of memory,
/// which more declarations of a sort than numbers of 32 bits can tell apart count as.
#[tactic(auto, using(crate::proofs::Once::once_in_each))]
pub fn numbers_of(alloc: Global, decls: &[Decl]) -> Result<DeclNumbers, OutOfMemory>
    requires { declares_twice decls.now ≡ false }
    ensures { IfOk result (λ numbers. numbers ≡ names_by_sort decls.now) }
{
    let sorts = names_of_sorts(alloc, &SORTS, decls)?;
    Ok(DeclNumbers { sorts })
}

impl DeclNumbers {
    /// The number of a name in a sort, from 0 in the order of the text; none where the sort doesn't have it. It takes no
    /// memory, and its time doesn't grow with the number of names.
    pub fn find(&self, sort: Sort, name: &[u8]) -> Option<u32>
        ensures { result ≡ number_among sort self.now name.now }
    {
        match self.sorts.get(place_of(sort)) {
            Some(names) => names.find(name),
            None => None,
        }
    }
}
