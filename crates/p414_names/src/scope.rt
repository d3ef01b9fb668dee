// The names of one sort, with what they are declared by.
ghost use Rattle.std.specs.Prelude.{◌≡◌, true, false, ◌∷◌, ◌++◌, [], Some, option_copied, slice_get, IfOk, OnOk, MatchOption};
ghost use Rattle.std.specs.Bool.{MatchBool};
ghost use Rattle.std.specs.List.{list_any};
ghost use Rattle.p414_syntax.specs.Names.{name_in, names_in, has_name, repeats, number_of, declaration_of};
ghost use Rattle.p414_syntax.specs.Twice.{is_reserved, repeats_in};
ghost use Rattle.p414_names.specs.internal.Scopes.{IsGathered, IsPut, declares_reserved};

use crate::name_set::NameSet;
use crate::primitives::{is_any_primitive, is_standard};
use p4x_bits::{OutOfMemory, Text};
use p414_syntax::{Decl, References, Sort};
use std::alloc::Global;
use std::marker::Model;

/// Names of a sort, and the declarations of these names, both in the order of the text.
#[derive(Drop)]
struct Gathered<'a> {
    names: NameSet<'a>,
    declared: References<'a, Decl>,
}

/// The names of a sort, and its declarations. Contracts see the sort and all declarations of the program.
#[derive(Drop)]
pub struct Scope<'a> {
    sort: Sort,
    decls: &'a [Decl],
    gathered: Gathered<'a>,
}

impl<'a> Model for Scope<'a> {
    ghost use Rattle.std.specs.Prelude.{List};
    ghost use Rattle.p414_syntax.specs.declared.syntax.Decl.{Decl};
    ghost use Rattle.p414_syntax.specs.declared.syntax.Sort.{Sort};
    ghost use Rattle.p414_names.specs.internal.Scopes.{IsGathered};
    ghost use Rattle.std.specs.Coded.{codes};
    ghost use Rattle.p414_syntax.specs.contracts.syntax.Decl as declaration;

    ghost Value = { Sort × List Decl };

    ghost coded = { Prim.hlevel (codes, declaration.the_row.coded) };

    ghost view = { λ s. (s.sort, s.decls.now) };

    ghost invariant = { λ s. IsGathered s.sort s.decls.now s.gathered };
}

impl<'a> Scope<'a> {
    /// The number of a name in the sort, from 0 in the order of the text; none where the sort doesn't have it.
    pub fn find(&self, name: &[u8]) -> Option<usize>
        ensures { result ≡ number_of self.now.0 self.now.1 name.now }
    {
        self.gathered.names.find(name)
    }

    /// The declaration of a name in the sort; none where the sort doesn't have it.
    pub fn declaration(&self, name: &[u8]) -> Option<&'a Decl>
        ensures { option_copied result ≡ declaration_of self.now.0 self.now.1 name.now }
    {
        match self.gathered.names.find(name) {
            Some(number) => self.gathered.declared.get(number),
            None => None,
        }
    }
}

/// The name that a declaration declares in a sort.
fn name_in(sort: Sort, decl: &Decl) -> Option<&Text>
    ensures { option_copied result ≡ name_in sort decl.now }
{
    match (sort, decl) {
        (Sort::HeaderType, Decl::HeaderType(declared)) => Some(declared.name()),
        (Sort::Instance, Decl::Header(declared)) => Some(&declared.name),
        (Sort::Instance, Decl::Metadata(declared)) => Some(&declared.name),
        (Sort::Parse, Decl::Parser(declared)) => Some(&declared.name),
        (Sort::Parse, Decl::Control(declared)) => Some(declared.name()),
        (Sort::Action, Decl::Action(declared)) => Some(&declared.name),
        (Sort::Table, Decl::Table(declared)) => Some(&declared.name),
        (Sort::List, Decl::FieldList(declared)) => Some(&declared.name),
        (Sort::Calculation, Decl::FieldListCalculation(declared)) => Some(&declared.name),
        (Sort::Object, Decl::Counter(declared)) => Some(&declared.name),
        (Sort::Object, Decl::Meter(declared)) => Some(&declared.name),
        (Sort::Object, Decl::Register(declared)) => Some(&declared.name),
        _ => None,
    }
}

/// Whether the sort has the name before anything is declared.
fn is_reserved(sort: Sort, name: &[u8]) -> bool
    ensures { result ≡ is_reserved sort name.now }
{
    match sort {
        Sort::Instance => is_standard(name),
        Sort::Action => is_any_primitive(name),
        _ => false,
    }
}

/// Whether a declaration declares a name that its sort has before.
fn declares_reserved(sort: Sort, decl: &Decl) -> bool
    ensures { result ≡ declares_reserved sort decl.now }
{
    match name_in(sort, decl) {
        Some(name) => is_reserved(sort, name.as_slice()),
        None => false,
    }
}

/// Whether a name is declared that the sort has before.
fn some_reserved(sort: Sort, decls: &[Decl]) -> bool
    ensures { result ≡ list_any (is_reserved sort) (names_in sort decls.now) }
{
    for decl in decls {
        if declares_reserved(sort, decl) {
            return true;
        }
    }
    false
}

impl<'a> Gathered<'a> {
    /// Puts a declaration behind those of the sort, if it declares a name there; false where the name is there.
    fn put(&mut self, sort: Sort, decl: &'a Decl) -> Result<bool, OutOfMemory>
        ensures { IfOk result (λ fresh. IsPut sort self.old self.new decl.now fresh) }
    {
        let Some(name) = name_in(sort, decl) else {
            return Ok(true);
        };
        let fresh = self.names.add(name.as_slice())?;
        self.declared.push(decl)?;
        Ok(fresh)
    }
}

/// Puts the declarations of the sort behind none; false where a name is declared twice in it.
fn put_all<'a>(all: &mut Gathered<'a>, sort: Sort, decls: &'a [Decl]) -> Result<bool, OutOfMemory>
    requires names { all.old.names ≡ [] }
    requires declared { all.old.declared ≡ [] }
    ensures { IfOk result (λ fresh. MatchBool fresh ((repeats (names_in sort decls.now) ≡ false) × IsGathered sort decls.now all.new) (repeats (names_in sort decls.now) ≡ true)) }
{
    for decl in decls {
        if !all.put(sort, decl)? {
            return Ok(false);
        }
    }
    Ok(true)
}

/// The names of a sort; none where a name is declared twice in it.
fn gather(alloc: Global, sort: Sort, decls: &[Decl]) -> Result<Option<Gathered<'_>>, OutOfMemory>
    ensures { IfOk result (λ found. MatchOption found (repeats (names_in sort decls.now) ≡ true) (λ g. (repeats (names_in sort decls.now) ≡ false) × IsGathered sort decls.now g)) }
{
    let mut all = Gathered {
        names: NameSet::new(alloc),
        declared: References::new(alloc),
    };
    if put_all(&mut all, sort, decls)? {
        Ok(Some(all))
    } else {
        Ok(None)
    }
}

/// The names of a sort; none where one of them is reserved there, or declared twice.
pub fn scope_of(alloc: Global, sort: Sort, decls: &[Decl]) -> Result<Option<Scope<'_>>, OutOfMemory>
    ensures { IfOk result (λ found. MatchOption found (repeats_in decls.now sort ≡ true) (λ s. (repeats_in decls.now sort ≡ false) × (s ≡ (sort, decls.now)))) }
{
    if some_reserved(sort, decls) {
        return Ok(None);
    }
    match gather(alloc, sort, decls)? {
        Some(gathered) => Ok(Some(Scope {
            sort,
            decls,
            gathered,
        })),
        None => Ok(None),
    }
}
