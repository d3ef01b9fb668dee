// The names at the top of a program, and its types.
ghost use Rattle.std.specs.Prelude.{◌≡◌, List, map, filter, IfOk};
ghost use Rattle.std.specs.Option.{option_map};
ghost use Rattle.p416_syntax.specs.Scopes.{Known, sort_in, kind_of_type, fields_in};
ghost use Rattle.p416_syntax.specs.Expressions.{field_kind_in};
ghost use Rattle.p416_syntax.specs.Declarations.{top_names, layouts_of};
ghost use Rattle.p416_syntax.specs.Unknown.{declared_name};
ghost use Rattle.p416_names.specs.SeenKinds.{seen_kind};
ghost use Rattle.p416_names.specs.Seen.{seen_sort, seen_field, seen_fields};
ghost use Rattle.p416_names.specs.internal.Tables.{is_type, sort_at, declared_sort, field_at, fields_at};

use crate::built_in::{built_in_field, built_in_sort};
use crate::decl::{decl_name, decl_sort};
use crate::fields::{Fields, built_in_fields};
use crate::kind::Kind;
use crate::layout::{Field, Layout, is_type, layouts_of};
use crate::sort::Sort;
use name_numbers::{Numbering, number_names};
use p4x_bits::OutOfMemory;
use p416_syntax::{Decl16, Type16};
use std::alloc::Global;
use std::marker::Model;

/// The names at the top of a program with what they mean, and its types with their fields. Of two declarations of one name
/// the first counts. Contracts see the declarations of the program.
pub struct Top<'a> {
    decls: &'a [Decl16],
    names: Numbering<'a>,
    types: Numbering<'a>,
    layouts: Vec<Layout<'a>>,
}

impl Drop for Top<'_> {
    fn drop(self) {
        let Top {
            decls: _decls,
            names: _names,
            types: _types,
            layouts: _layouts,
        } = self;
    }
}

impl<'a> Model for Top<'a> {
    ghost use Rattle.std.specs.Prelude.{◌≡◌, List, map, filter};
    ghost use Rattle.std.specs.Coded.{codes};
    ghost use Rattle.p416_syntax.specs.contracts.program.Decl16 as declaration;
    ghost use Rattle.p416_syntax.specs.declared.program.Decl16.{Decl16};
    ghost use Rattle.p416_names.specs.internal.Tables.{AreTables};

    ghost Value = { List Decl16 };

    ghost coded = { Prim.hlevel (codes, declaration.the_row.coded) };

    ghost view = { λ t. t.decls.now };

    ghost invariant = { λ t. AreTables t.decls.now t.names t.types t.layouts.items };
}

/// The names that the declarations declare, in order.
fn decl_names<'a>(alloc: Global, decls: &'a [Decl16]) -> Result<Vec<&'a [u8]>, OutOfMemory>
    ensures { IfOk result (λ names. map (λ name. name.now) names.items ≡ map declared_name decls.now) }
{
    let mut names = Vec::new(alloc);
    for decl in decls {
        names.push(decl_name(decl).as_slice())?;
    }
    Ok(names)
}

/// The names of the types that are declared, in order.
fn type_names<'a>(alloc: Global, decls: &'a [Decl16]) -> Result<Vec<&'a [u8]>, OutOfMemory>
    ensures { IfOk result (λ names. map (λ name. name.now) names.items ≡ map declared_name (filter is_type decls.now)) }
{
    let mut names = Vec::new(alloc);
    for decl in decls {
        if is_type(decl) {
            names.push(decl_name(decl).as_slice())?;
        }
    }
    Ok(names)
}

/// What the declaration at a place declares.
fn sort_at(decls: &[Decl16], place: usize) -> Option<Sort<'_>>
    ensures { (names : List Known) → option_map (seen_sort names) result ≡ sort_at decls.now place }
{
    match decls.get(place) {
        Some(decl) => Some(decl_sort(decl)),
        None => None,
    }
}

impl<'a> Top<'a> {
    /// The names at the top of these declarations. The one error is want of memory, which more than 2^32 names count as.
    pub fn of(alloc: Global, decls: &'a [Decl16]) -> Result<Self, OutOfMemory>
        ensures { IfOk result (λ top. top ≡ decls.now) }
    {
        let names = number_names(alloc, decl_names(alloc, decls)?)?;
        let types = number_names(alloc, type_names(alloc, decls)?)?;
        let layouts = layouts_of(alloc, decls)?;
        Ok(Top {
            decls,
            names,
            types,
            layouts,
        })
    }

    /// The declarations of the program, in order.
    pub fn decls(&self) -> &'a [Decl16]
        ensures { result.now ≡ self.now }
    {
        self.decls
    }

    /// What the program declares a name as at the top; none where it doesn't.
    fn declared(&self, name: &[u8]) -> Option<Sort<'a>>
        ensures { option_map (seen_sort (top_names self.now)) result ≡ declared_sort self.now name.now }
    {
        match self.names.find(name) {
            Some(place) => sort_at(self.decls, place as usize),
            None => None,
        }
    }

    /// What a name means at the top.
    pub fn sort_of(&self, name: &[u8]) -> Sort<'a>
        ensures { seen_sort (top_names self.now) result ≡ sort_in (top_names self.now) name.now }
    {
        match self.declared(name) {
            Some(sort) => sort,
            None => built_in_sort(name),
        }
    }

    /// What the values of a type are, at the top.
    pub fn kind_of_type(&self, of: &Type16) -> Kind<'a>
        ensures { seen_kind result ≡ kind_of_type (top_names self.now) of.now }
    {
        match of {
            Type16::Bit(width) => Kind::Bits(width.value),
            Type16::Bool => Kind::Boolean,
            Type16::Named(name, size) => self.sort_of(name.as_slice()).named_kind(*size),
        }
    }

    /// What a field is.
    fn field_kind(&self, field: Field<'a>) -> Kind<'a>
        ensures { seen_kind result ≡ seen_field (top_names self.now) field.entry }
    {
        match field {
            Field::Bits(field) => Kind::Bits(field.width.value),
            Field::Typed(field) => self.kind_of_type(&field.of),
        }
    }

    /// The field of this name of the type at a place.
    fn field_at(&self, place: usize, name: &[u8]) -> Option<Kind<'a>>
        ensures { option_map seen_kind result ≡ field_at self.now place name.now }
    {
        let field = self.layouts.get(place)?.field(name)?;
        Some(self.field_kind(field))
    }

    /// What the field of this name is of the header or struct of a type.
    pub fn field(&self, of: &[u8], name: &[u8]) -> Option<Kind<'a>>
        ensures { option_map seen_kind result ≡ field_kind_in (fields_in (layouts_of self.now) of.now) name.now }
    {
        match self.types.find(of) {
            Some(place) => self.field_at(place as usize, name),
            None => built_in_field(of, name),
        }
    }

    /// The fields of the type at a place.
    fn fields_at(&self, place: usize) -> Fields<'a>
        ensures { seen_fields (top_names self.now) result ≡ fields_at self.now place }
    {
        match self.layouts.get(place) {
            Some(layout) => layout.fields(),
            None => Fields::Missing,
        }
    }

    /// The fields of the type of this name, in order.
    #[tactic(auto, using(crate::proofs::Found::fields_there, crate::proofs::Found::fields_past))]
    pub fn fields(&self, of: &[u8]) -> Fields<'a>
        ensures { seen_fields (top_names self.now) result ≡ fields_in (layouts_of self.now) of.now }
    {
        match self.types.find(of) {
            Some(place) => self.fields_at(place as usize),
            None => built_in_fields(of),
        }
    }
}
