// Header and struct types with the names of their fields.
ghost use Rattle.std.specs.Prelude.{◌≡◌, List, map, filter, IfOk, slice_get};
ghost use Rattle.std.specs.Option.{option_map};
ghost use Rattle.p416_syntax.specs.Scopes.{Known};
ghost use Rattle.p416_syntax.specs.Declarations.{field_name, member_name};
ghost use Rattle.p416_syntax.specs.Expressions.{field_kind_in};
ghost use Rattle.p416_names.specs.Seen.{seen_field, seen_fields};
ghost use Rattle.p416_names.specs.internal.Tables.{field_names, is_type, fields_of, bits_of_field, kind_of_field, kind_at};

use crate::fields::{Fields, fields_of};
use name_numbers::{Numbering, number_names};
use p4x_bits::OutOfMemory;
use p416_syntax::{BitField, Decl16, StructField};
use std::alloc::Global;
use std::marker::Model;

/// A type that is declared, with the names of its fields. Contracts see the declaration.
#[derive(Drop)]
pub struct Layout<'a> {
    decl: &'a Decl16,
    names: Numbering<'a>,
}

impl<'a> Model for Layout<'a> {
    ghost use Rattle.p416_syntax.specs.declared.program.Decl16.{Decl16};
    ghost use Rattle.p416_syntax.specs.contracts.program.Decl16 as declaration;
    ghost use Rattle.p416_names.specs.internal.Tables.{field_names};
    ghost use Rattle.std.specs.Prelude.{◌≡◌};

    ghost Value = { Decl16 };

    ghost coded = { declaration.the_row.coded };

    ghost view = { λ l. l.decl.now };

    ghost invariant = { λ l. l.names ≡ field_names l.decl.now };
}

/// A field of a header or of a struct.
#[derive(Clone, Copy, Drop)]
pub enum Field<'a> {
    /// Bits.
    Bits(&'a BitField),
    /// Of a type.
    Typed(&'a StructField),
}

/// The names of the fields of a type; none of another declaration.
fn field_names<'a>(alloc: Global, decl: &'a Decl16) -> Result<Vec<&'a [u8]>, OutOfMemory>
    ensures { IfOk result (λ names. map (λ name. name.now) names.items ≡ field_names decl.now) }
{
    match decl {
        Decl16::Header(header) => bit_field_names(alloc, header.fields.as_slice()),
        Decl16::Struct(declared) => struct_field_names(alloc, declared.fields.as_slice()),
        _ => Ok(Vec::new(alloc)),
    }
}

/// The names of fields of bits.
fn bit_field_names<'a>(alloc: Global, fields: &'a [BitField]) -> Result<Vec<&'a [u8]>, OutOfMemory>
    ensures { IfOk result (λ names. map (λ name. name.now) names.items ≡ map field_name fields.now) }
{
    let mut names = Vec::new(alloc);
    for field in fields {
        names.push(field.name.as_slice())?;
    }
    Ok(names)
}

/// The names of fields of a struct.
fn struct_field_names<'a>(
    alloc: Global,
    fields: &'a [StructField],
) -> Result<Vec<&'a [u8]>, OutOfMemory>
    ensures { IfOk result (λ names. map (λ name. name.now) names.items ≡ map member_name fields.now) }
{
    let mut names = Vec::new(alloc);
    for field in fields {
        names.push(field.name.as_slice())?;
    }
    Ok(names)
}

impl<'a> Layout<'a> {
    /// A type with the names of its fields, or want of memory.
    fn of(alloc: Global, decl: &'a Decl16) -> Result<Self, OutOfMemory>
        ensures { IfOk result (λ l. l ≡ decl.now) }
    {
        let names = number_names(alloc, field_names(alloc, decl)?)?;
        Ok(Layout { decl, names })
    }

    /// The fields, in order.
    pub fn fields(&self) -> Fields<'a>
        ensures { (names : List Known) → seen_fields names result ≡ fields_of names self.now }
    {
        fields_of(self.decl)
    }

    /// The first field of this name.
    #[tactic(auto, using(crate::proofs::Found::field_at_name))]
    pub fn field(&self, name: &[u8]) -> Option<Field<'a>>
        ensures { (names : List Known) → option_map (seen_field names) result ≡ field_kind_in (fields_of names self.now) name.now }
    {
        match self.names.find(name) {
            Some(place) => field_at(self.decl, place as usize),
            None => None,
        }
    }
}

/// The field of bits at a place.
fn bits_at(fields: &[BitField], place: usize) -> Option<Field<'_>>
    ensures { (names : List Known) → option_map (seen_field names) result ≡ option_map bits_of_field (slice_get fields.now place) }
{
    match fields.get(place) {
        Some(field) => Some(Field::Bits(field)),
        None => None,
    }
}

/// The field of a struct at a place.
fn typed_at(fields: &[StructField], place: usize) -> Option<Field<'_>>
    ensures { (names : List Known) → option_map (seen_field names) result ≡ option_map (kind_of_field names) (slice_get fields.now place) }
{
    match fields.get(place) {
        Some(field) => Some(Field::Typed(field)),
        None => None,
    }
}

/// The field of a declaration at a place.
fn field_at(decl: &Decl16, place: usize) -> Option<Field<'_>>
    ensures { (names : List Known) → option_map (seen_field names) result ≡ kind_at names decl.now place }
{
    match decl {
        Decl16::Header(header) => bits_at(header.fields.as_slice(), place),
        Decl16::Struct(declared) => typed_at(declared.fields.as_slice(), place),
        _ => None,
    }
}

/// Whether a declaration is that of a type.
pub fn is_type(decl: &Decl16) -> bool
    ensures { result ≡ is_type decl.now }
{
    matches!(decl, Decl16::Header(_) | Decl16::Struct(_))
}

/// The types that are declared, in order, each with the names of its fields, or want of memory.
pub fn layouts_of(alloc: Global, decls: &[Decl16]) -> Result<Vec<Layout<'_>>, OutOfMemory>
    ensures { IfOk result (λ layouts. layouts.items ≡ filter is_type decls.now) }
{
    let mut layouts = Vec::new(alloc);
    for decl in decls {
        if is_type(decl) {
            layouts.push(Layout::of(alloc, decl)?)?;
        }
    }
    Ok(layouts)
}
