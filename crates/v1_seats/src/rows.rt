// The fields of the types of a program, each found by its name (P4_16 1.2, "Derived types").
ghost use Rattle.std.specs.Prelude.{◌≡◌, List, length, map, slice_get, IfOk, IfSome, Some};
ghost use Rattle.name_numbers.specs.Names.{find_name};
ghost use Rattle.p416_syntax.specs.Scopes.{FieldKind, fields_in};
ghost use Rattle.p416_syntax.specs.BuiltIn.{standard_layout};
ghost use Rattle.p416_syntax.specs.Declarations.{layouts_of, field_name, member_name};
ghost use Rattle.v1_seats.specs.internal.Rows.{called_of_field, IsRow, AreRows, IsRowAt, Finds};

use name_numbers::{Numbering, number_names};
use p4x_bits::OutOfMemory;
use p416_names::{Fields, Kind, Top, decl_name};
use p416_syntax::{BitField, StructField};
use std::alloc::Global;
use std::marker::Model;
use v1_layout::{depth_of, field_kinds};

const STANDARD_METADATA: &[u8] = b"standard_metadata_t";

/// The fields of a type: their names, and what they are.
pub(crate) struct Row<'a> {
    pub(crate) names: Numbering<'a>,
    pub(crate) kinds: Vec<Kind<'a>>,
}

impl Drop for Row<'_> {
    fn drop(self) {
        let Row {
            names: _names,
            kinds: _kinds,
        } = self;
    }
}

/// A field by its place among those of its type, and what it is.
#[derive(Clone, Copy, Drop)]
pub(crate) struct Place<'a> {
    pub(crate) number: u32,
    pub(crate) kind: Kind<'a>,
}

impl<'a> Row<'a> {
    /// The first field of this name.
    #[tactic(auto, using(crate::proofs::Naming::place_found, crate::proofs::Naming::place_missing))]
    pub(crate) fn find(&self, word: &[u8]) -> Result<Option<Place<'a>>, OutOfMemory>
        ensures { (fields : List FieldKind) → IsRow fields self.now → IfOk result (Finds fields word.now) }
    {
        let Some(number) = self.names.find(word) else {
            return Ok(None);
        };
        match self.kinds.get(number as usize) {
            Some(kind) => Ok(Some(Place {
                number,
                kind: *kind,
            })),
            None => Err(OutOfMemory),
        }
    }
}

/// The types of a program with their fields. Contracts see the types, and the names by which these are found.
pub(crate) struct Rows<'t, 'a> {
    top: &'t Top<'a>,
    numbers: Numbering<'a>,
    rows: Vec<Row<'a>>,
}

impl Drop for Rows<'_, '_> {
    fn drop(self) {
        let Rows {
            top: _top,
            numbers: _numbers,
            rows: _rows,
        } = self;
    }
}

impl<'t, 'a> Model for Rows<'t, 'a> {
    ghost use Rattle.p416_syntax.specs.Declarations.{layouts_of};
    ghost use Rattle.v1_seats.specs.internal.Rows.{Written, AreRows};

    ghost Value = { Written };

    ghost view = { λ r. record { types = layouts_of r.top.now; names = r.numbers } };

    ghost invariant = { λ r. AreRows (layouts_of r.top.now) r.numbers r.rows.items };
}

/// The names of fields of bits.
fn bit_names<'a>(alloc: Global, fields: &'a [BitField]) -> Result<Vec<&'a [u8]>, OutOfMemory>
    ensures { IfOk result (λ names. map (λ name. name.now) names.items ≡ map field_name fields.now) }
{
    let mut names = Vec::new(alloc);
    for field in fields {
        names.push(field.name.as_slice())?;
    }
    Ok(names)
}

/// The names of fields of types.
fn typed_names<'a>(alloc: Global, fields: &'a [StructField]) -> Result<Vec<&'a [u8]>, OutOfMemory>
    ensures { IfOk result (λ names. map (λ name. name.now) names.items ≡ map member_name fields.now) }
{
    let mut names = Vec::new(alloc);
    for field in fields {
        names.push(field.name.as_slice())?;
    }
    Ok(names)
}

/// The names of the fields of the standard metadata.
fn standard_names<'a>(alloc: Global) -> Result<Vec<&'a [u8]>, OutOfMemory>
    ensures { IfOk result (λ names. map (λ name. name.now) names.items ≡ map called_of_field standard_layout.fields) }
{
    let mut names = Vec::new(alloc);
    names.push(INGRESS_PORT)?;
    names.push(EGRESS_SPEC)?;
    names.push(EGRESS_PORT)?;
    names.push(PACKET_LENGTH)?;
    names.push(INSTANCE_TYPE)?;
    names.push(PARSER_ERROR)?;
    names.push(CHECKSUM_ERROR)?;
    Ok(names)
}

const INGRESS_PORT: &[u8] = b"ingress_port";

const EGRESS_SPEC: &[u8] = b"egress_spec";

const EGRESS_PORT: &[u8] = b"egress_port";

const PACKET_LENGTH: &[u8] = b"packet_length";

const INSTANCE_TYPE: &[u8] = b"instance_type";

const PARSER_ERROR: &[u8] = b"parser_error";

const CHECKSUM_ERROR: &[u8] = b"checksum_error";

/// The names of the fields of the type of this name.
#[tactic(auto, using(crate::proofs::Naming::bits_named, crate::proofs::Naming::members_named))]
fn field_names<'a>(alloc: Global, top: &Top<'a>, of: &[u8]) -> Result<Vec<&'a [u8]>, OutOfMemory>
    ensures { IfOk result (λ names. map (λ name. name.now) names.items ≡ map called_of_field (fields_in (layouts_of top.now) of.now)) }
{
    match top.fields(of) {
        Fields::Bits(fields) => bit_names(alloc, fields),
        Fields::Typed(fields) => typed_names(alloc, fields),
        Fields::Standard => standard_names(alloc),
        Fields::Missing => Ok(Vec::new(alloc)),
    }
}

/// The fields of the type of this name.
fn row_of<'a>(alloc: Global, top: &Top<'a>, of: &[u8]) -> Result<Row<'a>, OutOfMemory>
    ensures { IfOk result (λ r. IsRow (fields_in (layouts_of top.now) of.now) r) }
{
    let names = number_names(alloc, field_names(alloc, top, of)?)?;
    let kinds = field_kinds(alloc, top, of)?;
    Ok(Row { names, kinds })
}

/// The names of all types.
fn type_names<'a>(alloc: Global, top: &Top<'a>) -> Result<Vec<&'a [u8]>, OutOfMemory> {
    let mut names = Vec::new(alloc);
    for decl in top.decls() {
        names.push(decl_name(decl).as_slice())?;
    }
    names.push(STANDARD_METADATA)?;
    Ok(names)
}

/// The fields of the types of these names.
fn rows_of<'a>(
    alloc: Global,
    top: &Top<'a>,
    names: &[&'a [u8]],
) -> Result<Vec<Row<'a>>, OutOfMemory>
    ensures { IfOk result (λ rows. AreRows (layouts_of top.now) (map (λ name. name.now) names.now) rows.items) }
{
    let mut rows = Vec::new(alloc);
    for name in names {
        rows.push(row_of(alloc, top, name)?)?;
    }
    Ok(rows)
}

/// The row with a number among these.
fn row_at<'r, 'a>(rows: &'r [Row<'a>], number: usize) -> Option<&'r Row<'a>>
    ensures { IfSome result (λ r. slice_get rows.now number ≡ Some r.now) }
{
    rows.get(number)
}

impl<'t, 'a> Rows<'t, 'a> {
    /// The types of a program with these names at the top, or want of memory.
    pub(crate) fn of(alloc: Global, top: &'t Top<'a>) -> Result<Self, OutOfMemory>
        ensures { IfOk result (λ r. r.types ≡ layouts_of top.now) }
    {
        let names = type_names(alloc, top)?;
        let rows = rows_of(alloc, top, &names)?;
        let numbers = number_names(alloc, names)?;
        Ok(Rows { top, numbers, rows })
    }

    /// How many types there are.
    pub(crate) fn depth(&self) -> Result<usize, OutOfMemory>
        ensures { IfOk result (λ n. n ≡ length self.now.types) }
    {
        depth_of(self.top)
    }

    /// How many names there are.
    pub(crate) fn len(&self) -> usize
        ensures { result ≡ length self.now.names }
    {
        self.numbers.len()
    }

    /// The number of a type by its name. A type that isn't declared counts as want of memory.
    pub(crate) fn number(&self, of: &[u8]) -> Result<usize, OutOfMemory>
        ensures { IfOk result (λ n. find_name self.now.names of.now ≡ Some n) }
    {
        match self.numbers.find(of) {
            Some(number) => Ok(number as usize),
            None => Err(OutOfMemory),
        }
    }

    /// The row with a number.
    pub(crate) fn at(&self, number: usize) -> Result<&Row<'a>, OutOfMemory>
        ensures { IfOk result (λ r. IsRowAt self.now number r.now) }
    {
        match row_at(&self.rows, number) {
            Some(row) => Ok(row),
            None => Err(OutOfMemory),
        }
    }

    /// The fields of the type of this name. A type that isn't declared counts as want of memory.
    #[tactic(auto, using(crate::proofs::Naming::row_named))]
    pub(crate) fn row(&self, of: &[u8]) -> Result<&Row<'a>, OutOfMemory>
        ensures { IfOk result (λ r. IsRow (fields_in self.now.types of.now) r.now) }
    {
        let number = self.number(of)?;
        let row = self.at(number)?;
        Ok(row)
    }
}
