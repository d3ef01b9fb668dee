// What headers count (P4_16 1.2, "Header types").
ghost use Rattle.std.specs.Prelude.{◌≡◌, List, map, min, length, sum_by, slice_index, IfOk};
ghost use Rattle.p416_syntax.specs.Kinds.{Kind};
ghost use Rattle.p416_syntax.specs.Scopes.{Known, kind_of_type};
ghost use Rattle.p416_syntax.specs.Declarations.{top_names, bit_field, struct_field};
ghost use Rattle.p416_syntax.specs.Totals.{bits_in, field_bits};
ghost use Rattle.p416_names.specs.SeenKinds.{seen_kind};
ghost use Rattle.p416_names.specs.Seen.{seen_fields};
ghost use Rattle.p416_type_totals.specs.Limit.{up_to};
ghost use Rattle.p416_type_totals.specs.internal.Sized.{bit_limit, as_header, header_of, headers_of};
ghost use Rattle.p416_type_totals.specs.internal.Written.{HasHeaders};

use crate::measure::{LIMIT, Measure, capped};
use crate::types::Types;
use p4x_bits::OutOfMemory;
use p416_names::{Fields, Kind, decl_name};
use p416_syntax::{BitField, StructField, Type16};
use std::alloc::Global;

/// How far bits are counted.
const BIT_LIMIT: u128 = 8 * LIMIT;

/// How many bits these fields have together, but at most the limit.
fn bits_of(fields: &[BitField]) -> u128
    ensures { result ≡ min bit_limit (sum_by field_bits (map bit_field fields.now)) }
{
    let mut so_far = 0;
    for field in fields {
        so_far = capped(BIT_LIMIT, so_far, field.width.value);
    }
    so_far
}

/// How many bits the values of a type have, if they are bits.
fn type_bits(types: &Types<'_, '_>, of: &Type16) -> u128
    ensures { result ≡ bits_in (kind_of_type (top_names types.now) of.now) }
{
    match types.kind_of_type(of) {
        Kind::Bits(width) => width,
        _ => 0,
    }
}

/// How many bits those of these fields have together that are bits, but at most the limit.
fn typed_bits(types: &Types<'_, '_>, fields: &[StructField]) -> u128
    ensures { result ≡ min bit_limit (sum_by field_bits (map (struct_field (top_names types.now)) fields.now)) }
{
    let mut so_far = 0;
    for field in fields {
        so_far = capped(BIT_LIMIT, so_far, type_bits(types, &field.of));
    }
    so_far
}

/// The same of the fields of any type.
fn all_bits(types: &Types<'_, '_>, fields: Fields<'_>) -> u128
    ensures { result ≡ min bit_limit (sum_by field_bits (seen_fields (top_names types.now) fields.entry)) }
{
    match fields {
        Fields::Bits(fields) => bits_of(fields),
        Fields::Typed(fields) => typed_bits(types, fields),
        Fields::Standard => 92,
        Fields::Missing => 0,
    }
}

/// How many fields these are.
fn count(fields: Fields<'_>) -> u128
    ensures { (names : List Known) → result ≡ length (seen_fields names fields.entry) }
{
    match fields {
        Fields::Bits(fields) => fields.len() as u128,
        Fields::Typed(fields) => fields.len() as u128,
        Fields::Standard => 7,
        Fields::Missing => 0,
    }
}

/// What a header of these fields counts, but at most the limit.
#[tactic(auto, using(crate::proofs::Summing::octets_within))]
pub(crate) fn as_header(types: &Types<'_, '_>, measure: Measure, fields: Fields<'_>) -> u128
    ensures { result ≡ up_to (as_header measure (seen_fields (top_names types.now) fields.entry)) }
{
    match measure {
        Measure::Fields => capped(LIMIT, 0, count(fields)),
        Measure::Octets => all_bits(types, fields) / 8,
    }
}

/// What headers of the declared types count by a measure, by the numbers of the declarations.
#[derive(Drop)]
pub(crate) struct Headers {
    pub(crate) measure: Measure,
    sizes: Vec<u128>,
}

/// The number at a place, and 0 where there is none.
pub(crate) fn number_at(numbers: &[u128], place: usize) -> u128
    ensures { result ≡ slice_index numbers.now place }
{
    match numbers.get(place) {
        Some(number) => *number,
        None => 0,
    }
}

/// What headers of the declared types count, by the numbers of the declarations.
fn header_sizes(
    alloc: Global,
    types: &Types<'_, '_>,
    measure: Measure,
) -> Result<Vec<u128>, OutOfMemory>
    ensures { IfOk result (λ sizes. sizes.items ≡ headers_of measure types.now) }
{
    let mut sizes = Vec::new(alloc);
    for decl in types.decls() {
        let fields = types.fields(decl_name(decl).as_slice());
        sizes.push(as_header(types, measure, fields))?;
    }
    Ok(sizes)
}

impl Headers {
    /// What headers of the types of a program count by a measure. The one error is want of memory.
    pub(crate) fn of(
        alloc: Global,
        types: &Types<'_, '_>,
        measure: Measure,
    ) -> Result<Self, OutOfMemory>
        ensures { IfOk result (λ headers. (headers.measure ≡ measure) × HasHeaders types.now headers) }
    {
        let sizes = header_sizes(alloc, types, measure)?;
        Ok(Headers { measure, sizes })
    }

    /// What a header of the type of this name counts.
    #[tactic(auto, using(crate::proofs::Looking::header_there))]
    pub(crate) fn size(&self, types: &Types<'_, '_>, name: &[u8]) -> u128
        requires { HasHeaders types.now self.now }
        ensures { result ≡ up_to (header_of self.now.measure types.now name.now) }
    {
        match types.number(name) {
            Some(number) => number_at(&self.sizes, number),
            None => as_header(types, self.measure, types.fields(name)),
        }
    }
}
