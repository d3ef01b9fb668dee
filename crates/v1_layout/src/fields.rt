// The kinds of the fields of a type (P4_16 1.2, "Derived types").
ghost use Rattle.std.specs.Prelude.{◌≡◌, ◌≤◌, map, All, IfOk};
ghost use Rattle.p416_syntax.specs.Scopes.{fields_in};
ghost use Rattle.p416_syntax.specs.BuiltIn.{standard_layout};
ghost use Rattle.p416_syntax.specs.Declarations.{top_names, layouts_of, bit_field, struct_field};
ghost use Rattle.p416_names.specs.SeenKinds.{seen_kind};
ghost use Rattle.v1_core.specs.Programs.{field_width};
ghost use Rattle.v1_layout.specs.Left.{kind_of_field, kind_width};

use p4x_bits::OutOfMemory;
use p416_names::{Fields, Kind, Top};
use p416_syntax::{BitField, StructField};
use std::alloc::Global;

/// The kinds of fields of bits.
fn bit_kinds<'a>(alloc: Global, fields: &'a [BitField]) -> Result<Vec<Kind<'a>>, OutOfMemory>
    ensures { IfOk result (λ kinds. map seen_kind kinds.items ≡ map kind_of_field (map bit_field fields.now)) }
{
    let mut kinds = Vec::new(alloc);
    for field in fields {
        kinds.push(Kind::Bits(field.width.value))?;
    }
    Ok(kinds)
}

/// The kinds of fields of types.
fn typed_kinds<'a>(
    alloc: Global,
    top: &Top<'a>,
    fields: &'a [StructField],
) -> Result<Vec<Kind<'a>>, OutOfMemory>
    ensures { IfOk result (λ kinds. map seen_kind kinds.items ≡ map kind_of_field (map (struct_field (top_names top.now)) fields.now)) }
{
    let mut kinds = Vec::new(alloc);
    for field in fields {
        kinds.push(top.kind_of_type(&field.of))?;
    }
    Ok(kinds)
}

/// The kinds of the fields of the standard metadata.
fn standard_kinds<'a>(alloc: Global) -> Result<Vec<Kind<'a>>, OutOfMemory>
    ensures { IfOk result (λ kinds. map seen_kind kinds.items ≡ map kind_of_field standard_layout.fields) }
{
    let mut kinds = Vec::new(alloc);
    kinds.push(Kind::Bits(9))?;
    kinds.push(Kind::Bits(9))?;
    kinds.push(Kind::Bits(9))?;
    kinds.push(Kind::Bits(32))?;
    kinds.push(Kind::Bits(32))?;
    kinds.push(Kind::ErrorCode)?;
    kinds.push(Kind::Bits(1))?;
    Ok(kinds)
}

/// The kinds of the fields of the type of this name, in order, or want of memory.
pub fn field_kinds<'a>(
    alloc: Global,
    top: &Top<'a>,
    of: &[u8],
) -> Result<Vec<Kind<'a>>, OutOfMemory>
    ensures { IfOk result (λ kinds. map seen_kind kinds.items ≡ map kind_of_field (fields_in (layouts_of top.now) of.now)) }
{
    match top.fields(of) {
        Fields::Bits(fields) => bit_kinds(alloc, fields),
        Fields::Typed(fields) => typed_kinds(alloc, top, fields),
        Fields::Standard => standard_kinds(alloc),
        Fields::Missing => Ok(Vec::new(alloc)),
    }
}

/// The bits of the slot of a field of a header of this kind, at most 128.
fn width(kind: Kind<'_>) -> u8
    ensures is { result ≡ kind_width (seen_kind kind.entry) }
    ensures fits { result ≤ 128 }
{
    match kind {
        Kind::Bits(width) => width.min(128) as u8,
        _ => 0,
    }
}

/// The bits of the slots of fields of these kinds.
fn widths_of(alloc: Global, kinds: &[Kind<'_>]) -> Result<Vec<u8>, OutOfMemory>
    ensures are { IfOk result (λ widths. widths.items ≡ map (λ k. kind_width (seen_kind k)) kinds.now) }
    ensures fit { IfOk result (λ widths. All (λ width. width ≤ 128) widths.items) }
{
    let mut widths = Vec::new(alloc);
    for kind in kinds {
        widths.push(width(*kind))?;
    }
    Ok(widths)
}

/// The bits of the slots of the fields of a header of this type, or want of memory.
#[tactic(auto, using(crate::proofs::Steps::widths_are))]
pub(crate) fn field_widths(alloc: Global, top: &Top<'_>, of: &[u8]) -> Result<Vec<u8>, OutOfMemory>
    ensures are { IfOk result (λ widths. widths.items ≡ map field_width (fields_in (layouts_of top.now) of.now)) }
    ensures fit { IfOk result (λ widths. All (λ width. width ≤ 128) widths.items) }
{
    let kinds = field_kinds(alloc, top, of)?;
    widths_of(alloc, &kinds)
}
