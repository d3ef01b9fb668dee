// The structs of a program's headers and of its metadata (`v1model.p4`; what may stand in them is this project's own).
ghost use Rattle.std.specs.Prelude.{◌≡◌, map, true, IfOk, OnOk};
ghost use Rattle.std.specs.List.{list_all};
ghost use Rattle.p416_syntax.specs.Kinds.{is_bits, struct};
ghost use Rattle.p416_syntax.specs.Declarations.{top_names, layouts_of, struct_field};
ghost use Rattle.p416_syntax.specs.Main.{is_header_field, is_bits_field, is_metadata_field, is_struct_where, are_headers, is_metadata};
ghost use Rattle.p416_names.specs.SeenKinds.{seen_kind};
ghost use Rattle.p416_main_check.specs.internal.Seen.{AreOfBits};

use p4x_bits::OutOfMemory;
use p416_name_set::NameSet;
use p416_names::{Fields, Kind, Top};
use p416_syntax::StructField;
use std::alloc::Global;

/// Whether a field is a header or a stack.
fn is_header_field(top: &Top<'_>, field: &StructField) -> bool
    ensures { result ≡ is_header_field (struct_field (top_names top.now) field.now) }
{
    matches!(
        top.kind_of_type(&field.of),
        Kind::Header(_) | Kind::Stack(_, _)
    )
}

/// Whether these fields are headers and stacks.
fn are_header_fields(top: &Top<'_>, fields: &[StructField]) -> bool
    ensures { result ≡ list_all is_header_field (map (struct_field (top_names top.now)) fields.now) }
{
    for field in fields {
        if !is_header_field(top, field) {
            return false;
        }
    }
    true
}

/// Whether the values of a kind are structs of headers and stacks.
#[tactic(auto, using(crate::proofs::Fields::no_headers))]
pub(crate) fn are_headers(top: &Top<'_>, kind: Kind<'_>) -> bool
    ensures { result ≡ are_headers (layouts_of top.now) (seen_kind kind.entry) }
{
    let Kind::Struct(name) = kind else {
        return false;
    };
    match top.fields(name) {
        Fields::Bits(fields) => fields.is_empty(),
        Fields::Typed(fields) => are_header_fields(top, fields),
        Fields::Standard => false,
        Fields::Missing => true,
    }
}

/// Whether a field is one of bits.
fn is_bits_field(top: &Top<'_>, field: &StructField) -> bool
    ensures { result ≡ is_bits_field (struct_field (top_names top.now) field.now) }
{
    matches!(top.kind_of_type(&field.of), Kind::Bits(_))
}

/// Whether these fields are bits.
fn are_bits_fields(top: &Top<'_>, fields: &[StructField]) -> bool
    ensures { result ≡ list_all is_bits_field (map (struct_field (top_names top.now)) fields.now) }
{
    for field in fields {
        if !is_bits_field(top, field) {
            return false;
        }
    }
    true
}

/// Whether the struct of this name has fields of bits alone.
#[tactic(auto, using(crate::proofs::Fields::all_bits))]
fn is_of_bits(top: &Top<'_>, name: &[u8]) -> bool
    ensures { result ≡ is_struct_where is_bits_field (layouts_of top.now) (struct name.now) }
{
    match top.fields(name) {
        Fields::Bits(_) => true,
        Fields::Typed(fields) => are_bits_fields(top, fields),
        Fields::Standard => false,
        Fields::Missing => true,
    }
}

/// Whether a struct among these, or else one of the program, has fields of bits alone. It is among these from then on.
fn is_seen_of_bits<'a>(
    top: &Top<'a>,
    seen: &mut NameSet<'a>,
    name: &'a [u8],
) -> Result<bool, OutOfMemory>
    requires { AreOfBits top.now seen.old }
    ensures is { IfOk result (λ of_bits. of_bits ≡ is_struct_where is_bits_field (layouts_of top.now) (struct name.now)) }
    ensures seen { OnOk result (AreOfBits top.now seen.new) }
{
    if seen.has(name) {
        return Ok(true);
    }
    if !is_of_bits(top, name) {
        return Ok(false);
    }
    seen.add(name)?;
    Ok(true)
}

/// Whether a field is one of bits, or a struct of bits.
fn is_metadata_field<'a>(
    top: &Top<'a>,
    seen: &mut NameSet<'a>,
    field: &StructField,
) -> Result<bool, OutOfMemory>
    requires { AreOfBits top.now seen.old }
    ensures is { IfOk result (λ holds. holds ≡ is_metadata_field (layouts_of top.now) (struct_field (top_names top.now) field.now)) }
    ensures seen { OnOk result (AreOfBits top.now seen.new) }
{
    match top.kind_of_type(&field.of) {
        Kind::Bits(_) => Ok(true),
        Kind::Struct(name) => is_seen_of_bits(top, seen, name),
        _ => Ok(false),
    }
}

/// Whether these fields are bits and structs of bits. Each struct is looked through once.
fn are_metadata_fields<'a>(
    alloc: Global,
    top: &Top<'a>,
    fields: &[StructField],
) -> Result<bool, OutOfMemory>
    ensures { IfOk result (λ hold. hold ≡ list_all (is_metadata_field (layouts_of top.now)) (map (struct_field (top_names top.now)) fields.now)) }
{
    let mut seen = NameSet::new(alloc);
    for field in fields {
        if !is_metadata_field(top, &mut seen, field)? {
            return Ok(false);
        }
    }
    Ok(true)
}

/// Whether the values of a kind are structs of bits and of structs of bits.
#[tactic(auto, using(crate::proofs::Fields::all_metadata))]
pub(crate) fn is_metadata(alloc: Global, top: &Top<'_>, kind: Kind<'_>) -> Result<bool, OutOfMemory>
    ensures { IfOk result (λ holds. holds ≡ is_metadata (layouts_of top.now) (seen_kind kind.entry)) }
{
    let Kind::Struct(name) = kind else {
        return Ok(false);
    };
    match top.fields(name) {
        Fields::Bits(_) => Ok(true),
        Fields::Typed(fields) => are_metadata_fields(alloc, top, fields),
        Fields::Standard => Ok(false),
        Fields::Missing => Ok(true),
    }
}
