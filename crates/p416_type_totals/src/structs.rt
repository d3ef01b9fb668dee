// What structs count (P4_16 1.2, "Struct types").
ghost use Rattle.std.specs.Prelude.{◌≡◌, ◌*◌, false, map, slice_index, IfOk};
ghost use Rattle.std.specs.Option.{option_map_or};
ghost use Rattle.digraph.specs.Components.{AreComponents};
ghost use Rattle.digraph.specs.Expansions.{HasCycle};
ghost use Rattle.p416_syntax.specs.Declarations.{top_names, struct_field};
ghost use Rattle.p416_syntax.specs.Unknown.{declares_twice, declaration_number, struct_graph};
ghost use Rattle.p416_names.specs.SeenKinds.{seen_kind};
ghost use Rattle.p416_names.specs.Seen.{seen_fields};
ghost use Rattle.p416_type_totals.specs.Limit.{up_to};
ghost use Rattle.p416_type_totals.specs.internal.Sized.{header_of, standard_size, structs_of, looked, looked_fields, looked_at};
ghost use Rattle.p416_type_totals.specs.internal.Written.{HasHeaders};

use crate::headers::{Headers, number_at};
use crate::measure::{LIMIT, capped, other_size, standard_size, times};
use crate::types::Types;
use digraph::Components;
use p4x_bits::OutOfMemory;
use p416_names::{Fields, Kind, decl_name};
use p416_syntax::StructField;
use std::alloc::Global;

/// What a struct of the type of this name counts, where this is known of the declared ones.
fn struct_size(types: &Types<'_, '_>, headers: &Headers, structs: &[u128], name: &[u8]) -> u128
    ensures { result ≡ option_map_or (slice_index structs.now) (declaration_number types.now name.now) (standard_size headers.now.measure name.now) }
{
    match types.number(name) {
        Some(number) => number_at(structs, number),
        None => standard_size(headers.measure, name),
    }
}

/// What a value of a kind counts, where this is known of the declared types.
pub(crate) fn size_of_kind(
    types: &Types<'_, '_>,
    headers: &Headers,
    structs: &[u128],
    kind: Kind<'_>,
) -> u128
    requires { HasHeaders types.now headers.now }
    ensures { result ≡ looked headers.now.measure types.now structs.now (seen_kind kind.entry) }
{
    match kind {
        Kind::Header(name) => headers.size(types, name),
        Kind::Stack(name, size) => stack_size(types, headers, name, size),
        Kind::Struct(name) => struct_size(types, headers, structs, name),
        _ => other_size(headers.measure),
    }
}

/// What a stack of so many headers of the type of this name counts.
#[tactic(auto, using(crate::proofs::Summing::times_within))]
fn stack_size(types: &Types<'_, '_>, headers: &Headers, name: &[u8], size: u128) -> u128
    requires { HasHeaders types.now headers.now }
    ensures { result ≡ up_to (size * header_of headers.now.measure types.now name.now) }
{
    times(size, headers.size(types, name))
}

/// What these fields of a struct count together.
fn typed_size(
    types: &Types<'_, '_>,
    headers: &Headers,
    structs: &[u128],
    fields: &[StructField],
) -> u128
    requires { HasHeaders types.now headers.now }
    ensures { result ≡ looked_fields headers.now.measure types.now structs.now (map (struct_field (top_names types.now)) fields.now) }
{
    let mut so_far = 0;
    for field in fields {
        let size = size_of_kind(types, headers, structs, types.kind_of_type(&field.of));
        so_far = capped(LIMIT, so_far, size);
    }
    so_far
}

/// What the fields of any type count together.
#[tactic(auto, using(crate::proofs::Looking::bits_together, crate::proofs::Looking::standard_together))]
fn fields_size(
    types: &Types<'_, '_>,
    headers: &Headers,
    structs: &[u128],
    fields: Fields<'_>,
) -> u128
    requires { HasHeaders types.now headers.now }
    ensures { result ≡ looked_fields headers.now.measure types.now structs.now (seen_fields (top_names types.now) fields.entry) }
{
    match fields {
        Fields::Bits(fields) => times(fields.len() as u128, other_size(headers.measure)),
        Fields::Typed(fields) => typed_size(types, headers, structs, fields),
        Fields::Standard => times(7, other_size(headers.measure)),
        Fields::Missing => 0,
    }
}

/// What a struct of the type counts that the declaration with a number declares.
fn node_size(types: &Types<'_, '_>, headers: &Headers, structs: &[u128], node: usize) -> u128
    requires { HasHeaders types.now headers.now }
    ensures { result ≡ looked_at headers.now.measure types.now structs.now node }
{
    match types.decls().get(node) {
        Some(decl) => {
            let fields = types.fields(decl_name(decl).as_slice());
            fields_size(types, headers, structs, fields)
        }
        None => 0,
    }
}

/// What structs of the declared types count, by the numbers of the declarations: each type once, behind those that it
/// holds.
pub(crate) fn structs_of(
    alloc: Global,
    types: &Types<'_, '_>,
    headers: &Headers,
    components: &Components,
) -> Result<Vec<u128>, OutOfMemory>
    requires once { declares_twice types.now ≡ false }
    requires headers { HasHeaders types.now headers.now }
    requires components { AreComponents (struct_graph types.now) components.now }
    requires acyclic { HasCycle (struct_graph types.now) → ⊥ }
    ensures { IfOk result (λ structs. structs.items ≡ structs_of headers.now.measure types.now) }
{
    let mut structs = vec![in alloc; 0u128; types.decls().len()]?;
    for node in components.order() {
        structs[*node] = node_size(types, headers, &structs, *node);
    }
    Ok(structs)
}
