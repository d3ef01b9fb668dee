// The field lists that preserve the slots of the metadata.
ghost use Rattle.std.specs.Prelude.{◌≡◌, ◌≤◌, ◌++◌, map, flat_map, length, All, IfOk, IsTrue, OnOk, None};
ghost use Rattle.p416_syntax.specs.declared.parts.Type16.TheVariants.{Named};
ghost use Rattle.p416_syntax.specs.Kinds.{struct};
ghost use Rattle.p416_syntax.specs.Declarations.{layouts_of, list_numbers};
ghost use Rattle.p416_names.specs.SeenKinds.{seen_kind};
ghost use Rattle.v1_pass_slots.specs.Lists.{small_numbers, lists_of, slot_lists, all_lists};
ghost use Rattle.v1_pass_slots.specs.Found.{IsBits, IsInner, IsMetadataField, IsMetadata};
ghost use Rattle.v1_pass_slots.specs.internal.Structs.{AreTypes};

use crate::slots::SlotLists;
use crate::structs::{Types, struct_named};
use p4x_bits::OutOfMemory;
use p416_names::Kind;
use p416_syntax::{Literal16, Note, StructField, Type16};
use std::alloc::Global;
use v1_seats::TypeTable;

/// The numbers of field lists behind others, without those of more than 8 bits.
#[tactic(auto, using(crate::proofs::Listing::one_more, crate::proofs::Listing::none_more))]
fn add_numbers(lists: &mut SlotLists, numbers: &[Literal16]) -> Result<(), OutOfMemory>
    ensures { OnOk result (lists.new ≡ lists.old ++ small_numbers numbers.now) }
{
    for number in numbers {
        if number.value < 256 {
            lists.push(number.value as u8)?;
        }
    }
    Ok(())
}

/// The numbers of field lists that an annotation has.
fn add_note(lists: &mut SlotLists, note: &Note) -> Result<(), OutOfMemory>
    ensures { OnOk result (lists.new ≡ lists.old ++ small_numbers (list_numbers note.now)) }
{
    match note {
        Note::Name(_) => add_numbers(lists, &[]),
        Note::FieldList(numbers) => add_numbers(lists, numbers.as_slice()),
    }
}

/// The field lists that annotations name.
fn lists_of(alloc: Global, notes: &[Note]) -> Result<SlotLists, OutOfMemory>
    ensures { IfOk result (λ lists. lists ≡ small_numbers (flat_map list_numbers notes.now)) }
{
    let mut lists = SlotLists::new(alloc);
    for note in notes {
        add_note(&mut lists, note)?;
    }
    Ok(lists)
}

/// The field lists of a field of bits; any other field counts as want of memory.
fn bit_lists(alloc: Global, field: &StructField) -> Result<SlotLists, OutOfMemory>
    ensures lists { IfOk result (λ lists. lists ≡ lists_of field.now) }
    ensures bits { IfOk result (λ _. IsBits field.now) }
{
    match &field.of {
        Type16::Bit(_) => lists_of(alloc, field.notes.as_slice()),
        Type16::Bool => Err(OutOfMemory),
        Type16::Named(_, _) => Err(OutOfMemory),
    }
}

/// The field lists of fields of bits, behind others.
fn add_bits(
    alloc: Global,
    fields: &[StructField],
    lists: &mut Vec<SlotLists>,
) -> Result<(), OutOfMemory>
    ensures lists { OnOk result (lists.new.items ≡ lists.old.items ++ map lists_of fields.now) }
    ensures bits { OnOk result (All IsBits fields.now) }
{
    for field in fields {
        let of_field = bit_lists(alloc, field)?;
        lists.push(of_field)?;
    }
    Ok(())
}

/// Whether a kind is the struct of this name.
fn is_struct(kind: Kind<'_>, name: &[u8]) -> bool
    ensures { IsTrue result → seen_kind kind.entry ≡ struct name.now }
{
    match kind {
        Kind::Struct(of) => of == name,
        _ => false,
    }
}

/// The field lists of the fields of a struct of bits, behind others; any other type counts as want of memory.
fn add_inner(
    alloc: Global,
    types: &Types<'_, '_>,
    field: &StructField,
    name: &[u8],
    lists: &mut Vec<SlotLists>,
) -> Result<(), OutOfMemory>
    requires types { AreTypes types.now }
    requires of { field.now.of ≡ Named name.now None }
    ensures lists { OnOk result (lists.new.items ≡ lists.old.items ++ slot_lists types.now.top.now field.now) }
    ensures inner { OnOk result (IsInner types.now.top.now field.now) }
{
    if !is_struct(types.top.kind_of_type(&field.of), name) {
        return Err(OutOfMemory);
    }
    let fields = struct_named(types, name)?;
    add_bits(alloc, fields, lists)?;
    Ok(())
}

/// The field lists of a field of the metadata, behind others.
fn add_field(
    alloc: Global,
    types: &Types<'_, '_>,
    field: &StructField,
    lists: &mut Vec<SlotLists>,
) -> Result<(), OutOfMemory>
    requires types { AreTypes types.now }
    ensures lists { OnOk result (lists.new.items ≡ lists.old.items ++ slot_lists types.now.top.now field.now) }
    ensures field { OnOk result (IsMetadataField types.now.top.now field.now) }
{
    match &field.of {
        Type16::Bit(_) => {
            let of_field = bit_lists(alloc, field)?;
            lists.push(of_field)?;
            Ok(())
        }
        Type16::Bool => Err(OutOfMemory),
        Type16::Named(name, None) => add_inner(alloc, types, field, name.as_slice(), lists),
        Type16::Named(_, Some(_)) => Err(OutOfMemory),
    }
}

/// The field lists of the fields of the metadata, behind others.
fn add_fields(
    alloc: Global,
    types: &Types<'_, '_>,
    fields: &[StructField],
    lists: &mut Vec<SlotLists>,
) -> Result<(), OutOfMemory>
    requires types { AreTypes types.now }
    ensures lists { OnOk result (lists.new.items ≡ lists.old.items ++ all_lists types.now.top.now fields.now) }
    ensures fields { OnOk result (All (IsMetadataField types.now.top.now) fields.now) }
{
    for field in fields {
        add_field(alloc, types, field, lists)?;
    }
    Ok(())
}

/// Whether structs are looked into far enough.
fn is_deep(types: &TypeTable<'_, '_>) -> Result<bool, OutOfMemory>
    ensures { IfOk result (λ deep. IsTrue deep → 2 ≤ length types.now) }
{
    let depth = types.depth()?;
    Ok(depth >= 2)
}

/// For each slot of metadata of this kind its field lists. What is no struct of bits and of structs of bits counts as want of
/// memory; T11 forbids it.
pub(crate) fn metadata_lists(
    alloc: Global,
    types: &Types<'_, '_>,
    table: &TypeTable<'_, '_>,
    kind: Kind<'_>,
) -> Result<Vec<SlotLists>, OutOfMemory>
    requires types { AreTypes types.now }
    requires table { table.now ≡ layouts_of types.now.top.now }
    ensures { IfOk result (λ lists. IsMetadata types.now.top.now (seen_kind kind.entry) lists.items) }
{
    let Kind::Struct(name) = kind else {
        return Err(OutOfMemory);
    };
    if !is_deep(table)? {
        return Err(OutOfMemory);
    }
    let fields = struct_named(types, name)?;
    let mut lists = Vec::new(alloc);
    add_fields(alloc, types, fields, &mut lists)?;
    Ok(lists)
}
