// The fields of header types by number.
ghost use Rattle.std.specs.Prelude.{◌≡◌, ◌++◌, map, option_copied, option_to_list, sum, IfOk, OnOk};
ghost use Rattle.p414_syntax.specs.References.{referred};
ghost use Rattle.p414_syntax.specs.declared.syntax.Sort.TheVariants as sort;
ghost use Rattle.p414_syntax.specs.Expansion.{type_fields};
ghost use Rattle.p414_syntax.specs.Fields.{field_bits, header_type_in, type_name_in, types};
ghost use Rattle.p414_syntax.specs.Names.{field_name, name_in, names_in};
ghost use Rattle.p414_slots.specs.internal.Found.{bits_together};

use crate::numbers::add_bits;
use name_numbers::{Numbering, number_names};
use p4x_bits::{OutOfMemory, Text};
use p414_syntax::{Decl, Field, FieldWidth};
use std::alloc::Global;

/// The names of these fields.
fn names_of_fields(alloc: Global, fields: &[Field]) -> Result<Vec<&[u8]>, OutOfMemory>
    ensures { IfOk result (λ names. map referred names.items ≡ map field_name fields.now) }
{
    let mut names = Vec::new(alloc);
    for field in fields {
        names.push(field.name.as_slice())?;
    }
    Ok(names)
}

/// The fields of a header type by number.
fn numbered<'a>(alloc: Global, fields: &'a [Field]) -> Result<Numbering<'a>, OutOfMemory>
    ensures { IfOk result (λ numbering. numbering ≡ map field_name fields.now) }
{
    let names = names_of_fields(alloc, fields)?;
    number_names(alloc, names)
}

/// Puts the fields of a declaration last, if it is a header type.
fn add_type<'a>(
    alloc: Global,
    found: &mut Vec<Numbering<'a>>,
    decl: &'a Decl,
) -> Result<(), OutOfMemory>
    ensures { OnOk result (found.new.items ≡ found.old.items ++ map type_fields (option_to_list (header_type_in decl.now))) }
{
    if let Decl::HeaderType(header_type) = decl {
        found.push(numbered(alloc, header_type.fields())?)?;
    }
    Ok(())
}

/// The fields of each header type by number, in the order of the types. The one error is want of memory.
#[tactic(auto, using(crate::proofs::Loops::type_now))]
pub fn fields_of_types(alloc: Global, decls: &[Decl]) -> Result<Vec<Numbering<'_>>, OutOfMemory>
    ensures { IfOk result (λ found. found.items ≡ map type_fields (types decls.now)) }
{
    let mut found = Vec::new(alloc);
    for decl in decls {
        add_type(alloc, &mut found, decl)?;
    }
    Ok(found)
}

/// The bits of a field; `*` counts as 0.
fn field_bits(field: &Field) -> u128
    ensures { result ≡ field_bits field.now }
{
    match field.width {
        FieldWidth::Bits(width) => width.value,
        FieldWidth::Rest => 0,
    }
}

/// How many bits these fields have together.
fn sum_of(fields: &[Field]) -> Result<u32, OutOfMemory>
    ensures { IfOk result (λ bits. bits ≡ sum (map field_bits fields.now)) }
{
    let mut total = 0;
    for field in fields {
        total = add_bits(total, field_bits(field))?;
    }
    Ok(total)
}

/// Puts the bits of a declaration's fields last, if it is a header type.
fn add_bits_of_type(found: &mut Vec<u32>, decl: &Decl) -> Result<(), OutOfMemory>
    ensures { OnOk result (found.new.items ≡ found.old.items ++ map bits_together (option_to_list (header_type_in decl.now))) }
{
    if let Decl::HeaderType(header_type) = decl {
        found.push(sum_of(header_type.fields())?)?;
    }
    Ok(())
}

/// The bits that the fields of each header type have together, in the order of the types. The one error is want of memory,
/// which 2^32 bits and more count as.
#[tactic(auto, using(crate::proofs::Loops::type_now))]
pub fn bits_of_types(alloc: Global, decls: &[Decl]) -> Result<Vec<u32>, OutOfMemory>
    ensures { IfOk result (λ found. found.items ≡ map bits_together (types decls.now)) }
{
    let mut found = Vec::new(alloc);
    for decl in decls {
        add_bits_of_type(&mut found, decl)?;
    }
    Ok(found)
}

/// The name of the type of an instance.
pub fn type_name_in(decl: &Decl) -> Option<&Text>
    ensures { option_copied result ≡ type_name_in decl.now }
{
    match decl {
        Decl::Header(declared) => Some(&declared.header_type),
        Decl::Metadata(declared) => Some(&declared.header_type),
        _ => None,
    }
}

/// Puts the name of an instance last, if a declaration makes one.
fn add_instance<'a>(found: &mut Vec<&'a [u8]>, decl: &'a Decl) -> Result<(), OutOfMemory>
    ensures { OnOk result (map referred found.new.items ≡ map referred found.old.items ++ option_to_list (name_in sort.Instance decl.now)) }
{
    match decl {
        Decl::Header(declared) => found.push(declared.name.as_slice())?,
        Decl::Metadata(declared) => found.push(declared.name.as_slice())?,
        _ => {}
    }
    Ok(())
}

/// The names of all instances, in order. The one error is want of memory.
#[tactic(auto, using(crate::proofs::Loops::name_now))]
pub fn instance_names(alloc: Global, decls: &[Decl]) -> Result<Vec<&[u8]>, OutOfMemory>
    ensures { IfOk result (λ found. map referred found.items ≡ names_in sort.Instance decls.now) }
{
    let mut found = Vec::new(alloc);
    for decl in decls {
        add_instance(&mut found, decl)?;
    }
    Ok(found)
}
