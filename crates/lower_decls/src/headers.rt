// Header types.
ghost use Rattle.std.specs.Prelude.{◌≡◌, ◌++◌, map, IfOk, OnOk};
ghost use Rattle.p414_syntax.specs.Fields.{field_bits, types};
ghost use Rattle.lower_laws_names.specs.Instances.{type_fields};
ghost use Rattle.lower_laws_names.specs.Types.{bit_field, header_decl};
ghost use Rattle.lower_decls.specs.Table.{field_named};
ghost use Rattle.lower_decls.specs.Tops.{used_from};

use crate::numbers::plain;
use lower_names::{is_at, new_field, new_name};
use name_numbers::narrow;
use p4x_bits::{OutOfMemory, Rows};
use p414_names::Names14;
use p414_syntax::{Decl, Field, FieldWidth, HeaderType, Sort};
use p416_syntax::{BitField, Decl16, Header16};
use std::alloc::Global;

/// The bits of a field; `*` counts as 0.
pub fn field_bits(field: &Field) -> u128
    ensures { result ≡ field_bits field.now }
{
    match field.width {
        FieldWidth::Bits(width) => width.value,
        FieldWidth::Rest => 0,
    }
}

/// A field of a header type.
fn bit_field(alloc: Global, number: u32, field: &Field) -> Result<BitField, OutOfMemory>
    ensures { IfOk result (λ found. found ≡ bit_field (field_named number field.now)) }
{
    let name = new_field(alloc, number, field.name.as_slice())?;
    let width = plain(field_bits(field));
    Ok(BitField { width, name })
}

/// The fields of a header type.
fn bit_fields(alloc: Global, of: &HeaderType) -> Result<Rows<BitField>, OutOfMemory>
    ensures { IfOk result (λ found. found ≡ map bit_field (type_fields of.now)) }
{
    let mut found = Rows::new(alloc);
    let fields = of.fields();
    for i in 0..fields.len() {
        let number = narrow(i)?;
        found.push(bit_field(alloc, number, &fields[i])?)?;
    }
    Ok(found)
}

/// A header type.
fn header_decl(alloc: Global, names: &Names14<'_>, of: &HeaderType) -> Result<Decl16, OutOfMemory>
    ensures { IfOk result (λ found. found ≡ header_decl names.now of.now) }
{
    let name = new_name(alloc, names, Sort::HeaderType, of.name().as_slice())?;
    let fields = bit_fields(alloc, of)?;
    Ok(Decl16::Header(Header16 { name, fields }))
}

/// Puts the header types that a header has behind what is there. Flags tell which these are, by number.
pub fn add_header_decls(
    alloc: Global,
    names: &Names14<'_>,
    used: &[bool],
    found: &mut Rows<Decl16>,
) -> Result<(), OutOfMemory>
    ensures { OnOk result (found.new ≡ found.old ++ map (header_decl names.now) (used_from used.now 0 (types names.now))) }
{
    let mut number = 0;
    for decl in names.decls() {
        if let Decl::HeaderType(of) = decl {
            if is_at(used, number) {
                found.push(header_decl(alloc, names, of)?)?;
            }
            number += 1;
        }
    }
    Ok(())
}
