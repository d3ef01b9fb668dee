// The rows of the instances, with their new names.
ghost use Rattle.std.specs.Prelude.{◌≡◌, map, option_map, IfOk};
ghost use Rattle.p414_syntax.specs.declared.syntax.Sort.TheVariants as sort;
ghost use Rattle.p414_syntax.specs.Totals.{elements_of};
ghost use Rattle.lower_laws_names.specs.NewNames.{new_name};
ghost use Rattle.lower_laws_names.specs.Instances.{named_fields, named_from, shown_in, shown_instances};
ghost use Rattle.lower_laws_names.specs.Types.{members};
ghost use Rattle.lower_rows.specs.Named.{instance_shown, named_field, shown_as};
ghost use Rattle.lower_decls.specs.Table.{field_named, form_of, header_in, member_in, metadata_in};

use crate::headers::field_bits;
use crate::numbers::{narrow_count, narrow_width};
use lower_names::{made, new_field, new_name};
use lower_rows::{FieldRow, Form, InstanceRow};
use name_numbers::narrow;
use p4x_bits::{OutOfMemory, Rows, Text};
use p414_names::Names14;
use p414_syntax::{Decl, Field, Header, Literal, Metadata, Sort};
use std::alloc::Global;

/// An instance by its number, with the new name of its type.
pub struct MemberRow {
    /// The number among the instances, from 0 in the order of declaration.
    pub number: u32,
    /// The instance by its new name.
    pub instance: InstanceRow,
    /// The new name of its header type, or the name of its struct.
    pub type_called: Text,
}

impl Drop for MemberRow {
    fn drop(self) {
        let MemberRow {
            number: _number,
            instance: _instance,
            type_called: _type_called,
        } = self;
    }
}

/// A field under its new name.
fn field_row(alloc: Global, number: u32, field: &Field) -> Result<FieldRow, OutOfMemory>
    ensures { IfOk result (λ found. named_field found ≡ field_named number field.now) }
{
    let called = new_field(alloc, number, field.name.as_slice())?;
    let width = narrow_width(field_bits(field))?;
    Ok(FieldRow { called, width })
}

/// The fields of a header type under their new names.
fn field_rows(alloc: Global, fields: &[Field]) -> Result<Rows<FieldRow>, OutOfMemory>
    ensures { IfOk result (λ found. map named_field found ≡ named_from 0 fields.now) }
{
    let mut found = Rows::new(alloc);
    for i in 0..fields.len() {
        let number = narrow(i)?;
        found.push(field_row(alloc, number, &fields[i])?)?;
    }
    Ok(found)
}

/// The fields of the header type of a name under their new names.
fn fields_of_type(
    alloc: Global,
    names: &Names14<'_>,
    name: &[u8],
) -> Result<Rows<FieldRow>, OutOfMemory>
    ensures { IfOk result (λ found. map named_field found ≡ named_fields names.now name.now) }
{
    match names.type_of(name) {
        Some(of) => field_rows(alloc, of.fields()),
        None => Ok(Rows::new(alloc)),
    }
}

/// An instance of a form, under its new name.
fn instance_row(
    alloc: Global,
    names: &Names14<'_>,
    form: Form,
    name: &[u8],
    type_name: &[u8],
    size: u32,
) -> Result<InstanceRow, OutOfMemory>
    ensures shown { IfOk result (λ found. instance_shown found ≡ shown_as form (new_name names.now sort.Instance name.now) (named_fields names.now type_name.now)) }
    ensures size { IfOk result (λ found. found.size ≡ size) }
{
    let called = new_name(alloc, names, Sort::Instance, name)?;
    let fields = fields_of_type(alloc, names, type_name)?;
    Ok(InstanceRow {
        form,
        called,
        fields,
        size,
    })
}

/// The number of elements.
fn elements(size: Option<Literal>) -> Result<u32, OutOfMemory>
    ensures { IfOk result (λ found. found ≡ elements_of size) }
{
    match size {
        Some(size) => narrow_count(size.value),
        None => Ok(1),
    }
}

/// A header, or a stack where its size is written.
fn form_of(size: Option<Literal>) -> Form
    ensures { result ≡ form_of size }
{
    match size {
        Some(_) => Form::Stack,
        None => Form::Header,
    }
}

/// A header or a stack.
#[tactic(auto, using(crate::proofs::Showing::form_shown))]
fn header_row(
    alloc: Global,
    names: &Names14<'_>,
    number: u32,
    header: &Header,
) -> Result<MemberRow, OutOfMemory>
    ensures { IfOk result (λ found. member_in found ≡ header_in names.now number header.now) }
{
    let form = form_of(header.size);
    let size = elements(header.size)?;
    let name = header.name.as_slice();
    let type_name = header.header_type.as_slice();
    let instance = instance_row(alloc, names, form, name, type_name, size)?;
    let type_called = new_name(alloc, names, Sort::HeaderType, type_name)?;
    Ok(MemberRow {
        number,
        instance,
        type_called,
    })
}

/// A metadata instance, with its number among the metadata.
fn metadata_row(
    alloc: Global,
    names: &Names14<'_>,
    number: u32,
    among: u32,
    metadata: &Metadata,
) -> Result<MemberRow, OutOfMemory>
    ensures { IfOk result (λ found. member_in found ≡ metadata_in names.now number among metadata.now) }
{
    let name = metadata.name.as_slice();
    let type_name = metadata.header_type.as_slice();
    let instance = instance_row(alloc, names, Form::Metadata, name, type_name, 1)?;
    let type_called = made(alloc, b'm', among, type_name)?;
    Ok(MemberRow {
        number,
        instance,
        type_called,
    })
}

/// The rows of all instances, in the order of declaration. More instances than numbers of 32 bits are want of memory.
pub fn member_rows(alloc: Global, names: &Names14<'_>) -> Result<Rows<MemberRow>, OutOfMemory>
    ensures { IfOk result (λ found. map member_in found ≡ members names.now) }
{
    let mut found = Rows::new(alloc);
    let mut number = 0;
    let mut metadata = 0;
    for decl in names.decls() {
        match decl {
            Decl::Header(header) => {
                let place = narrow(number)?;
                found.push(header_row(alloc, names, place, header)?)?;
                number += 1;
            }
            Decl::Metadata(declared) => {
                let place = narrow(number)?;
                let among = narrow(metadata)?;
                found.push(metadata_row(alloc, names, place, among, declared)?)?;
                number += 1;
                metadata += 1;
            }
            _ => {}
        }
    }
    Ok(found)
}

/// An instance, if a declaration is one.
#[tactic(auto, using(crate::proofs::Showing::form_shown))]
fn instance_in(
    alloc: Global,
    names: &Names14<'_>,
    decl: &Decl,
) -> Result<Option<InstanceRow>, OutOfMemory>
    ensures { IfOk result (λ found. option_map instance_shown found ≡ shown_in names.now decl.now) }
{
    match decl {
        Decl::Header(header) => {
            let form = form_of(header.size);
            let size = elements(header.size)?;
            let name = header.name.as_slice();
            let type_name = header.header_type.as_slice();
            Ok(Some(instance_row(alloc, names, form, name, type_name, size)?))
        }
        Decl::Metadata(metadata) => {
            let name = metadata.name.as_slice();
            let type_name = metadata.header_type.as_slice();
            Ok(Some(instance_row(alloc, names, Form::Metadata, name, type_name, 1)?))
        }
        _ => Ok(None),
    }
}

/// All instances, in the order of declaration, as what is written reads them.
pub fn instance_rows(alloc: Global, names: &Names14<'_>) -> Result<Rows<InstanceRow>, OutOfMemory>
    ensures { IfOk result (λ found. map instance_shown found ≡ shown_instances names.now) }
{
    let mut found = Rows::new(alloc);
    for decl in names.decls() {
        if let Some(instance) = instance_in(alloc, names, decl)? {
            found.push(instance)?;
        }
    }
    Ok(found)
}
