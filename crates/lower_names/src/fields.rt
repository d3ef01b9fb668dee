// The new names of the fields of all instances.
ghost use Rattle.std.specs.Prelude.{◌≡◌, ◌++◌, option_copied, IfOk, OnOk};
ghost use Rattle.p414_syntax.specs.Fields.{type_name_in};
ghost use Rattle.lower_names.specs.FieldNames.{fields_named, field_names_from, instance_names_from, new_field_names};

use crate::making::called;
use crate::staying::can_stay;
use name_numbers::narrow;
use p4x_bits::{OutOfMemory, Rows, Text};
use p414_names::Names14;
use p414_syntax::{Decl, Field};
use std::alloc::Global;

/// The new name of a field of an instance, each by its number from 0 in the order of declaration.
#[derive(Drop)]
pub struct FieldName {
    /// The number of the instance.
    pub instance: u32,
    /// The number of the field in its header type.
    pub field: u32,
    /// The new name.
    pub name: Text,
}

/// The name of the type of an instance.
fn type_name_in(decl: &Decl) -> Option<&Text>
    ensures { option_copied result ≡ type_name_in decl.now }
{
    match decl {
        Decl::Header(declared) => Some(&declared.header_type),
        Decl::Metadata(declared) => Some(&declared.header_type),
        _ => None,
    }
}

/// The fields of the header type of a name; none where no type has it.
fn fields_named<'a>(names: &Names14<'a>, name: &[u8]) -> &'a [Field]
    ensures { result.now ≡ fields_named names.now name.now }
{
    match names.type_of(name) {
        Some(found) => found.fields(),
        None => &[],
    }
}

/// Puts the new names of the fields of an instance behind those that are there.
fn add_fields(
    alloc: Global,
    found: &mut Rows<FieldName>,
    instance: u32,
    fields: &[Field],
) -> Result<(), OutOfMemory>
    ensures { OnOk result (found.new ≡ found.old ++ field_names_from instance 0 fields.now) }
{
    for i in 0..fields.len() {
        let field = narrow(i)?;
        let old = fields[i].name.as_slice();
        let name = called(alloc, b'f', field, old, can_stay(old))?;
        found.push(FieldName {
            instance,
            field,
            name,
        })?;
    }
    Ok(())
}

/// The new names of the fields of all instances, in the order of declaration. More instances or fields than numbers of 32
/// bits are want of memory.
pub fn new_field_names(alloc: Global, names: &Names14<'_>) -> Result<Rows<FieldName>, OutOfMemory>
    ensures { IfOk result (λ found. found ≡ new_field_names names.now) }
{
    let mut found = Rows::new(alloc);
    let mut instance = 0;
    for decl in names.decls() {
        if let Some(name) = type_name_in(decl) {
            let number = narrow(instance)?;
            add_fields(
                alloc,
                &mut found,
                number,
                fields_named(names, name.as_slice()),
            )?;
            instance += 1;
        }
    }
    Ok(found)
}
