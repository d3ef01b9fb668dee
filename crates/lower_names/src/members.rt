// The new names of fields and parameters.
ghost use Rattle.std.specs.Prelude.{◌≡◌, IfOk};
ghost use Rattle.lower_laws_names.specs.Made.{called};
ghost use Rattle.lower_laws_names.specs.NewNames.{field_thing, new_fields, parameter_stays, new_parameters};

use crate::making::called;
use crate::staying::{can_stay, can_stay_outside};
use name_numbers::narrow;
use p4x_bits::{OutOfMemory, Rows, Text};
use p414_names::Names14;
use p414_syntax::{Field, Sort};
use std::alloc::Global;

/// The new name of the field of a header type with this number.
pub fn new_field(alloc: Global, number: u32, name: &[u8]) -> Result<Text, OutOfMemory>
    ensures { IfOk result (λ text. text ≡ called (field_thing number name.now)) }
{
    called(alloc, b'f', number, name, can_stay(name))
}

/// The new names of the fields of a header type, in order. More fields than numbers of 32 bits are want of memory.
pub fn new_fields(alloc: Global, fields: &[Field]) -> Result<Rows<Text>, OutOfMemory>
    ensures { IfOk result (λ found. found ≡ new_fields fields.now) }
{
    let mut found = Rows::new(alloc);
    for i in 0..fields.len() {
        let number = narrow(i)?;
        found.push(new_field(alloc, number, fields[i].name.as_slice())?)?;
    }
    Ok(found)
}

/// Whether the name of a parameter stays.
fn parameter_stays(names: &Names14<'_>, name: &[u8]) -> bool
    ensures { result ≡ parameter_stays names.now name.now }
{
    can_stay_outside(name) && !names.is_declared(Sort::Object, name)
}

/// The new names of the parameters of an action, in order. More parameters than numbers of 32 bits are want of memory.
pub fn new_parameters(
    alloc: Global,
    names: &Names14<'_>,
    parameters: &[Text],
) -> Result<Rows<Text>, OutOfMemory>
    ensures { IfOk result (λ found. found ≡ new_parameters names.now parameters.now) }
{
    let mut found = Rows::new(alloc);
    for i in 0..parameters.len() {
        let number = narrow(i)?;
        let name = parameters[i].as_slice();
        let stays = parameter_stays(names, name);
        found.push(called(alloc, b'p', number, name, stays)?)?;
    }
    Ok(found)
}
