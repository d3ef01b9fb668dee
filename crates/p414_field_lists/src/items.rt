// The rows of an item by itself.
ghost use Rattle.std.specs.Prelude.{◌≡◌, ◌++◌, map, IfOk, OnOk};
ghost use Rattle.p414_syntax.specs.Names.{field_name};
ghost use Rattle.p414_syntax.specs.Expansion.{fields_of};
ghost use Rattle.p414_field_lists.specs.Rows.{field_row};
ghost use Rattle.p414_field_lists.specs.internal.Expanding.{named_row, own_rows};

use crate::rows::ItemRow;
use p4x_bits::{OutOfMemory, Rows};
use p414_names::is_standard;
use p414_slots::Slots;
use p414_syntax::{Field, Inst, Item, Ref};

/// The fields of `standard_metadata` (P4_14 1.0.5, "Standard Intrinsic Metadata").
const STANDARD_FIELDS: [&[u8]; 5] = [
    b"ingress_port",
    b"egress_spec",
    b"egress_port",
    b"packet_length",
    b"instance_type",
];

/// The row of a field.
fn field_row(slots: &Slots<'_, '_>, field: &Ref) -> Result<ItemRow, OutOfMemory>
    ensures { IfOk result (λ row. row ≡ field_row slots.now field.now) }
{
    let slot = slots.slot(field)?;
    let width = slots.bits(field)?;
    Ok(ItemRow::Field { slot, width })
}

/// The row of the field of an instance with a name.
fn named_row(slots: &Slots<'_, '_>, instance: &Inst, field: &[u8]) -> Result<ItemRow, OutOfMemory>
    ensures { IfOk result (λ row. row ≡ named_row slots.now instance.now field.now) }
{
    let slot = slots.slot_in(instance, field)?;
    let width = slots.bits_of_field(instance.name.as_slice(), field)?;
    Ok(ItemRow::Field { slot, width })
}

/// Puts the rows of the fields of an instance with these names last.
fn add_named(
    rows: &mut Rows<ItemRow>,
    slots: &Slots<'_, '_>,
    instance: &Inst,
    fields: &[&[u8]],
) -> Result<(), OutOfMemory>
    ensures { OnOk result (rows.new ≡ rows.old ++ map (named_row slots.now instance.now) (map (λ field. field.now) fields.now)) }
{
    for field in fields {
        rows.push(named_row(slots, instance, field)?)?;
    }
    Ok(())
}

/// Puts the rows of these fields of an instance last.
fn add_declared(
    rows: &mut Rows<ItemRow>,
    slots: &Slots<'_, '_>,
    instance: &Inst,
    fields: &[Field],
) -> Result<(), OutOfMemory>
    ensures { OnOk result (rows.new ≡ rows.old ++ map (named_row slots.now instance.now) (map field_name fields.now)) }
{
    for field in fields {
        rows.push(named_row(slots, instance, field.name.as_slice())?)?;
    }
    Ok(())
}

/// Puts the rows of all fields of an instance last.
fn add_instance(
    rows: &mut Rows<ItemRow>,
    slots: &Slots<'_, '_>,
    instance: &Inst,
) -> Result<(), OutOfMemory>
    ensures { OnOk result (rows.new ≡ rows.old ++ map (named_row slots.now instance.now) (fields_of slots.now instance.now.name)) }
{
    let name = instance.name.as_slice();
    if is_standard(name) {
        return add_named(rows, slots, instance, &STANDARD_FIELDS);
    }
    match slots.names().instance_type(name) {
        Some(found) => add_declared(rows, slots, instance, found.fields()),
        None => Ok(()),
    }
}

/// Puts the rows of an item by itself last. The one error is want of memory.
pub fn add_own(
    rows: &mut Rows<ItemRow>,
    slots: &Slots<'_, '_>,
    item: &Item,
) -> Result<(), OutOfMemory>
    ensures { OnOk result (rows.new ≡ rows.old ++ own_rows slots.now item.now) }
{
    match item {
        Item::Payload => rows.push(ItemRow::Payload),
        Item::Number(number) => rows.push(ItemRow::Number {
            width: number.width.unwrap_or(0),
            value: number.value,
        }),
        Item::Field(field) => rows.push(field_row(slots, field)?),
        Item::Instance(instance) => {
            add_instance(rows, slots, instance)?;
            Ok(())
        }
    }
}
