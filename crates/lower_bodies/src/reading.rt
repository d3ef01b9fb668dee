// The fields that calculations read.
ghost use Rattle.std.specs.Prelude.{◌≡◌, ◌++◌, map, flat_map, IfOk, OnOk};
ghost use Rattle.lower_bodies.specs.Apart.{number_in};
ghost use Rattle.lower_bodies.specs.Reading.{item_parts, AreRead};

use lower_expressions::WordsTable;
use lower_rows::HashItem;
use p4x_bits::OutOfMemory;
use p414_slots::FieldSlot;
use std::alloc::Global;

/// The field that an item reads comes behind others.
fn put_item(slots: &mut Vec<FieldSlot>, item: HashItem) -> Result<(), OutOfMemory>
    ensures { OnOk result (map number_in slots.new.items ≡ map number_in slots.old.items ++ item_parts item) }
{
    match item {
        HashItem::Field(slot) => Ok(slots.push(slot)?),
        _ => Ok(()),
    }
}

/// The fields that items read.
fn fields_of(alloc: Global, items: &[HashItem]) -> Result<Vec<FieldSlot>, OutOfMemory>
    ensures { IfOk result (λ slots. map number_in slots.items ≡ flat_map item_parts items.now) }
{
    let mut slots = Vec::new(alloc);
    for item in items {
        put_item(&mut slots, *item)?;
    }
    Ok(slots)
}

/// The fields that each calculation reads, by number: bodies ask for them, and one list serves all of a block.
pub fn fields_read(
    alloc: Global,
    table: &WordsTable<'_>,
) -> Result<Vec<Vec<FieldSlot>>, OutOfMemory>
    ensures { IfOk result (λ read. AreRead table.now read.items) }
{
    let mut read = Vec::new(alloc);
    for row in table.calculations {
        let slots = fields_of(alloc, row.items.as_slice())?;
        read.push(slots)?;
    }
    Ok(read)
}
