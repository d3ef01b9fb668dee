// The rows of a list whose inner lists are ready.
ghost use Rattle.std.specs.Prelude.{◌≡◌, ◌++◌, IfOk, OnOk};
ghost use Rattle.p414_field_lists.specs.Rows.{rows_at};
ghost use Rattle.p414_field_lists.specs.internal.Expanding.{expanded_rows, list_rows};

use crate::items::add_own;
use crate::rows::ItemRow;
use p4x_bits::{OutOfMemory, Rows};
use p414_list_check::inner_number;
use p414_slots::Slots;
use p414_syntax::Item;
use std::alloc::Global;

/// Puts the rows of the list with this number last.
fn add_ready(
    rows: &mut Rows<ItemRow>,
    ready: &[Rows<ItemRow>],
    list: usize,
) -> Result<(), OutOfMemory>
    ensures { OnOk result (rows.new ≡ rows.old ++ rows_at ready.now list) }
{
    match ready.get(list) {
        Some(found) => rows.extend_from_slice(found.as_slice()),
        None => Ok(()),
    }
}

/// Puts the rows of an item last: its own, or those of the list that it stands for.
fn add_item(
    rows: &mut Rows<ItemRow>,
    slots: &Slots<'_, '_>,
    ready: &[Rows<ItemRow>],
    item: &Item,
) -> Result<(), OutOfMemory>
    ensures { OnOk result (rows.new ≡ rows.old ++ expanded_rows slots.now ready.now item.now) }
{
    match inner_number(slots.names(), item) {
        Some(list) => add_ready(rows, ready, list),
        None => add_own(rows, slots, item),
    }
}

/// The rows of these items, where the lists among them are ready. The one error is want of memory.
pub fn list_rows(
    alloc: Global,
    slots: &Slots<'_, '_>,
    ready: &[Rows<ItemRow>],
    items: &[Item],
) -> Result<Rows<ItemRow>, OutOfMemory>
    ensures { IfOk result (λ rows. rows ≡ list_rows slots.now ready.now items.now) }
{
    let mut rows = Rows::new(alloc);
    for item in items {
        add_item(&mut rows, slots, ready, item)?;
    }
    Ok(rows)
}
