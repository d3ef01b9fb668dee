// The marks of fields, by the lists that hold them.
ghost use Rattle.std.specs.Prelude.{◌≡◌, ℕ, [], map, IfOk, OnOk};
ghost use Rattle.std.specs.List.{list_any};
ghost use Rattle.p414_sem.specs.Expanded.{Expanded, IsExpanded};
ghost use Rattle.p414_slots.specs.Shown.{slot_in};
ghost use Rattle.p414_field_lists.specs.Meaning.{AreReady};
ghost use Rattle.lower_laws_names.specs.Marks.{is_field, marks};
ghost use Rattle.lower_marks.specs.Marking.{marked_in};
ghost use Rattle.lower_marks.specs.FieldMarks.{AreMarks, marked_where, marks_at, marks_in, marks_where, row_is, rows_hold};

use crate::marks::Marked;
use crate::table::FieldMarks;
use p4x_bits::OutOfMemory;
use p414_field_lists::{FieldLists, ItemRow};
use p414_names::Names14;
use p414_slots::FieldSlot;
use std::alloc::Global;

/// Puts a mark last of those of a field of an instance; standard metadata has no marks.
fn mark_slot(
    alloc: Global,
    found: &mut FieldMarks,
    slot: FieldSlot,
    mark: u8,
) -> Result<(), OutOfMemory>
    ensures { OnOk result ((k f : ℕ) → marks_at (marks_in found.new k) f ≡ marked_where (is_field k f (slot_in slot)) (marks_at (marks_in found.old k) f) mark) }
{
    match slot {
        FieldSlot::Standard(_) => Ok(()),
        FieldSlot::Declared {
            instance,
            element: _,
            field,
        } => found.mark(alloc, instance, field, mark),
    }
}

/// Puts a mark last of those of the field of a row, if it has one.
fn mark_row(
    alloc: Global,
    found: &mut FieldMarks,
    row: &ItemRow,
    mark: u8,
) -> Result<(), OutOfMemory>
    ensures { OnOk result ((k f : ℕ) → marks_at (marks_in found.new k) f ≡ marked_where (row_is k f row.now) (marks_at (marks_in found.old k) f) mark) }
{
    match row {
        ItemRow::Field { slot, width: _ } => mark_slot(alloc, found, *slot, mark),
        _ => Ok(()),
    }
}

/// Puts a mark last of those of each field that stands in these rows, once.
#[tactic(auto, using(crate::proofs::Holding::list_end))]
fn mark_list(
    alloc: Global,
    found: &mut FieldMarks,
    rows: &[ItemRow],
    mark: u8,
) -> Result<(), OutOfMemory>
    ensures { OnOk result ((k f : ℕ) → marks_at (marks_in found.new k) f ≡ marked_where (list_any (row_is k f) rows.now) (marks_at (marks_in found.old k) f) mark) }
{
    for row in rows {
        mark_row(alloc, found, row, mark)?;
    }
    Ok(())
}

/// Puts the mark of a list last of those of each field that stands in it.
#[tactic(auto, using(crate::proofs::Holding::rows_marked))]
fn mark_one(
    alloc: Global,
    found: &mut FieldMarks,
    lists: &FieldLists,
    list: Marked,
) -> Result<(), OutOfMemory>
    ensures { OnOk result ((k f : ℕ) → marks_at (marks_in found.new k) f ≡ marked_where (rows_hold lists.now k f (marked_in list)) (marks_at (marks_in found.old k) f) list.number) }
{
    mark_list(alloc, found, lists.rows(list.list), list.number)?;
    Ok(())
}

/// The marks of each field, by the lists that have a mark.
#[tactic(auto, using(crate::proofs::Holding::lists_turn, crate::proofs::Holding::lists_end))]
fn marks_by(alloc: Global, lists: &FieldLists, marked: &[Marked]) -> Result<FieldMarks, OutOfMemory>
    ensures { IfOk result (λ found. (k f : ℕ) → marks_at (marks_in found k) f ≡ marks_where (rows_hold lists.now k f) (map marked_in marked.now) []) }
{
    let mut found = FieldMarks::new(alloc);
    for list in marked {
        mark_one(alloc, &mut found, lists, *list)?;
    }
    Ok(found)
}

/// The marks of each field: those of the lists that hold it, in order. A field that stands in a list twice has its mark once.
/// In time linear in the marked lists when they are expanded, and in the numbers of the fields.
#[tactic(auto, using(crate::proofs::Holding::all_held))]
pub fn field_marks(
    alloc: Global,
    names: &Names14<'_>,
    lists: &FieldLists,
    marked: &[Marked],
) -> Result<FieldMarks, OutOfMemory>
    requires ready { AreReady names.now lists.now }
    requires marked { map marked_in marked.now ≡ marks names.now }
    ensures { IfOk result (λ found. (x : Expanded) → IsExpanded names.now x → AreMarks names.now x found) }
{
    let found = marks_by(alloc, lists, marked)?;
    Ok(found)
}
