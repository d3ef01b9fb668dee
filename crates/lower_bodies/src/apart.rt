// Whether the rows of an action are apart.
ghost use Rattle.std.specs.Prelude.{◌≡◌, ◌||◌, OnOk, List, [], map};
ghost use Rattle.std.specs.List.{list_any};
ghost use Rattle.p414_slots.specs.Shown.{slot_in};
ghost use Rattle.p414_ready_actions.specs.Running.{shown_source, shown_term};
ghost use Rattle.lower_laws_actions.specs.Apart.{Part, source_reads, both_read, term_reads, target_reads, is_written};
ghost use Rattle.lower_bodies.specs.Changed.{is_kept};
ghost use Rattle.lower_bodies.specs.Apart.{number_in, items_read, row_reads, row_changes};
ghost use Rattle.std.specs.Prelude.{IfOk};
ghost use Rattle.lower_bodies.specs.Apart.{rows_apart};

use crate::changed::ChangedParts;
use p414_ready_actions::{ReadyPrimitive, ReadySource, ReadyTarget, ReadyTerm};
use p414_slots::FieldSlot;
use std::alloc::{AllocError, Global};

impl ChangedParts {
    /// Whether the number of a field was changed.
    fn has_slot(&self, slot: FieldSlot) -> bool
        ensures { result ≡ is_kept self.now (number_in slot) }
    {
        match slot {
            FieldSlot::Standard(which) => self.has_standard(which),
            FieldSlot::Declared {
                instance,
                element,
                field,
            } => self.has_field(instance, element, field),
        }
    }

    /// Whether the validity of a field's header was changed.
    fn has_target(&self, slot: FieldSlot) -> bool
        ensures { result ≡ list_any (is_kept self.now) (target_reads (slot_in slot)) }
    {
        match slot {
            FieldSlot::Standard(_) => false,
            FieldSlot::Declared {
                instance,
                element,
                ..
            } => self.has_form(instance, element),
        }
    }

    /// Whether what a source reads was changed.
    fn has_source(&self, source: ReadySource) -> bool
        ensures { result ≡ list_any (is_kept self.now) (source_reads (shown_source source)) }
    {
        match source {
            ReadySource::Field(slot) => self.has_slot(slot),
            ReadySource::Number(_) => false,
            ReadySource::Parameter(_) => false,
        }
    }

    /// Whether what one of two sources reads was changed.
    fn has_either(&self, a: ReadySource, b: ReadySource) -> bool
        ensures { result ≡ list_any (is_kept self.now) (both_read (shown_source a) (shown_source b)) }
    {
        self.has_source(a) || self.has_source(b)
    }

    /// Whether the number of one of these fields was changed.
    fn has_some(&self, slots: &[FieldSlot]) -> bool
        ensures { result ≡ list_any (is_kept self.now) (map number_in slots.now) }
    {
        for slot in slots {
            if self.has_slot(*slot) {
                return true;
            }
        }
        false
    }

    /// Whether what a term for this field reads was changed.
    fn has_term(&self, slot: FieldSlot, term: ReadyTerm) -> bool
        ensures { result ≡ list_any (is_kept self.now) (term_reads [] (slot_in slot) (shown_term term)) }
    {
        match term {
            ReadyTerm::Just(a) => self.has_source(a),
            ReadyTerm::OnMask(a, mask) => self.has_slot(slot) || self.has_either(a, mask),
            ReadyTerm::Sum(a, b) => self.has_either(a, b),
            ReadyTerm::Difference(a, b) => self.has_either(a, b),
            ReadyTerm::And(a, b) => self.has_either(a, b),
            ReadyTerm::Or(a, b) => self.has_either(a, b),
            ReadyTerm::Xor(a, b) => self.has_either(a, b),
            ReadyTerm::LeftShift(a, count) => self.has_either(a, count),
            ReadyTerm::RightShift(a, count) => self.has_either(a, count),
            ReadyTerm::Cell { object, index } => self.has_register(object)
                || self.has_source(index),
        }
    }

    /// Whether what a row reads was changed, where these are the fields that calculations read.
    fn has_read(&self, row: ReadyPrimitive, items: &[Vec<FieldSlot>]) -> bool
        ensures { result ≡ list_any (is_kept self.now) (row_reads items.now row) }
    {
        match row {
            ReadyPrimitive::Write { target, term } => self.has_target(target.slot)
                || self.has_term(target.slot, term),
            ReadyPrimitive::Hash {
                target,
                base,
                calculation,
                bound,
            } => {
                self.has_target(target.slot)
                    || self.has_either(base, bound)
                    || self.has_items(items, calculation)
            }
            ReadyPrimitive::AddHeader(header) => self.has_form(header.instance, header.element),
            ReadyPrimitive::RemoveHeader(header) => self.has_form(header.instance, header.element),
            ReadyPrimitive::CopyHeader(_, from) => self.has_header(from.instance, from.element),
            ReadyPrimitive::Push { stack, .. } => self.has_stack(stack),
            ReadyPrimitive::Pop { stack, .. } => self.has_stack(stack),
            ReadyPrimitive::Count { index, .. } => self.has_source(index),
            ReadyPrimitive::WriteCell { index, value, .. } => self.has_either(index, value),
            ReadyPrimitive::ExecuteMeter { index, target, .. } => self.has_target(target.slot)
                || self.has_source(index),
            ReadyPrimitive::Ask { session, .. } => self.has_source(session),
            ReadyPrimitive::Nothing => false,
        }
    }

    /// Whether the number of a field was changed that this calculation reads.
    fn has_items(&self, items: &[Vec<FieldSlot>], calculation: u32) -> bool
        ensures { result ≡ list_any (is_kept self.now) (items_read items.now calculation) }
    {
        match items.get(calculation as usize) {
            Some(slots) => self.has_some(slots.as_slice()),
            None => false,
        }
    }

    /// A field is written. The one error is want of memory.
    fn write(&mut self, slot: FieldSlot) -> Result<(), AllocError>
        ensures { OnOk result ((x : Part) → is_kept self.new x ≡ (is_kept self.old x || is_written (slot_in slot) x)) }
    {
        match slot {
            FieldSlot::Standard(which) => self.write_standard(which),
            FieldSlot::Declared {
                instance,
                element,
                field,
            } => self.write_field(instance, element, field),
        }
    }

    /// What a row changes is changed beside what was. The one error is want of memory.
    pub fn add(&mut self, row: ReadyPrimitive) -> Result<(), AllocError>
        ensures { OnOk result ((x : Part) → is_kept self.new x ≡ (is_kept self.old x || row_changes row x)) }
    {
        match row {
            ReadyPrimitive::Write { target, .. } => self.write(target.slot),
            ReadyPrimitive::Hash { target, .. } => self.write(target.slot),
            ReadyPrimitive::AddHeader(header) => self.replace(header.instance, header.element),
            ReadyPrimitive::RemoveHeader(header) => self.replace(header.instance, header.element),
            ReadyPrimitive::CopyHeader(header, _) => self.replace(header.instance, header.element),
            ReadyPrimitive::Push { stack, .. } => self.shift(stack),
            ReadyPrimitive::Pop { stack, .. } => self.shift(stack),
            ReadyPrimitive::Count { .. } => Ok(()),
            ReadyPrimitive::WriteCell { object, .. } => self.store(object),
            ReadyPrimitive::ExecuteMeter { target, .. } => self.write(target.slot),
            ReadyPrimitive::Ask { .. } => Ok(()),
            ReadyPrimitive::Nothing => Ok(()),
        }
    }
}

/// Whether the primitives of an action are apart, where these are the fields that calculations read, by number. It takes a few
/// look-ups for each part that is read. The one error is want of memory.
pub fn are_rows_apart(
    alloc: Global,
    rows: &[ReadyPrimitive],
    items: &[Vec<FieldSlot>],
) -> Result<bool, AllocError>
    ensures { IfOk result (λ apart. apart ≡ rows_apart items.now rows.now) }
{
    let mut changed = ChangedParts::new(alloc);
    let mut apart = true;
    for row in rows {
        apart = apart && !changed.has_read(*row, items);
        changed.add(*row)?;
    }
    Ok(apart)
}

#[cfg(test)]
mod tests {
    use super::*;
    use p414_ready_actions::ReadyElement;
    use p414_sem::Standard;

    const SPEC: FieldSlot = FieldSlot::Standard(Standard::EgressSpec);

    fn field(instance: u32, field: u32) -> FieldSlot {
        FieldSlot::Declared {
            instance,
            element: 0,
            field,
        }
    }

    fn write(slot: FieldSlot, term: ReadyTerm) -> ReadyPrimitive {
        ReadyPrimitive::Write {
            target: ReadyTarget {
                slot,
                width: 8,
                saturates: false,
            },
            term,
        }
    }

    fn copy(slot: FieldSlot, from: FieldSlot) -> ReadyPrimitive {
        write(slot, ReadyTerm::Just(ReadySource::Field(from)))
    }

    #[test]
    fn tells_actions(rt: HostRuntime) {
        let route = [
            write(SPEC, ReadyTerm::Just(ReadySource::Parameter(0))),
            write(
                field(1, 0),
                ReadyTerm::Sum(ReadySource::Field(field(1, 0)), ReadySource::Parameter(2)),
            ),
            copy(field(0, 1), field(0, 0)),
            write(field(0, 0), ReadyTerm::Just(ReadySource::Parameter(1))),
        ];
        let swap = [
            copy(field(0, 1), field(0, 0)),
            copy(field(0, 0), field(0, 1)),
        ];
        let tag = [
            ReadyPrimitive::AddHeader(ReadyElement {
                instance: 2,
                element: 0,
            }),
            write(field(2, 0), ReadyTerm::Just(ReadySource::Parameter(0))),
        ];
        assert!(rt; matches!(are_rows_apart(rt.alloc(), &route, &[]), Ok(true)));
        assert!(rt; matches!(are_rows_apart(rt.alloc(), &swap, &[]), Ok(false)));
        assert!(rt; matches!(are_rows_apart(rt.alloc(), &tag, &[]), Ok(false)));
    }
}
