// Which rows can be written with a table: what stands in them by number is there, and no width is over 128 bits.
ghost use Rattle.std.specs.Prelude.{◌≡◌, IsTrue};
ghost use Rattle.p414_sem.specs.Slots.{declared};
ghost use Rattle.p414_slots.specs.Shown.{slot_in};
ghost use Rattle.p414_ready_actions.specs.Running.{shown_source, shown_target, shown_term};
ghost use Rattle.lower_expressions.specs.Table.{words_in};
ghost use Rattle.lower_expressions.specs.Has.{IsInstance, ObjectHas, SlotHas, SourceHas, TargetHas};
ghost use Rattle.lower_primitives.specs.Has.{CounterHas, HashHas, ItemHas, ItemsHave, RowHas, RowsHave, TermHas};

use lower_expressions::{WordsTable, slot_width};
use lower_rows::HashItem;
use p414_ready_actions::{ReadyPrimitive, ReadySource, ReadyTarget, ReadyTerm};
use p414_slots::FieldSlot;

/// Whether an instance is there.
#[tactic(auto, using(crate::proofs::Fitting::instance_within))]
fn is_instance(table: &WordsTable<'_>, instance: u32) -> bool
    ensures { IsTrue result → IsInstance (words_in table.now) instance }
{
    (instance as usize) < table.instances.len()
}

/// Whether a field of an instance is there.
#[tactic(auto, using(crate::proofs::Fitting::field_within))]
fn is_field(table: &WordsTable<'_>, instance: u32, field: u32) -> bool
    ensures { IsTrue result → SlotHas (words_in table.now) (declared instance 0 field) }
{
    if !is_instance(table, instance) {
        return false;
    }
    (field as usize) < table.instance(instance).fields.len()
}

/// Whether a field is there.
fn slot_has(table: &WordsTable<'_>, slot: FieldSlot) -> bool
    ensures { IsTrue result → SlotHas (words_in table.now) (slot_in slot) }
{
    match slot {
        FieldSlot::Standard(_) => true,
        FieldSlot::Declared {
            instance,
            element: _,
            field,
        } => is_field(table, instance, field),
    }
}

/// Whether a field is there, with at most 128 bits.
fn is_narrow(table: &WordsTable<'_>, slot: FieldSlot) -> bool
    ensures { IsTrue result → SourceHas (words_in table.now) (shown_source (ReadySource.Field slot)) }
{
    if !slot_has(table, slot) {
        return false;
    }
    slot_width(table, slot) <= 128
}

/// Whether a parameter is there, with at most 128 bits.
#[tactic(auto, using(crate::proofs::Fitting::parameter_within))]
fn has_parameter(table: &WordsTable<'_>, parameter: u32) -> bool
    ensures { IsTrue result → SourceHas (words_in table.now) (shown_source (ReadySource.Parameter parameter)) }
{
    if parameter as usize >= table.parameters.len() {
        return false;
    }
    table.parameter(parameter).width <= 128
}

/// Whether what a source names is there.
fn source_has(table: &WordsTable<'_>, source: ReadySource) -> bool
    ensures { IsTrue result → SourceHas (words_in table.now) (shown_source source) }
{
    match source {
        ReadySource::Number(_) => true,
        ReadySource::Field(slot) => is_narrow(table, slot),
        ReadySource::Parameter(parameter) => has_parameter(table, parameter),
    }
}

/// Whether an object is there, with cells of at most 128 bits.
#[tactic(auto, using(crate::proofs::Fitting::object_within))]
fn object_has(table: &WordsTable<'_>, object: u32) -> bool
    ensures { IsTrue result → ObjectHas (words_in table.now) object }
{
    if object as usize >= table.objects.len() {
        return false;
    }
    table.object(object).width <= 128
}

/// Whether a field that is written is there, with at most 128 bits.
fn target_has(table: &WordsTable<'_>, target: ReadyTarget) -> bool
    ensures { IsTrue result → TargetHas (words_in table.now) (shown_target target) }
{
    target.width <= 128 && is_narrow(table, target.slot)
}

/// Whether what two sources name is there.
fn both_have(table: &WordsTable<'_>, a: ReadySource, b: ReadySource) -> bool
    ensures { IsTrue result → SourceHas (words_in table.now) (shown_source a) × SourceHas (words_in table.now) (shown_source b) }
{
    source_has(table, a) && source_has(table, b)
}

/// Whether what a term names is there.
fn term_has(table: &WordsTable<'_>, term: ReadyTerm) -> bool
    ensures { IsTrue result → TermHas (words_in table.now) (shown_term term) }
{
    match term {
        ReadyTerm::Just(a) => source_has(table, a),
        ReadyTerm::OnMask(a, mask) => both_have(table, a, mask),
        ReadyTerm::Sum(a, b) => both_have(table, a, b),
        ReadyTerm::Difference(a, b) => both_have(table, a, b),
        ReadyTerm::And(a, b) => both_have(table, a, b),
        ReadyTerm::Or(a, b) => both_have(table, a, b),
        ReadyTerm::Xor(a, b) => both_have(table, a, b),
        ReadyTerm::LeftShift(a, b) => both_have(table, a, b),
        ReadyTerm::RightShift(a, b) => both_have(table, a, b),
        ReadyTerm::Cell { object, index } => object_has(table, object) && source_has(table, index),
    }
}

/// Whether what an item names is there.
fn item_has(table: &WordsTable<'_>, item: HashItem) -> bool
    ensures { IsTrue result → ItemHas (words_in table.now) item }
{
    match item {
        HashItem::Field(slot) => slot_has(table, slot),
        HashItem::Number(_, _) => true,
        HashItem::Other => true,
    }
}

/// Whether what items name is there.
#[tactic(auto, using(crate::proofs::Fitting::item_more, crate::proofs::Fitting::items_end))]
fn items_have(table: &WordsTable<'_>, items: &[HashItem]) -> bool
    ensures { IsTrue result → ItemsHave (words_in table.now) items.now }
{
    for item in items {
        if !item_has(table, *item) {
            return false;
        }
    }
    true
}

/// Whether a calculation is there, with what it reads.
fn hash_has(table: &WordsTable<'_>, calculation: u32) -> bool
    ensures { IsTrue result → HashHas table.now calculation }
{
    if calculation as usize >= table.calculations.len() {
        return false;
    }
    items_have(table, table.calculation(calculation).items.as_slice())
}

/// Whether what a row names is there.
fn row_has(table: &WordsTable<'_>, row: ReadyPrimitive) -> bool
    ensures { IsTrue result → RowHas table.now row }
{
    match row {
        ReadyPrimitive::Write { target, term } => target_has(table, target)
            && term_has(table, term),
        ReadyPrimitive::Hash {
            target,
            base,
            calculation,
            bound,
        } => {
            target_has(table, target)
                && both_have(table, base, bound)
                && hash_has(table, calculation)
        }
        ReadyPrimitive::AddHeader(part) => is_instance(table, part.instance),
        ReadyPrimitive::RemoveHeader(part) => is_instance(table, part.instance),
        ReadyPrimitive::CopyHeader(to, from) => is_instance(table, to.instance)
            && is_instance(table, from.instance),
        ReadyPrimitive::Push { stack, count: _ } => is_instance(table, stack),
        ReadyPrimitive::Pop { stack, count: _ } => is_instance(table, stack),
        ReadyPrimitive::Count { object, index } => object_has(table, object)
            && source_has(table, index),
        ReadyPrimitive::WriteCell {
            object,
            index,
            value,
        } => object_has(table, object) && both_have(table, index, value),
        ReadyPrimitive::ExecuteMeter {
            object,
            index,
            target,
        } => { object_has(table, object) && source_has(table, index) && target_has(table, target) }
        ReadyPrimitive::Ask {
            kind: _,
            session,
            list: _,
        } => source_has(table, session),
        ReadyPrimitive::Nothing => true,
    }
}

/// Whether all rows can be written with a table, as those of a program that breaks no rule can. It takes no memory.
#[tactic(auto, using(crate::proofs::Fitting::row_more, crate::proofs::Fitting::rows_end))]
pub fn rows_have(table: &WordsTable<'_>, rows: &[ReadyPrimitive]) -> bool
    ensures { IsTrue result → RowsHave table.now rows.now }
{
    for row in rows {
        if !row_has(table, *row) {
            return false;
        }
    }
    true
}

/// Whether a direct counter is there, where there is one.
pub fn counter_has(table: &WordsTable<'_>, counter: Option<u32>) -> bool
    ensures { IsTrue result → CounterHas table.now counter }
{
    match counter {
        Some(object) => object_has(table, object),
        None => true,
    }
}
