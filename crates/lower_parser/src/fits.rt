// Which rows can be written with a table: what stands in them by number is there.
ghost use Rattle.std.specs.Prelude.{IsTrue};
ghost use Rattle.p414_slots.specs.Shown.{slot_in};
ghost use Rattle.lower_expressions.specs.Has.{SlotHas};
ghost use Rattle.lower_expressions.specs.Table.{words_in};
ghost use Rattle.lower_parser.specs.Has.{FieldHas, InitialsHave, InstanceHas, PartsHave, StateHas, StatementHas, StatementsHave, StatesHave, ValueHas};

use crate::states::parts_of;
use lower_expressions::WordsTable;
use p414_ready_parser::{InitialRow, ReadyState, ReadyStatement, ReadyValue, SelectPart};
use p414_slots::FieldSlot;

/// Whether an instance is there.
#[tactic(auto, using(crate::proofs::Fitting::instance_within))]
fn is_instance(table: &WordsTable<'_>, instance: u32) -> bool
    ensures { IsTrue result → InstanceHas (words_in table.now) instance }
{
    (instance as usize) < table.instances.len()
}

/// Whether a field of an instance is there.
#[tactic(auto, using(crate::proofs::Fitting::field_within))]
fn is_field(table: &WordsTable<'_>, instance: u32, field: u32) -> bool
    ensures { IsTrue result → FieldHas (words_in table.now) instance field }
{
    if !is_instance(table, instance) {
        return false;
    }
    (field as usize) < table.instance(instance).fields.len()
}

/// Whether a field is there.
fn slot_has(table: &WordsTable<'_>, slot: FieldSlot) -> bool
    ensures { IsTrue result → SlotHas (words_in table.now) (slot_in slot) }
{
    match slot {
        FieldSlot::Standard(_) => true,
        FieldSlot::Declared {
            instance,
            element: _,
            field,
        } => is_field(table, instance, field),
    }
}

/// Whether what a value names is there.
fn value_has(table: &WordsTable<'_>, value: ReadyValue) -> bool
    ensures { IsTrue result → ValueHas (words_in table.now) value }
{
    match value {
        ReadyValue::Current {
            offset: _,
            width: _,
        } => true,
        ReadyValue::Latest { instance, field } => is_field(table, instance, field),
        ReadyValue::Field(slot) => slot_has(table, slot),
        ReadyValue::Number(_) => true,
    }
}

/// Whether what a statement names is there.
fn statement_has(table: &WordsTable<'_>, row: ReadyStatement) -> bool
    ensures { IsTrue result → StatementHas (words_in table.now) row }
{
    match row {
        ReadyStatement::Extract {
            instance,
            element: _,
            bits: _,
        } => is_instance(table, instance),
        ReadyStatement::Set {
            slot,
            width: _,
            value,
        } => slot_has(table, slot) && value_has(table, value),
    }
}

/// Whether what statements name is there.
#[tactic(auto, using(crate::proofs::Fitting::statement_more, crate::proofs::Fitting::statements_end))]
fn statements_have(table: &WordsTable<'_>, rows: &[ReadyStatement]) -> bool
    ensures { IsTrue result → StatementsHave (words_in table.now) rows.now }
{
    for row in rows {
        if !statement_has(table, *row) {
            return false;
        }
    }
    true
}

/// Whether what the values of a select name is there.
#[tactic(auto, using(crate::proofs::Fitting::part_more, crate::proofs::Fitting::parts_end))]
fn parts_have(table: &WordsTable<'_>, parts: &[SelectPart]) -> bool
    ensures { IsTrue result → PartsHave (words_in table.now) parts.now }
{
    for part in parts {
        if !value_has(table, part.value) {
            return false;
        }
    }
    true
}

/// Whether what a state names is there.
#[tactic(auto, using(crate::proofs::Fitting::state_by))]
fn state_has(table: &WordsTable<'_>, row: &ReadyState) -> bool
    ensures { IsTrue result → StateHas (words_in table.now) row.now }
{
    statements_have(table, row.statements.as_slice()) && parts_have(table, parts_of(&row.end))
}

/// Whether what states name is there. It takes no memory.
#[tactic(auto, using(crate::proofs::Fitting::state_more, crate::proofs::Fitting::states_end))]
pub fn states_have(table: &WordsTable<'_>, rows: &[ReadyState]) -> bool
    ensures { IsTrue result → StatesHave (words_in table.now) rows.now }
{
    for row in rows {
        if !state_has(table, row) {
            return false;
        }
    }
    true
}

/// Whether the fields that get initial values are there. It takes no memory.
#[tactic(auto, using(crate::proofs::Fitting::initial_more, crate::proofs::Fitting::initials_end))]
pub fn initials_have(table: &WordsTable<'_>, rows: &[InitialRow]) -> bool
    ensures { IsTrue result → InitialsHave (words_in table.now) rows.now }
{
    for row in rows {
        if !slot_has(table, row.slot) {
            return false;
        }
    }
    true
}
