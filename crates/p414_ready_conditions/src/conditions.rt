// Conditions that are ready.
ghost use Rattle.std.specs.Prelude.{◌≡◌, [], ◌∷◌, ◌++◌, All, IfOk, IsTrue, OnOk};
ghost use Rattle.p414_ready_conditions.specs.Rows.{IsNarrow};
ghost use Rattle.p414_ready_conditions.specs.Running.{after_rows, rows_hold};

use crate::rows::ConditionRow;
use crate::stack::NumberStack;
use p4x_bits::OutOfMemory;
use p414_state::State14;
use std::alloc::Global;
use std::marker::Model;

/// A condition that is ready to be asked. Contracts see its rows.
#[derive(Drop)]
pub struct ReadyCondition {
    rows: Vec<ConditionRow>,
}

impl Model for ReadyCondition {
    ghost use Rattle.std.specs.Prelude.{List, All};
    ghost use Rattle.p414_ready_conditions.specs.declared.rows.ConditionRow.{ConditionRow as Row};
    ghost use Rattle.p414_ready_conditions.specs.Rows.{IsNarrow};

    ghost Value = { List Row };

    ghost view = { λ c. c.rows.items };

    ghost invariant = { λ c. All IsNarrow c.rows.items };
}

/// Whether the numbers of a row have at most 128 bits.
fn is_narrow(row: ConditionRow) -> bool
    ensures { IsTrue result → IsNarrow row }
{
    match row {
        ConditionRow::Unary(_, width) => width <= 128,
        ConditionRow::Binary(_, width) => width <= 128,
        _ => true,
    }
}

/// Does the steps of rows.
fn run_rows(
    numbers: &mut NumberStack,
    state: &State14,
    rows: &[ConditionRow],
) -> Result<(), OutOfMemory>
    requires { All IsNarrow rows.now }
    ensures { OnOk result (numbers.new ≡ after_rows state.now.state numbers.old rows.now) }
{
    for row in rows {
        numbers.step(state, *row)?;
    }
    Ok(())
}

impl ReadyCondition {
    /// A condition without rows.
    pub(crate) fn new(alloc: Global) -> ReadyCondition
        ensures { result ≡ [] }
    {
        ReadyCondition {
            rows: Vec::new(alloc),
        }
    }

    /// Puts a row last. One of over 128 bits, which no program has that breaks no rule, counts as want of memory.
    pub(crate) fn push(&mut self, row: ConditionRow) -> Result<(), OutOfMemory>
        ensures { OnOk result (self.new ≡ self.old ++ row ∷ []) }
    {
        if !is_narrow(row) {
            return Err(OutOfMemory);
        }
        self.rows.push(row)?;
        Ok(())
    }

    /// Whether the condition holds in a packet's state. In time linear in its rows; the one error is want of memory, which
    /// comes only where `numbers` has to grow.
    pub fn holds(&self, state: &State14, numbers: &mut NumberStack) -> Result<bool, OutOfMemory>
        ensures { IfOk result (λ holds. holds ≡ rows_hold state.now.state self.now) }
    {
        numbers.clear();
        run_rows(numbers, state, &self.rows)?;
        Ok(numbers.take_truth())
    }
}
