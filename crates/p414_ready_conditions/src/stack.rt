// The numbers that stand on the stack of a condition.
ghost use Rattle.std.specs.Prelude.{◌≡◌, ◌==◌, [], ◌∷◌, false, IfOk, OnOk};
ghost use Rattle.p4x_bits.specs.BitLists.{bit};
ghost use Rattle.p414_sem.specs.Conditions.{binary_truth, unary_truth};
ghost use Rattle.p414_sem.specs.State.{read};
ghost use Rattle.p414_slots.specs.Shown.{slot_in};
ghost use Rattle.p414_ready_conditions.specs.Rows.{IsNarrow};
ghost use Rattle.p414_ready_conditions.specs.Running.{below, is_one, step, top};

use crate::numbers::{binary_number, compares, unary_number};
use crate::rows::ConditionRow;
use p4x_bits::OutOfMemory;
use p414_slots::FieldSlot;
use p414_state::State14;
use p414_syntax::{BinaryOperator, UnaryOperator};
use std::alloc::Global;
use std::marker::Model;

/// The numbers that a condition works on. Its room stays from one condition to the next, so that conditions take no memory once
/// it has grown. Contracts see the list of them, the one that was put last in front.
#[derive(Drop)]
pub struct NumberStack {
    numbers: Vec<u128>,
}

impl Model for NumberStack {
    ghost use Rattle.std.specs.Prelude.{ℕ, List, reverse};

    ghost Value = { List ℕ };

    ghost view = { λ s. reverse s.numbers.items };
}

/// A field's number; 0 where its header is invalid. It takes no memory.
pub fn read_field(state: &State14, slot: FieldSlot) -> u128
    ensures { result ≡ read state.now.state (slot_in slot) }
{
    match slot {
        FieldSlot::Standard(field) => u128::from(state.standard(field)),
        FieldSlot::Declared {
            instance,
            element,
            field,
        } => state.number(instance, element, field),
    }
}

/// A truth value as a number.
fn bit(truth: bool) -> u128
    ensures { result ≡ bit truth }
{
    if truth { 1 } else { 0 }
}

/// What an operator makes of a truth value.
fn unary_truth(operator: UnaryOperator, a: bool) -> bool
    ensures { result ≡ unary_truth operator a }
{
    match operator {
        UnaryOperator::Not => !a,
        UnaryOperator::Negate => false,
        UnaryOperator::Complement => false,
    }
}

/// What an operator makes of two truth values.
fn joined_truth(operator: BinaryOperator, a: bool, b: bool) -> bool
    ensures { result ≡ binary_truth operator a b false }
{
    match operator {
        BinaryOperator::And => a && b,
        BinaryOperator::Or => a || b,
        _ => false,
    }
}

impl NumberStack {
    /// No numbers. It takes no memory.
    pub fn new(alloc: Global) -> NumberStack
        ensures { result ≡ [] }
    {
        NumberStack {
            numbers: Vec::new(alloc),
        }
    }

    /// Takes all numbers off.
    pub(crate) fn clear(&mut self)
        ensures { self.new ≡ [] }
    {
        self.numbers.clear();
    }

    /// Puts a number in front.
    fn put(&mut self, number: u128) -> Result<(), OutOfMemory>
        ensures { OnOk result (self.new ≡ number ∷ self.old) }
    {
        self.numbers.push(number)?;
        Ok(())
    }

    /// Takes the number in front off; 0 where there is none.
    pub(crate) fn take(&mut self) -> u128
        ensures is { result ≡ top self.old }
        ensures below { self.new ≡ below self.old }
    {
        self.numbers.pop().unwrap_or(0)
    }

    /// The same as a truth value.
    pub(crate) fn take_truth(&mut self) -> bool
        ensures is { result ≡ is_one (top self.old) }
        ensures below { self.new ≡ below self.old }
    {
        self.take() == 1
    }

    /// Does a step of a condition in a packet's state.
    pub(crate) fn step(&mut self, state: &State14, row: ConditionRow) -> Result<(), OutOfMemory>
        requires { IsNarrow row }
        ensures { OnOk result (self.new ≡ step state.now.state self.old row) }
    {
        match row {
            ConditionRow::Number(number) => self.put(number),
            ConditionRow::Field(slot) => self.put(read_field(state, slot)),
            ConditionRow::Valid { instance, element } => {
                self.put(bit(state.valid(instance, element)))
            }
            ConditionRow::Truth(truth) => self.put(bit(truth)),
            ConditionRow::Unary(operator, width) => {
                let a = self.take();
                self.put(unary_number(width, operator, a))
            }
            ConditionRow::Binary(operator, width) => {
                let a = self.take();
                let b = self.take();
                self.put(binary_number(width, operator, a, b))
            }
            ConditionRow::Compare(operator) => {
                let a = self.take();
                let b = self.take();
                self.put(bit(compares(operator, a, b)))
            }
            ConditionRow::Turn(operator) => {
                let a = self.take_truth();
                self.put(bit(unary_truth(operator, a)))
            }
            ConditionRow::Join(operator) => {
                let a = self.take_truth();
                let b = self.take_truth();
                self.put(bit(joined_truth(operator, a, b)))
            }
        }
    }
}
