// Conditions are made ready.
ghost use Rattle.std.specs.Prelude.{◌≡◌, ◌∷◌, ◌++◌, ◌<◌, IfOk, OnOk};
ghost use Rattle.p414_syntax.specs.Heads.{of_expr_head};
ghost use Rattle.p414_syntax.specs.Expressions.{takes_truth};
ghost use Rattle.p414_ready_conditions.specs.Meaning.{MeansCondition};
ghost use Rattle.p414_ready_conditions.specs.Rows.{truth_rows, valid_row};
ghost use Rattle.p414_ready_conditions.specs.internal.Work.{all_rows, joined_work, number_work, truth_work, weight_of};

use crate::conditions::ReadyCondition;
use crate::rows::ConditionRow;
use crate::widths::comparison_width;
use p4x_bits::OutOfMemory;
use p414_names::is_standard;
use p414_slots::{Slots, element_number};
use p414_syntax::{BinaryOperator, ExprHead, ExprView, Inst};
use std::alloc::Global;
use work_stack::Stack;

/// What is still to be done.
#[derive(Drop)]
enum Work<'a> {
    /// The rows of a truth value.
    Truth(ExprView<'a>),
    /// The rows of a number of so many bits.
    Number(u8, ExprView<'a>),
    /// A row.
    Row(ConditionRow),
}

/// Whether an instance is valid.
fn valid_row(slots: &Slots<'_, '_>, instance: &Inst) -> Result<ConditionRow, OutOfMemory>
    ensures { IfOk result (λ row. row ≡ valid_row slots.now instance.now) }
{
    if is_standard(instance.name.as_slice()) {
        return Ok(ConditionRow::Truth(true));
    }
    let number = slots.instance(instance.name.as_slice())?;
    let element = element_number(instance.index)?;
    Ok(ConditionRow::Valid {
        instance: number,
        element,
    })
}

/// Puts the work for an expression in front that is a number of so many bits.
fn push_number<'a>(
    left: &mut Stack<Work<'a>>,
    slots: &Slots<'_, '_>,
    width: u8,
    head: ExprHead<'a>,
) -> Result<(), OutOfMemory>
    ensures { OnOk result (left.new ≡ number_work slots.now width (of_expr_head head.entry) ++ left.old) }
{
    match head {
        ExprHead::Valid(_) => left.push(Work::Row(ConditionRow::Number(0))),
        ExprHead::Truth(_) => left.push(Work::Row(ConditionRow::Number(0))),
        ExprHead::Field(field) => left.push(Work::Row(ConditionRow::Field(slots.slot(field)?))),
        ExprHead::Number(literal) => left.push(Work::Row(ConditionRow::Number(literal.value))),
        ExprHead::Parenthesized(a) => left.push(Work::Number(width, a)),
        ExprHead::Unary(operator, a) => left.push_two(
            Work::Number(width, a),
            Work::Row(ConditionRow::Unary(operator, width)),
        ),
        ExprHead::Binary(operator, a, b) => left.push_three(
            Work::Number(width, b),
            Work::Number(width, a),
            Work::Row(ConditionRow::Binary(operator, width)),
        ),
    }
}

/// Whether an operator stands between truth values.
fn takes_truth(operator: BinaryOperator) -> bool
    ensures { result ≡ takes_truth operator }
{
    match operator {
        BinaryOperator::And => true,
        BinaryOperator::Or => true,
        _ => false,
    }
}

/// Puts the work for an operator in front that joins two truth values, or compares two numbers.
fn push_joined<'a>(
    alloc: Global,
    left: &mut Stack<Work<'a>>,
    slots: &Slots<'_, '_>,
    operator: BinaryOperator,
    a: ExprView<'a>,
    b: ExprView<'a>,
) -> Result<(), OutOfMemory>
    ensures { OnOk result (left.new ≡ joined_work slots.now operator a.entry b.entry ++ left.old) }
{
    if takes_truth(operator) {
        return left.push_three(
            Work::Truth(b),
            Work::Truth(a),
            Work::Row(ConditionRow::Join(operator)),
        );
    }
    let width = comparison_width(alloc, slots, &a, &b)?;
    left.push_three(
        Work::Number(width, b),
        Work::Number(width, a),
        Work::Row(ConditionRow::Compare(operator)),
    )
}

/// Puts the work for an expression in front that is a truth value.
fn push_truth<'a>(
    alloc: Global,
    left: &mut Stack<Work<'a>>,
    slots: &Slots<'_, '_>,
    head: ExprHead<'a>,
) -> Result<(), OutOfMemory>
    ensures { OnOk result (left.new ≡ truth_work slots.now (of_expr_head head.entry) ++ left.old) }
{
    match head {
        ExprHead::Valid(instance) => left.push(Work::Row(valid_row(slots, instance)?)),
        ExprHead::Truth(truth) => left.push(Work::Row(ConditionRow::Truth(truth))),
        ExprHead::Field(_) => left.push(Work::Row(ConditionRow::Truth(false))),
        ExprHead::Number(_) => left.push(Work::Row(ConditionRow::Truth(false))),
        ExprHead::Parenthesized(a) => left.push(Work::Truth(a)),
        ExprHead::Unary(operator, a) => {
            left.push_two(Work::Truth(a), Work::Row(ConditionRow::Turn(operator)))
        }
        ExprHead::Binary(operator, a, b) => push_joined(alloc, left, slots, operator, a, b),
    }
}

/// Does what is in front: a row is put last, and an expression is replaced by what it is done by.
#[tactic(auto, using(crate::proofs::Working::truth_done, crate::proofs::Working::number_done, crate::proofs::Working::row_done, crate::proofs::Working::truth_lighter, crate::proofs::Working::number_lighter))]
fn do_work<'a>(
    alloc: Global,
    left: &mut Stack<Work<'a>>,
    made: &mut ReadyCondition,
    slots: &Slots<'_, '_>,
    work: Work<'a>,
) -> Result<(), OutOfMemory>
    ensures same { OnOk result (made.new ++ all_rows slots.now left.new ≡ made.old ++ all_rows slots.now (work.entry ∷ left.old)) }
    ensures less { OnOk result (weight_of left.new < weight_of (work.entry ∷ left.old)) }
{
    match work {
        Work::Truth(expression) => {
            push_truth(alloc, left, slots, expression.head())?;
            Ok(())
        }
        Work::Number(width, expression) => {
            push_number(left, slots, width, expression.head())?;
            Ok(())
        }
        Work::Row(row) => {
            made.push(row)?;
            Ok(())
        }
    }
}

/// The rows of a condition.
fn rows_of(
    alloc: Global,
    slots: &Slots<'_, '_>,
    condition: &ExprView<'_>,
) -> Result<ReadyCondition, OutOfMemory>
    ensures { IfOk result (λ made. made ≡ truth_rows slots.now condition.now) }
{
    let mut made = ReadyCondition::new(alloc);
    let mut left = Stack::new(alloc);
    left.push(Work::Truth(condition.again()))?;
    while let Some(work) = left.pop() {
        do_work(alloc, &mut left, &mut made, slots, work)?;
    }
    Ok(made)
}

/// A condition of the program of these names, ready to be asked of packets (P4_14 1.0.5, "Packet Processing and Control
/// Flow"). In time linear in its operands and operators, where no comparison stands within another one; the one error is want
/// of memory, which names, elements and widths count as that are too large to keep: no program has one that breaks no rule.
#[tactic(auto, using(crate::proofs::Meaning::rows_mean))]
pub fn ready_condition(
    alloc: Global,
    slots: &Slots<'_, '_>,
    condition: &ExprView<'_>,
) -> Result<ReadyCondition, OutOfMemory>
    ensures are { IfOk result (λ made. made ≡ truth_rows slots.now condition.now) }
    ensures means { IfOk result (MeansCondition slots.now condition.now) }
{
    let made = rows_of(alloc, slots, condition)?;
    Ok(made)
}
