// The width of a comparison.
ghost use Rattle.std.specs.Prelude.{◌≡◌, max, IfOk};
ghost use Rattle.p414_syntax.specs.Heads.{of_expr_head};
ghost use Rattle.p414_sem.specs.Conditions.{bit_length, literal_width, operand_width};
ghost use Rattle.p414_ready_conditions.specs.Rows.{comparison_width};
ghost use Rattle.p414_ready_conditions.specs.internal.Widths.{own_width, widest};

use p4x_bits::OutOfMemory;
use p414_slots::Slots;
use p414_syntax::{ExprHead, ExprView, Literal, all_expressions};
use std::alloc::Global;

/// How many bits a number needs, at least 1.
#[tactic(auto, using(crate::proofs::Needed::bits_needed))]
fn bit_length(number: u128) -> u8
    ensures { result ≡ bit_length number }
{
    let bits = 128 - number.leading_zeros();
    (bits as u8).max(1)
}

/// The width of a literal.
fn literal_width(literal: &Literal) -> u8
    ensures { result ≡ literal_width literal.now }
{
    match literal.width {
        Some(width) => width,
        None => bit_length(literal.value),
    }
}

/// The width of an operand; 0 of an operator.
fn own_width(slots: &Slots<'_, '_>, head: ExprHead<'_>) -> Result<u8, OutOfMemory>
    ensures { IfOk result (λ width. width ≡ own_width slots.now (of_expr_head head.entry)) }
{
    match head {
        ExprHead::Valid(_) => Ok(1),
        ExprHead::Truth(_) => Ok(1),
        ExprHead::Field(field) => slots.bits(field),
        ExprHead::Number(literal) => Ok(literal_width(literal)),
        ExprHead::Parenthesized(_) => Ok(0),
        ExprHead::Unary(_, _) => Ok(0),
        ExprHead::Binary(_, _, _) => Ok(0),
    }
}

/// The greatest of a width and those of all these.
fn widest(slots: &Slots<'_, '_>, first: u8, expressions: &[ExprView<'_>]) -> Result<u8, OutOfMemory>
    ensures { IfOk result (λ width. width ≡ widest slots.now first expressions.now) }
{
    let mut width = first;
    for expression in expressions {
        width = width.max(own_width(slots, expression.head())?);
    }
    Ok(width)
}

/// The greatest of a width and those of the operands of an expression.
#[tactic(auto, using(crate::proofs::Needed::widest_is))]
fn wider(
    alloc: Global,
    slots: &Slots<'_, '_>,
    first: u8,
    expression: &ExprView<'_>,
) -> Result<u8, OutOfMemory>
    ensures { IfOk result (λ width. width ≡ max first (operand_width slots.now expression.now)) }
{
    let expressions = all_expressions(alloc, expression)?;
    widest(slots, first, &expressions)
}

/// The width of a comparison of two expressions. The one error is want of memory, which a width over 255 counts as.
pub fn comparison_width(
    alloc: Global,
    slots: &Slots<'_, '_>,
    left: &ExprView<'_>,
    right: &ExprView<'_>,
) -> Result<u8, OutOfMemory>
    ensures { IfOk result (λ width. width ≡ comparison_width slots.now left.now right.now) }
{
    let first = wider(alloc, slots, 0, left)?;
    let width = wider(alloc, slots, first, right)?;
    Ok(width)
}
