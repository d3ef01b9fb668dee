// All statements, and all expressions, from the outside in, in the order of the text.
ghost use Rattle.std.specs.Prelude.{◌≡◌, ◌++◌, OnOk, IfOk};
ghost use Rattle.std.specs.List.{flat_map};
ghost use Rattle.p414_syntax.specs.Heads.{of_expr_head, of_head};
ghost use Rattle.p414_syntax.specs.Subtrees.{conditions, own_conditions, subexpressions, subtrees};
ghost use Rattle.p414_syntax.specs.internal.Within.{expressions_within, within};

use crate::control::Control;
use crate::heads::{ExprHead, ExprView, StmtHead, StmtView};
use crate::stack::Stack;
use p4x_bits::OutOfMemory;
use std::alloc::Global;

/// Puts what stands directly within a statement in front of what is still to be walked.
fn push_within<'a>(left: &mut Stack<StmtView<'a>>, head: StmtHead<'a>) -> Result<(), OutOfMemory>
    ensures { OnOk result (left.new ≡ within (of_head head.entry) ++ left.old) }
{
    match head {
        StmtHead::Then(a, b) => left.push_two(a, b),
        StmtHead::ApplyBranches(_, a) => left.push(a),
        StmtHead::If(_, a, b) => left.push_two(a, b),
        StmtHead::ElseBlock(a) => left.push(a),
        StmtHead::ElseIf(a) => left.push(a),
        StmtHead::Branch(a, _, b) => left.push_two(a, b),
        _ => Ok(()),
    }
}

/// A statement and all within it, from the outside in, in the order of the text, or want of memory. Its time and its
/// memory are proportional to the number of statements that it gives. A statement that stands at two places of the
/// tree comes twice, though it may lie in the nodes once (no text reads so).
pub fn statements_within<'a>(
    alloc: Global,
    statement: &StmtView<'a>,
) -> Result<Vec<StmtView<'a>>, OutOfMemory>
    ensures { IfOk result (λ found. found.items ≡ subtrees statement.now) }
{
    let mut found = Vec::new(alloc);
    let mut left = Stack::new(alloc);
    left.push(statement.again())?;
    while let Some(next) = left.pop() {
        let head = next.head();
        found.push(next)?;
        push_within(&mut left, head)?;
    }
    Ok(found)
}

/// All statements of a control, from the outside in, in the order of the text, or want of memory. Its time and its
/// memory are proportional to the number of statements that it gives.
pub fn all_statements(alloc: Global, control: &Control) -> Result<Vec<StmtView<'_>>, OutOfMemory>
    ensures { IfOk result (λ found. found.items ≡ subtrees control.now.body) }
{
    statements_within(alloc, &control.body())
}

/// Puts the operands of an expression in front of what is still to be walked.
fn push_operands<'a>(left: &mut Stack<ExprView<'a>>, head: ExprHead<'a>) -> Result<(), OutOfMemory>
    ensures { OnOk result (left.new ≡ expressions_within (of_expr_head head.entry) ++ left.old) }
{
    match head {
        ExprHead::Parenthesized(a) => left.push(a),
        ExprHead::Unary(_, a) => left.push(a),
        ExprHead::Binary(_, a, b) => left.push_two(a, b),
        _ => Ok(()),
    }
}

/// An expression and all within it, from the outside in, from left to right, or want of memory. Its time and its memory
/// are proportional to the number of expressions that it gives.
pub fn all_expressions<'a>(
    alloc: Global,
    expression: &ExprView<'a>,
) -> Result<Vec<ExprView<'a>>, OutOfMemory>
    ensures { IfOk result (λ found. found.items ≡ subexpressions expression.now) }
{
    let mut found = Vec::new(alloc);
    let mut left = Stack::new(alloc);
    left.push(expression.again())?;
    while let Some(next) = left.pop() {
        let head = next.head();
        found.push(next)?;
        push_operands(&mut left, head)?;
    }
    Ok(found)
}

/// Puts the condition of a statement last, if it has one.
fn push_condition<'a>(
    found: &mut Vec<ExprView<'a>>,
    statement: &StmtView<'a>,
) -> Result<(), OutOfMemory>
    ensures { OnOk result (found.new.items ≡ found.old.items ++ own_conditions statement.now) }
{
    if let Some(condition) = statement.condition() {
        found.push(condition)?;
    }
    Ok(())
}

/// The conditions of these statements, in order.
fn conditions_in<'a>(
    alloc: Global,
    statements: &[StmtView<'a>],
) -> Result<Vec<ExprView<'a>>, OutOfMemory>
    ensures { IfOk result (λ found. found.items ≡ flat_map own_conditions statements.now) }
{
    let mut found = Vec::new(alloc);
    for statement in statements {
        push_condition(&mut found, statement)?;
    }
    Ok(found)
}

/// The conditions of all `if` statements of a control, in the order of the text, or want of memory. Its time and its
/// memory are proportional to the number of statements.
pub fn all_conditions(alloc: Global, control: &Control) -> Result<Vec<ExprView<'_>>, OutOfMemory>
    ensures { IfOk result (λ found. found.items ≡ conditions control.now.body) }
{
    let statements = all_statements(alloc, control)?;
    conditions_in(alloc, statements.as_slice())
}
