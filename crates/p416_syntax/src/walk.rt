// All statements, and all expressions, from the outside in, in the order of the text.
ghost use Rattle.std.specs.Prelude.{◌≡◌, ◌++◌, OnOk, IfOk};
ghost use Rattle.p416_syntax.specs.Heads.{of_exp_head, of_head};
ghost use Rattle.p416_syntax.specs.Subtrees.{own_expressions, subexpressions, subtrees};
ghost use Rattle.p416_syntax.specs.internal.Within.{expressions_within, within};

use crate::stack::Stack;
use crate::views::{ExpHead, ExpView, StmtHead, StmtView};
use p4x_bits::OutOfMemory;
use std::alloc::Global;

/// Puts what stands directly within a statement in front of what is still to be walked.
fn push_within<'a>(left: &mut Stack<StmtView<'a>>, head: StmtHead<'a>) -> Result<(), OutOfMemory>
    ensures { OnOk result (left.new ≡ within (of_head head.entry) ++ left.old) }
{
    match head {
        StmtHead::Then(a, b) => left.push_two(a, b),
        StmtHead::Block(a) => left.push(a),
        StmtHead::If(_, a) => left.push(a),
        StmtHead::IfElse(_, a, b) => left.push_two(a, b),
        StmtHead::Switch(_, a) => left.push(a),
        StmtHead::Case(a, _, b) => left.push_two(a, b),
        _ => Ok(()),
    }
}

/// A statement and all within it, from the outside in, in the order of the text, or want of memory. Its time and its
/// memory are proportional to the number of statements that it gives. A statement that stands at two places of the
/// tree comes twice, though it may lie in the nodes once (no text reads so).
pub fn statements_within<'a>(
    alloc: Global,
    statement: &StmtView<'a>,
) -> Result<Vec<StmtView<'a>>, OutOfMemory>
    ensures { IfOk result (λ found. found.items ≡ subtrees statement.now) }
{
    let mut found = Vec::new(alloc);
    let mut left = Stack::new(alloc);
    left.push(statement.again())?;
    while let Some(next) = left.pop() {
        let head = next.head();
        found.push(next)?;
        push_within(&mut left, head)?;
    }
    Ok(found)
}

/// Puts what stands directly within an expression or an argument list in front of what is still to be walked.
fn push_operands<'a>(left: &mut Stack<ExpView<'a>>, head: ExpHead<'a>) -> Result<(), OutOfMemory>
    ensures { OnOk result (left.new ≡ expressions_within (of_exp_head head.entry) ++ left.old) }
{
    match head {
        ExpHead::Member(a, _) => left.push(a),
        ExpHead::Index(a, _) => left.push(a),
        ExpHead::Slice(a, _, _) => left.push(a),
        ExpHead::Call(a, b) => left.push_two(a, b),
        ExpHead::Lookahead(a, _, b) => left.push_two(a, b),
        ExpHead::Cast(_, a) => left.push(a),
        ExpHead::Unary(_, a) => left.push(a),
        ExpHead::Binary(_, a, b) => left.push_two(a, b),
        ExpHead::Choice(a, b, c) => left.push_three(a, b, c),
        ExpHead::Argument(a, b) => left.push_two(a, b),
        ExpHead::Listed(a) => left.push(a),
        _ => Ok(()),
    }
}

/// An expression or an argument list and all within it, from the outside in, from left to right, or want of memory. Its
/// time and its memory are proportional to the number of expressions and lists that it gives.
pub fn all_expressions<'a>(
    alloc: Global,
    expression: &ExpView<'a>,
) -> Result<Vec<ExpView<'a>>, OutOfMemory>
    ensures { IfOk result (λ found. found.items ≡ subexpressions expression.now) }
{
    let mut found = Vec::new(alloc);
    let mut left = Stack::new(alloc);
    left.push(expression.again())?;
    while let Some(next) = left.pop() {
        let head = next.head();
        found.push(next)?;
        push_operands(&mut left, head)?;
    }
    Ok(found)
}

/// Puts the expressions of a statement behind these, but not those of the statements within it. In an assignment the
/// target comes first.
pub fn own_expressions<'a>(
    found: &mut Vec<ExpView<'a>>,
    statement: &StmtView<'a>,
) -> Result<(), OutOfMemory>
    ensures { OnOk result (found.new.items ≡ found.old.items ++ own_expressions statement.now) }
{
    match statement.head() {
        StmtHead::VarIs(_, _, e) => found.push(e)?,
        StmtHead::Assign(e, f) => {
            found.push(e)?;
            found.push(f)?;
        }
        StmtHead::Expression(e) => found.push(e)?,
        StmtHead::If(e, _) => found.push(e)?,
        StmtHead::IfElse(e, _, _) => found.push(e)?,
        _ => {}
    }
    Ok(())
}
