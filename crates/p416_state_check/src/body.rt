// Whether statements extract, whatever an `if` in them chooses (P4_16 1.2, "Data extraction").
ghost use Rattle.std.specs.Prelude.{◌≡◌, ◌++◌, OnOk, IfOk};
ghost use Rattle.p416_syntax.specs.ParserStates.{is_extract, is_extract_method, extracts};
ghost use Rattle.p416_state_check.specs.internal.Outside.{outside_if, extracts_itself};

use p4x_bits::OutOfMemory;
use p416_syntax::{ExpHead, ExpView, StmtHead, StmtView};
use std::alloc::Global;
use work_stack::Stack;

/// The name of the method that extracts.
const EXTRACT: &[u8] = b"extract";

/// Whether what is called is a method `extract`.
fn is_extract_method(callee: &ExpView<'_>) -> bool
    ensures { result ≡ is_extract_method callee.now }
{
    match callee.head() {
        ExpHead::Member(_, word) => word.as_slice() == EXTRACT,
        _ => false,
    }
}

/// Whether an expression is a call of `extract`.
fn is_extract(expression: &ExpView<'_>) -> bool
    ensures { result ≡ is_extract expression.now }
{
    match expression.head() {
        ExpHead::Call(callee, _) => is_extract_method(&callee),
        _ => false,
    }
}

/// Whether a statement is a call of `extract`.
fn extracts_itself(statement: &StmtView<'_>) -> bool
    ensures { result ≡ extracts_itself statement.now }
{
    match statement.head() {
        StmtHead::Expression(expression) => is_extract(&expression),
        _ => false,
    }
}

/// Puts the statements that stand directly within a statement, outside every `if`, in front of what is still to be
/// walked.
fn push_outside_if<'a>(
    left: &mut Stack<StmtView<'a>>,
    statement: &StmtView<'a>,
) -> Result<(), OutOfMemory>
    ensures { OnOk result (left.new ≡ outside_if statement.now ++ left.old) }
{
    match statement.head() {
        StmtHead::Then(before, last) => left.push_two(before, last),
        StmtHead::Block(statements) => left.push(statements),
        _ => Ok(()),
    }
}

/// Whether a list of statements extracts outside every `if`. Its time is proportional to the number of these statements.
pub(crate) fn extracts(alloc: Global, statements: &StmtView<'_>) -> Result<bool, OutOfMemory>
    ensures { IfOk result (λ found. found ≡ extracts statements.now) }
{
    let mut left = Stack::new(alloc);
    left.push(statements.again())?;
    while let Some(next) = left.pop() {
        if extracts_itself(&next) {
            return Ok(true);
        }
        push_outside_if(&mut left, &next)?;
    }
    Ok(false)
}
