// How deep blocks nest: the statements of a case are a block too, and `else if`, or a branch without braces, is none.
ghost use Rattle.std.specs.Prelude.{◌≡◌, ◌∷◌, ◌++◌, nat_lt, IfOk, OnOk};
ghost use Rattle.p416_syntax.specs.Heads.{of_head};
ghost use Rattle.p416_syntax.specs.Statements.{nesting};
ghost use Rattle.p416_depth_check.specs.internal.Walks.{stmt_left, is_nest, is_stmt_beyond, within_of};

use p4x_bits::OutOfMemory;
use p416_syntax::{StmtHead, StmtView};
use std::alloc::Global;
use work_stack::Stack;

/// A statement that is still to be walked, with how many blocks may nest within it.
#[derive(Drop)]
pub struct StmtLeft<'a> {
    of: StmtView<'a>,
    levels: u32,
}

/// Whether a statement has a block of its own.
fn is_nest(statement: &StmtView<'_>) -> bool
    ensures { result ≡ is_nest statement.now }
{
    match statement.head() {
        StmtHead::Block(_) => true,
        StmtHead::Case(_, _, _) => true,
        _ => false,
    }
}

/// Whether a statement has one block more than may nest there.
fn is_beyond(next: &StmtLeft<'_>) -> bool
    ensures { result ≡ is_stmt_beyond next.now }
{
    is_nest(&next.of) && next.levels == 0
}

/// Puts a statement in front of what is still to be walked.
fn push_one<'a>(
    left: &mut Stack<StmtLeft<'a>>,
    levels: u32,
    of: StmtView<'a>,
) -> Result<(), OutOfMemory>
    ensures { OnOk result (left.new ≡ stmt_left levels of.entry ∷ left.old) }
{
    left.push(StmtLeft { of, levels })
}

/// Puts two statements in front of what is still to be walked.
fn push_two<'a>(
    left: &mut Stack<StmtLeft<'a>>,
    levels: u32,
    first: StmtView<'a>,
    last_levels: u32,
    last: StmtView<'a>,
) -> Result<(), OutOfMemory>
    ensures { OnOk result (left.new ≡ stmt_left levels first.entry ∷ stmt_left last_levels last.entry ∷ left.old) }
{
    push_one(left, last_levels, last)?;
    push_one(left, levels, first)
}

/// Puts what stands directly within a statement in front of what is still to be walked.
fn push_within<'a>(
    left: &mut Stack<StmtLeft<'a>>,
    levels: u32,
    head: StmtHead<'a>,
) -> Result<(), OutOfMemory>
    ensures { OnOk result (left.new ≡ within_of levels (of_head head.entry) ++ left.old) }
{
    let within = levels.saturating_sub(1);
    match head {
        StmtHead::Then(a, b) => push_two(left, levels, a, levels, b),
        StmtHead::Block(a) => push_one(left, within, a),
        StmtHead::If(_, a) => push_one(left, levels, a),
        StmtHead::IfElse(_, a, b) => push_two(left, levels, a, levels, b),
        StmtHead::Switch(_, a) => push_one(left, levels, a),
        StmtHead::Case(a, _, b) => push_two(left, levels, a, within, b),
        _ => Ok(()),
    }
}

/// Whether more blocks than so many nest within a list of statements. Its time is proportional to the number of
/// statements within it.
#[tactic(auto, using(crate::proofs::Walking::stmt_turn, crate::proofs::Walking::stmt_found, crate::proofs::Walking::stmt_smaller))]
pub(crate) fn nests_deeper(
    alloc: Global,
    levels: u32,
    statements: &StmtView<'_>,
) -> Result<bool, OutOfMemory>
    ensures { IfOk result (λ deep. deep ≡ nat_lt levels (nesting statements.now)) }
{
    let mut left = Stack::new(alloc);
    push_one(&mut left, levels, statements.again())?;
    while let Some(next) = left.pop() {
        if is_beyond(&next) {
            return Ok(true);
        }
        push_within(&mut left, next.levels, next.of.head())?;
    }
    Ok(false)
}
