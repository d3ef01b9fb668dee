// How deep expressions nest: an operator, a member, an element, a slice, a cast, a call and a list in braces are a level
// each.
ghost use Rattle.std.specs.Prelude.{◌≡◌, ◌∷◌, ◌++◌, false, IfOk, OnOk, MatchOption};
ghost use Rattle.std.specs.List.{list_any};
ghost use Rattle.p416_syntax.specs.Heads.{of_exp_head};
ghost use Rattle.p416_syntax.specs.Tree.{argument};
ghost use Rattle.p416_depth_check.specs.internal.Walks.{exp_left, is_list, is_exp_beyond, parts_of};
ghost use Rattle.p416_depth_check.specs.internal.Deep.{is_deep, has_deep_argument};

use p4x_bits::OutOfMemory;
use p416_syntax::{ExpHead, ExpView};
use std::alloc::Global;
use work_stack::Stack;

/// How many levels an expression may have.
const MOST_LEVELS: u32 = 512;

/// An expression or an argument list that is still to be walked, with how many levels it may have.
#[derive(Drop)]
pub struct ExpLeft<'a> {
    of: ExpView<'a>,
    levels: u32,
}

/// Whether this is an argument list, which is no level.
fn is_list(expression: &ExpView<'_>) -> bool
    ensures { result ≡ is_list expression.now }
{
    match expression.head() {
        ExpHead::NoArguments => true,
        ExpHead::Argument(_, _) => true,
        _ => false,
    }
}

/// Whether an expression is one level more than there may be.
fn is_beyond(next: &ExpLeft<'_>) -> bool
    ensures { result ≡ is_exp_beyond next.now }
{
    !is_list(&next.of) && next.levels == 0
}

/// Puts an expression in front of what is still to be walked.
fn push_one<'a>(
    left: &mut Stack<ExpLeft<'a>>,
    levels: u32,
    of: ExpView<'a>,
) -> Result<(), OutOfMemory>
    ensures { OnOk result (left.new ≡ exp_left levels of.entry ∷ left.old) }
{
    left.push(ExpLeft { of, levels })
}

/// Puts two expressions in front of what is still to be walked.
fn push_two<'a>(
    left: &mut Stack<ExpLeft<'a>>,
    levels: u32,
    first: ExpView<'a>,
    second: ExpView<'a>,
) -> Result<(), OutOfMemory>
    ensures { OnOk result (left.new ≡ exp_left levels first.entry ∷ exp_left levels second.entry ∷ left.old) }
{
    push_one(left, levels, second)?;
    push_one(left, levels, first)
}

/// Puts three expressions in front of what is still to be walked.
fn push_three<'a>(
    left: &mut Stack<ExpLeft<'a>>,
    levels: u32,
    first: ExpView<'a>,
    second: ExpView<'a>,
    third: ExpView<'a>,
) -> Result<(), OutOfMemory>
    ensures { OnOk result (left.new ≡ exp_left levels first.entry ∷ exp_left levels second.entry ∷ exp_left levels third.entry ∷ left.old) }
{
    push_one(left, levels, third)?;
    push_two(left, levels, first, second)
}

/// Puts what stands directly within an expression in front of what is still to be walked: so many levels may stand within
/// it, and within an argument list as many as the list may have.
fn push_parts<'a>(
    left: &mut Stack<ExpLeft<'a>>,
    levels: u32,
    head: ExpHead<'a>,
) -> Result<(), OutOfMemory>
    ensures { OnOk result (left.new ≡ parts_of levels (of_exp_head head.entry) ++ left.old) }
{
    let within = levels.saturating_sub(1);
    match head {
        ExpHead::Member(a, _) => push_one(left, within, a),
        ExpHead::Index(a, _) => push_one(left, within, a),
        ExpHead::Slice(a, _, _) => push_one(left, within, a),
        ExpHead::Call(a, b) => push_two(left, within, a, b),
        ExpHead::Lookahead(a, _, b) => push_two(left, within, a, b),
        ExpHead::Cast(_, a) => push_one(left, within, a),
        ExpHead::Unary(_, a) => push_one(left, within, a),
        ExpHead::Binary(_, a, b) => push_two(left, within, a, b),
        ExpHead::Choice(a, b, c) => push_three(left, within, a, b, c),
        ExpHead::Argument(a, b) => push_two(left, levels, a, b),
        ExpHead::Listed(a) => push_one(left, within, a),
        _ => Ok(()),
    }
}

/// Whether an expression or an argument list nests over 512 deep. Its time is proportional to the number of expressions
/// within it.
#[tactic(auto, using(crate::proofs::Walking::exp_turn, crate::proofs::Walking::exp_found, crate::proofs::Walking::exp_smaller))]
pub(crate) fn is_deep(alloc: Global, expression: &ExpView<'_>) -> Result<bool, OutOfMemory>
    ensures { IfOk result (λ deep. deep ≡ is_deep expression.now) }
{
    let mut left = Stack::new(alloc);
    push_one(&mut left, MOST_LEVELS, expression.again())?;
    while let Some(next) = left.pop() {
        if is_beyond(&next) {
            return Ok(true);
        }
        push_parts(&mut left, next.levels, next.of.head())?;
    }
    Ok(false)
}

/// Whether one of these expressions nests over 512 deep.
pub(crate) fn some_deep(alloc: Global, expressions: &[ExpView<'_>]) -> Result<bool, OutOfMemory>
    ensures { IfOk result (λ deep. deep ≡ list_any is_deep expressions.now) }
{
    for expression in expressions {
        if is_deep(alloc, expression)? {
            return Ok(true);
        }
    }
    Ok(false)
}

/// The last argument of a list, and the arguments in front of it; none where there are no arguments.
fn last_of<'a>(list: &ExpView<'a>) -> Option<(ExpView<'a>, ExpView<'a>)>
    ensures { MatchOption result (has_deep_argument list.now ≡ false) (λ parts. list.now ≡ argument parts.0 parts.1) }
{
    match list.head() {
        ExpHead::Argument(before, last) => Some((before, last)),
        _ => None,
    }
}

/// Whether an argument of a list nests over 512 deep.
#[tactic(auto, using(crate::proofs::Walking::argument_on, crate::proofs::Walking::argument_found))]
pub(crate) fn has_deep_argument(alloc: Global, given: &ExpView<'_>) -> Result<bool, OutOfMemory>
    ensures { IfOk result (λ deep. deep ≡ has_deep_argument given.now) }
{
    let mut left = given.again();
    while let Some((before, last)) = last_of(&left) {
        if is_deep(alloc, &last)? {
            return Ok(true);
        }
        left = before;
    }
    Ok(false)
}
