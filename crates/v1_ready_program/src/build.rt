// Expressions are built from the inside out, each of its parts.
ghost use Rattle.std.specs.Prelude.{◌≡◌, ℕ, List, length, IfOk, OnOk};
ghost use Rattle.p416_syntax.specs.Heads.{of_exp_head};
ghost use Rattle.v1_core.specs.Ready as ready;
ghost use Rattle.v1_core.specs.Ready.{Ready};
ghost use Rattle.v1_core.specs.Nodes.{ready_at, ready_of};
ghost use Rattle.v1_core.specs.Kept.{trees};
ghost use Rattle.v1_ready_forms.specs.Expressions.{with_two, with_three, binary_ready};
ghost use Rattle.v1_ready_program.specs.declared.build.Parts.{Parts as PartsOf};
ghost use Rattle.v1_ready_program.specs.Seen.{Keeps};
ghost use Rattle.v1_ready_program.specs.internal.Coded.{seen_plan, seen_value, seen_values, seen_parts, IsValueIn, AreValuesIn, ArePartsIn, made_ready};
ghost use Rattle.v1_ready_program.specs.internal.Passes as passes;
ghost use Rattle.v1_ready_program.specs.internal.Passes.{first_of, rest_of, only, pair_of, parts_in, behind_parts, made};

use crate::plans::Plan;
use p4x_bits::OutOfMemory;
use p416_syntax::{BinaryOperator, ExpHead, UnaryOperator};
use v1_core::{Expressions, Node};
use work_stack::Stack;

/// The places of the expressions that at most three parts are, where they are some.
#[derive(Clone, Copy, Drop)]
pub struct Parts {
    /// The first.
    pub first: Option<usize>,
    /// The second.
    pub second: Option<usize>,
    /// The third.
    pub third: Option<usize>,
}

/// Takes the next value; none where none is left.
fn take_value(values: &mut Stack<Option<usize>>) -> Option<usize>
    ensures value { (es : List Ready) → seen_value es result ≡ first_of (seen_values es values.old) }
    ensures rest { (es : List Ready) → seen_values es values.new ≡ rest_of (seen_values es values.old) }
    ensures within { (n : ℕ) → AreValuesIn n values.old → IsValueIn n result × AreValuesIn n values.new }
{
    match values.pop() {
        Some(value) => value,
        None => None,
    }
}

/// Takes the value of one part.
fn take_one(values: &mut Stack<Option<usize>>) -> Parts
    ensures parts { (es : List Ready) → seen_parts es result ≡ only (first_of (seen_values es values.old)) }
    ensures rest { (es : List Ready) → seen_values es values.new ≡ rest_of (seen_values es values.old) }
    ensures within { (n : ℕ) → AreValuesIn n values.old → ArePartsIn n result × AreValuesIn n values.new }
{
    let first = take_value(values);
    Parts {
        first,
        second: None,
        third: None,
    }
}

/// Takes the values of two parts.
fn take_two(values: &mut Stack<Option<usize>>) -> Parts
    ensures parts { (es : List Ready) → seen_parts es result ≡ pair_of (seen_values es values.old) }
    ensures rest { (es : List Ready) → seen_values es values.new ≡ rest_of (rest_of (seen_values es values.old)) }
    ensures within { (n : ℕ) → AreValuesIn n values.old → ArePartsIn n result × AreValuesIn n values.new }
{
    let first = take_value(values);
    let second = take_value(values);
    Parts {
        first,
        second,
        third: None,
    }
}

/// Takes the values of three parts.
fn take_three(values: &mut Stack<Option<usize>>) -> Parts
    ensures parts { (es : List Ready) → seen_parts es result ≡ record { first = first_of (seen_values es values.old); second = first_of (rest_of (seen_values es values.old)); third = first_of (rest_of (rest_of (seen_values es values.old))) } }
    ensures rest { (es : List Ready) → seen_values es values.new ≡ rest_of (rest_of (rest_of (seen_values es values.old))) }
    ensures within { (n : ℕ) → AreValuesIn n values.old → ArePartsIn n result × AreValuesIn n values.new }
{
    let first = take_value(values);
    let second = take_value(values);
    let third = take_value(values);
    Parts {
        first,
        second,
        third,
    }
}

/// No parts.
fn no_parts() -> Parts
    ensures parts { (es : List Ready) → seen_parts es result ≡ passes.no_parts }
    ensures within { (n : ℕ) → ArePartsIn n result }
{
    Parts {
        first: None,
        second: None,
        third: None,
    }
}

/// Takes the values of the parts of an expression.
pub fn take_parts(values: &mut Stack<Option<usize>>, head: ExpHead<'_>) -> Parts
    ensures parts { (es : List Ready) → seen_parts es result ≡ parts_in (of_exp_head head.entry) (seen_values es values.old) }
    ensures rest { (es : List Ready) → seen_values es values.new ≡ behind_parts (of_exp_head head.entry) (seen_values es values.old) }
    ensures within { (n : ℕ) → AreValuesIn n values.old → ArePartsIn n result × AreValuesIn n values.new }
{
    match head {
        ExpHead::Member(_, _) => take_one(values),
        ExpHead::Index(_, _) => take_one(values),
        ExpHead::Slice(_, _, _) => take_one(values),
        ExpHead::Call(_, _) => take_two(values),
        ExpHead::Lookahead(_, _, _) => take_two(values),
        ExpHead::Cast(_, _) => take_one(values),
        ExpHead::Unary(_, _) => take_one(values),
        ExpHead::Binary(_, _, _) => take_two(values),
        ExpHead::Choice(_, _, _) => take_three(values),
        ExpHead::Argument(_, _) => take_two(values),
        ExpHead::Listed(_) => take_one(values),
        _ => no_parts(),
    }
}

/// The node of an operator between its operands.
fn binary_node(operator: BinaryOperator, left: usize, right: usize) -> Node
    ensures { (es : List Ready) → ready_of es result ≡ binary_ready operator (ready_at es left) (ready_at es right) }
{
    match operator {
        BinaryOperator::And => Node::And(left, right),
        BinaryOperator::Or => Node::Or(left, right),
        _ => Node::Binary(operator, left, right),
    }
}

/// What a plan comes to.
#[derive(Clone, Copy, Drop)]
enum Outcome {
    /// Nothing.
    Nothing,
    /// What the first part is.
    First,
    /// A node that is to be put.
    New(Node),
}

/// A slice of an operand.
fn sliced(operand: Option<usize>, place: u8, width: u8) -> Outcome
    ensures { (es : List Ready) (x : PartsOf) → made_ready es x result ≡ made (passes.sliced place width) (only (seen_value es operand)) }
{
    match operand {
        Some(a) => Outcome::New(Node::Slice(a, place, width)),
        None => Outcome::Nothing,
    }
}

/// An operand as so many bits.
fn as_bits(operand: Option<usize>, width: u8) -> Outcome
    ensures { (es : List Ready) (x : PartsOf) → made_ready es x result ≡ made (passes.to_bits width) (only (seen_value es operand)) }
{
    match operand {
        Some(a) => Outcome::New(Node::ToBits(width, a)),
        None => Outcome::Nothing,
    }
}

/// An operand as a truth value.
fn as_truth(operand: Option<usize>) -> Outcome
    ensures { (es : List Ready) (x : PartsOf) → made_ready es x result ≡ made passes.to_truth (only (seen_value es operand)) }
{
    match operand {
        Some(a) => Outcome::New(Node::ToTruth(a)),
        None => Outcome::Nothing,
    }
}

/// An operator before its operand.
fn unary(operator: UnaryOperator, operand: Option<usize>) -> Outcome
    ensures { (es : List Ready) (x : PartsOf) → made_ready es x result ≡ made (passes.unary_by operator) (only (seen_value es operand)) }
{
    match operand {
        Some(a) => Outcome::New(Node::Unary(operator, a)),
        None => Outcome::Nothing,
    }
}

/// An operator between its operands.
fn binary(operator: BinaryOperator, left: Option<usize>, right: Option<usize>) -> Outcome
    ensures { (es : List Ready) (x : PartsOf) → made_ready es x result ≡ with_two (binary_ready operator) (seen_value es left) (seen_value es right) }
{
    match (left, right) {
        (Some(left), Some(right)) => Outcome::New(binary_node(operator, left, right)),
        _ => Outcome::Nothing,
    }
}

/// A choice.
fn choice(condition: Option<usize>, positive: Option<usize>, negative: Option<usize>) -> Outcome
    ensures { (es : List Ready) (x : PartsOf) → made_ready es x result ≡ with_three ready.choice (seen_value es condition) (seen_value es positive) (seen_value es negative) }
{
    match (condition, positive, negative) {
        (Some(condition), Some(positive), Some(negative)) => {
            Outcome::New(Node::Choice(condition, positive, negative))
        }
        _ => Outcome::Nothing,
    }
}

/// What a plan comes to with these parts.
fn made(plan: Plan, parts: Parts) -> Outcome
    ensures { (es : List Ready) → made_ready es parts result ≡ made (seen_plan plan) (seen_parts es parts) }
{
    match plan {
        Plan::Nothing => Outcome::Nothing,
        Plan::Leaf(leaf) => Outcome::New(leaf.node()),
        Plan::Same => Outcome::First,
        Plan::Sliced(place, width) => sliced(parts.first, place, width),
        Plan::ToBits(width) => as_bits(parts.first, width),
        Plan::ToTruth => as_truth(parts.first),
        Plan::Unary(operator) => unary(operator, parts.first),
        Plan::Binary(operator) => binary(operator, parts.first, parts.second),
        Plan::Choice => choice(parts.first, parts.second, parts.third),
    }
}

/// Makes the expression of a plan with these parts.
pub fn make(
    expressions: &mut Expressions<'_>,
    plan: Plan,
    parts: Parts,
) -> Result<Option<usize>, OutOfMemory>
    ensures value { IfOk result (λ v. seen_value (trees expressions.new) v ≡ made (seen_plan plan) (seen_parts (trees expressions.old) parts)) }
    ensures keeps { OnOk result (Keeps (trees expressions.old) (trees expressions.new)) }
    ensures within { ArePartsIn (length (trees expressions.old)) parts → IfOk result (IsValueIn (length (trees expressions.new))) }
    ensures layout { expressions.new.layout ≡ expressions.old.layout }
{
    match made(plan, parts) {
        Outcome::Nothing => Ok(None),
        Outcome::First => Ok(parts.first),
        Outcome::New(node) => {
            let place = expressions.put(node)?;
            Ok(Some(place))
        }
    }
}
