// Tests are put over those of their parts.
ghost use Rattle.std.specs.Prelude.{◌≡◌, ◌<◌, List, length, option_map, IfOk, OnOk};
ghost use Rattle.v1_core.specs.Ready.{Ready};
ghost use Rattle.v1_ready_blocks.specs.Nodes.{Tree, test_at, test_of};
ghost use Rattle.v1_ready_blocks.specs.Tests.{alone, choice};
ghost use Rattle.v1_ready_program.specs.internal.Coded.{seen_plan};
ghost use Rattle.v1_ready_nodes.specs.Held.{ready_in, trees_in, IsHeld, IsTestOver, Grows};
ghost use Rattle.v1_ready_statements.specs.Tested.{with_two, with_three, binary_test};
ghost use Rattle.v1_ready_tests.specs.internal.Coded.{seen_test, seen_made, seen_made_parts, IsTestIn, IsMadeIn, ArePartsMade};
ghost use Rattle.v1_ready_tests.specs.internal.Passes.{as_test, test_by_plan};

use crate::made::{Made, MadeParts};
use p4x_bits::OutOfMemory;
use p416_syntax::BinaryOperator;
use v1_ready_blocks::{Node, Single, TestNode};
use v1_ready_nodes::ReadyNodes;
use v1_ready_program::plans::Plan;

/// Puts a node of a test.
#[tactic(auto, using(crate::proofs::Keeping::test_added, crate::proofs::Keeping::test_within))]
pub fn put_test(nodes: &mut ReadyNodes<'_>, node: TestNode) -> Result<usize, OutOfMemory>
    requires held { IsHeld nodes.old }
    requires over { IsTestOver (length (ready_in nodes.old)) node }
    ensures test { IfOk result (λ place. test_at (trees_in nodes.new) place ≡ test_of (ready_in nodes.old) (trees_in nodes.old) node) }
    ensures within { IfOk result (λ place. place < length (trees_in nodes.new)) }
    ensures grows { OnOk result (Grows nodes.old nodes.new) }
{
    nodes.put(Node::Test(node))
}

/// What is made as a test, where it is one.
pub fn as_test(nodes: &mut ReadyNodes<'_>, made: Made) -> Result<Option<usize>, OutOfMemory>
    requires held { IsHeld nodes.old }
    requires made { IsMadeIn nodes.old made }
    ensures test { IfOk result (λ t. seen_test nodes.new t ≡ as_test (seen_made nodes.old made)) }
    ensures within { IfOk result (IsTestIn nodes.new) }
    ensures grows { OnOk result (Grows nodes.old nodes.new) }
{
    match made {
        Made::Plain(None) => Ok(None),
        Made::Plain(Some(place)) => {
            let test = put_test(nodes, TestNode::Plain(place))?;
            Ok(Some(test))
        }
        Made::Tested(_, test) => Ok(test),
    }
}

/// An operator on one value.
fn put_alone(
    nodes: &mut ReadyNodes<'_>,
    of: Single,
    operand: Made,
) -> Result<Option<usize>, OutOfMemory>
    requires held { IsHeld nodes.old }
    requires made { IsMadeIn nodes.old operand }
    ensures test { IfOk result (λ t. seen_test nodes.new t ≡ option_map (alone of) (as_test (seen_made nodes.old operand))) }
    ensures within { IfOk result (IsTestIn nodes.new) }
    ensures grows { OnOk result (Grows nodes.old nodes.new) }
{
    match as_test(nodes, operand)? {
        Some(operand) => {
            let test = put_test(nodes, TestNode::Alone(of, operand))?;
            Ok(Some(test))
        }
        None => Ok(None),
    }
}

/// The node of an operator between its operands.
fn binary_node(operator: BinaryOperator, left: usize, right: usize) -> TestNode
    ensures node { (es : List Ready) (ts : List Tree) → test_of es ts result ≡ binary_test operator (test_at ts left) (test_at ts right) }
    ensures over { IsTestOver 0 result }
{
    match operator {
        BinaryOperator::And => TestNode::Both(left, right),
        BinaryOperator::Or => TestNode::Either(left, right),
        _ => TestNode::Pair(operator, left, right),
    }
}

/// An operator between its operands.
fn put_binary(
    nodes: &mut ReadyNodes<'_>,
    operator: BinaryOperator,
    left: Made,
    right: Made,
) -> Result<Option<usize>, OutOfMemory>
    requires held { IsHeld nodes.old }
    requires left { IsMadeIn nodes.old left }
    requires right { IsMadeIn nodes.old right }
    ensures test { IfOk result (λ t. seen_test nodes.new t ≡ with_two (binary_test operator) (as_test (seen_made nodes.old left)) (as_test (seen_made nodes.old right))) }
    ensures within { IfOk result (IsTestIn nodes.new) }
    ensures grows { OnOk result (Grows nodes.old nodes.new) }
{
    let left = as_test(nodes, left)?;
    let right = as_test(nodes, right)?;
    match (left, right) {
        (Some(left), Some(right)) => {
            let test = put_test(nodes, binary_node(operator, left, right))?;
            Ok(Some(test))
        }
        _ => Ok(None),
    }
}

/// A choice.
fn put_choice(
    nodes: &mut ReadyNodes<'_>,
    condition: Made,
    positive: Made,
    negative: Made,
) -> Result<Option<usize>, OutOfMemory>
    requires held { IsHeld nodes.old }
    requires condition { IsMadeIn nodes.old condition }
    requires positive { IsMadeIn nodes.old positive }
    requires negative { IsMadeIn nodes.old negative }
    ensures test { IfOk result (λ t. seen_test nodes.new t ≡ with_three choice (as_test (seen_made nodes.old condition)) (as_test (seen_made nodes.old positive)) (as_test (seen_made nodes.old negative))) }
    ensures within { IfOk result (IsTestIn nodes.new) }
    ensures grows { OnOk result (Grows nodes.old nodes.new) }
{
    let condition = as_test(nodes, condition)?;
    let positive = as_test(nodes, positive)?;
    let negative = as_test(nodes, negative)?;
    match (condition, positive, negative) {
        (Some(condition), Some(positive), Some(negative)) => {
            let test = put_test(nodes, TestNode::Choice(condition, positive, negative))?;
            Ok(Some(test))
        }
        _ => Ok(None),
    }
}

/// The test of a plan with these parts.
pub fn put_by_plan(
    nodes: &mut ReadyNodes<'_>,
    plan: Plan,
    parts: MadeParts,
) -> Result<Option<usize>, OutOfMemory>
    requires held { IsHeld nodes.old }
    requires parts { ArePartsMade nodes.old parts }
    ensures test { IfOk result (λ t. seen_test nodes.new t ≡ test_by_plan (seen_plan plan) (seen_made_parts nodes.old parts)) }
    ensures within { IfOk result (IsTestIn nodes.new) }
    ensures grows { OnOk result (Grows nodes.old nodes.new) }
{
    match plan {
        Plan::Nothing => Ok(None),
        Plan::Leaf(_) => Ok(None),
        Plan::Same => as_test(nodes, parts.first),
        Plan::Sliced(place, width) => put_alone(nodes, Single::Slice(place, width), parts.first),
        Plan::ToBits(width) => put_alone(nodes, Single::ToBits(width), parts.first),
        Plan::ToTruth => put_alone(nodes, Single::ToTruth, parts.first),
        Plan::Unary(operator) => put_alone(nodes, Single::Operator(operator), parts.first),
        Plan::Binary(operator) => put_binary(nodes, operator, parts.first, parts.second),
        Plan::Choice => put_choice(nodes, parts.first, parts.second, parts.third),
    }
}
