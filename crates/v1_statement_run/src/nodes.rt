// The nodes of parts of statements, by their places.
ghost use Rattle.std.specs.Prelude.{◌≡◌, ◌<◌, [], length, IfSome, MatchOption};
ghost use Rattle.v1_ready_blocks.specs.declared.places.RangePlace.TheVariants as range_place;
ghost use Rattle.v1_ready_blocks.specs.Tests.{parts, plain};
ghost use Rattle.v1_ready_blocks.specs.Nodes.{IsArgument, IsIncoming, IsOutgoing, IsSource, IsTest, arguments_at, arguments_of, incoming_at, incoming_of, no_range, outgoing_at, outgoing_of, source_at, source_of, test_at, test_of};
ghost use Rattle.v1_core.specs.declared.node.Content.TheVariants as content;
ghost use Rattle.v1_core.specs.Ready as ready;
ghost use Rattle.v1_core.specs.Nodes.{nothing as no_expression, ready_at};
ghost use Rattle.v1_statement_run.specs.Steps.{IsCode, expressions_in, ground_of, trees_of};

use crate::code::Code;
use v1_ready_blocks::{ArgumentNode, IncomingNode, Node, OutgoingNode, SourceNode, TestNode};

/// The node of an expression; None where another one stands there.
#[tactic(auto, using(crate::proofs::Reading::is_test, crate::proofs::Reading::fits_test))]
pub fn test_node(code: &Code<'_>, place: usize) -> Option<TestNode>
    requires { place < length code.now.statements.nodes }
    ensures tree { MatchOption result (test_at (trees_of code.now) place ≡ plain no_expression) (λ node. test_at (trees_of code.now) place ≡ test_of (expressions_in code.now) (trees_of code.now) node) }
    ensures fits { IfSome result (IsTest (ground_of code.now).expressions place) }
{
    match code.statements.node(place) {
        Node::Test(node) => Some(node),
        _ => None,
    }
}

/// The place of an expression among those that apply no table, where it is seen to be one; None tells nothing.
#[tactic(auto, using(crate::proofs::Testing::expression_there))]
pub fn plain_at(code: &Code<'_>, place: usize) -> Option<usize>
    requires place { place < length code.now.statements.nodes }
    requires code { IsCode code.now }
    ensures tree { IfSome result (λ e. test_at (trees_of code.now) place ≡ plain (ready_at (expressions_in code.now) e)) }
    ensures there { IfSome result (λ e. e < length code.now.expressions.nodes) }
{
    match test_node(code, place) {
        Some(TestNode::Plain(e)) => Some(e),
        _ => None,
    }
}

/// The slot that an expression is, where it is seen to be one with bits; None tells nothing.
#[tactic(auto, using(crate::proofs::Reading::is_slot, crate::proofs::Reading::slot_there))]
pub fn slot_of(code: &Code<'_>, place: usize) -> Option<u32>
    requires place { place < length code.now.statements.nodes }
    requires code { IsCode code.now }
    ensures tree { IfSome result (λ slot. test_at (trees_of code.now) place ≡ plain (ready.slot content.Bits slot)) }
    ensures there { IfSome result (λ slot. slot < length (ground_of code.now).layout.widths) }
{
    let e = plain_at(code, place)?;
    let slot = code.expressions.slot(e)?;
    Some(slot)
}

/// The node of what is read whole; None where another one stands there.
#[tactic(auto, using(crate::proofs::Reading::is_source, crate::proofs::Reading::fits_source))]
pub fn source_node(code: &Code<'_>, place: usize) -> Option<SourceNode>
    requires { place < length code.now.statements.nodes }
    ensures tree { MatchOption result (source_at (trees_of code.now) place ≡ parts (range_place.Fixed no_range)) (λ node. source_at (trees_of code.now) place ≡ source_of (trees_of code.now) node) }
    ensures fits { IfSome result (IsSource (ground_of code.now).layout place) }
{
    match code.statements.node(place) {
        Node::Source(node) => Some(node),
        _ => None,
    }
}

/// The node of arguments; None where another one stands there.
#[tactic(auto, using(crate::proofs::Reading::is_argument, crate::proofs::Reading::fits_argument))]
pub fn argument_node(code: &Code<'_>, place: usize) -> Option<ArgumentNode>
    requires { place < length code.now.statements.nodes }
    ensures tree { MatchOption result (arguments_at (trees_of code.now) place ≡ []) (λ node. arguments_at (trees_of code.now) place ≡ arguments_of (trees_of code.now) node) }
    ensures fits { IfSome result (IsArgument place) }
{
    match code.statements.node(place) {
        Node::Argument(node) => Some(node),
        _ => None,
    }
}

/// The node of what parameters start with; None where another one stands there.
#[tactic(auto, using(crate::proofs::Reading::is_incoming, crate::proofs::Reading::fits_incoming))]
pub fn incoming_node(code: &Code<'_>, place: usize) -> Option<IncomingNode>
    requires { place < length code.now.statements.nodes }
    ensures tree { MatchOption result (incoming_at (trees_of code.now) place ≡ []) (λ node. incoming_at (trees_of code.now) place ≡ incoming_of (trees_of code.now) node) }
    ensures fits { IfSome result (IsIncoming (ground_of code.now).layout place) }
{
    match code.statements.node(place) {
        Node::Incoming(node) => Some(node),
        _ => None,
    }
}

/// The node of parameters that go back; None where another one stands there.
#[tactic(auto, using(crate::proofs::Reading::is_outgoing, crate::proofs::Reading::fits_outgoing))]
pub fn outgoing_node(code: &Code<'_>, place: usize) -> Option<OutgoingNode>
    requires { place < length code.now.statements.nodes }
    ensures tree { MatchOption result (outgoing_at (trees_of code.now) place ≡ []) (λ node. outgoing_at (trees_of code.now) place ≡ outgoing_of (trees_of code.now) node) }
    ensures fits { IfSome result (IsOutgoing (ground_of code.now).layout place) }
{
    match code.statements.node(place) {
        Node::Outgoing(node) => Some(node),
        _ => None,
    }
}
