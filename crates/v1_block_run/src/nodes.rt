// The nodes of statements, by their places.
ghost use Rattle.std.specs.Prelude.{◌≡◌, ◌<◌, true, IfSome, MatchOption, length};
ghost use Rattle.v1_ready_blocks.specs.Nodes.{IsStatement, statement_at, statement_of};
ghost use Rattle.v1_ready_blocks.specs.Statements.{nothing, sequence};
ghost use Rattle.v1_statement_run.specs.Steps.{ground_of, trees_of};
ghost use Rattle.v1_block_run.specs.Steps.{is_counted};

use v1_ready_blocks::{Node, StatementNode};
use v1_statement_run::Code;

/// The node of a statement; None where another one stands there.
#[tactic(auto, using(crate::proofs::Reading::is_statement, crate::proofs::Reading::fits_statement))]
pub fn statement_node<'c>(code: &'c Code<'_>, place: usize) -> Option<&'c StatementNode>
    requires { place < length code.now.statements.nodes }
    ensures tree { MatchOption result (statement_at (trees_of code.now) place ≡ nothing) (λ node. statement_at (trees_of code.now) place ≡ statement_of (trees_of code.now) node.now) }
    ensures fits { IfSome result (λ node. IsStatement (ground_of code.now).layout (ground_of code.now).shapes (length code.now.statements.nodes) node.now) }
{
    match code.statements.node_at(place) {
        Node::Statement(node) => Some(node),
        _ => None,
    }
}

/// Whether no statement stands at a place.
#[tactic(auto, using(crate::proofs::Reading::is_nothing))]
pub fn is_nothing(code: &Code<'_>, place: usize) -> bool
    requires { place < length code.now.statements.nodes }
    ensures { result ≡ true → statement_at (trees_of code.now) place ≡ nothing }
{
    match code.statements.node_at(place) {
        Node::Statement(StatementNode::Nothing) => true,
        _ => false,
    }
}

/// The parts of statements one behind the other; None where another node stands.
#[tactic(auto, using(crate::proofs::Reading::is_sequence, crate::proofs::Reading::fits_sequence))]
pub fn sequence_parts(code: &Code<'_>, place: usize) -> Option<(usize, usize)>
    requires { place < length code.now.statements.nodes }
    ensures tree { IfSome result (λ parts. statement_at (trees_of code.now) place ≡ sequence (statement_at (trees_of code.now) parts.0) (statement_at (trees_of code.now) parts.1)) }
    ensures before { IfSome result (λ parts. (parts.0 < place) × (parts.1 < place)) }
{
    match code.statements.node_at(place) {
        Node::Statement(StatementNode::Sequence(first, last)) => Some((*first, *last)),
        _ => None,
    }
}

/// Whether a statement counts as one that begins to run: blocks, empty statements, cases, and variables without an initial value
/// don't.
pub fn is_counted(node: &StatementNode) -> bool
    ensures { result ≡ is_counted node.now }
{
    match node {
        StatementNode::Nothing => false,
        StatementNode::Sequence(..) => false,
        StatementNode::Start(..) => false,
        StatementNode::Labelled(..) => false,
        StatementNode::Otherwise(..) => false,
        _ => true,
    }
}
