// A statement is put behind the others.
ghost use Rattle.std.specs.Prelude.{◌≡◌, ◌<◌, length, IfOk, OnOk};
ghost use Rattle.v1_ready_blocks.specs.Nodes.{statement_at, statement_of};
ghost use Rattle.v1_ready_nodes.specs.Held.{trees_in, IsHeld, Grows};

use p4x_bits::OutOfMemory;
use v1_ready_blocks::{Node, StatementNode};
use v1_ready_nodes::ReadyNodes;

/// Puts the node of a statement, and gives its place. Errors as those of `Statements::put`.
#[tactic(auto, using(crate::proofs::KeepingStatements::statement_added, crate::proofs::KeepingStatements::statement_within))]
pub fn put_statement(nodes: &mut ReadyNodes<'_>, node: StatementNode) -> Result<usize, OutOfMemory>
    requires held { IsHeld nodes.old }
    ensures statement { IfOk result (λ place. statement_at (trees_in nodes.new) place ≡ statement_of (trees_in nodes.old) node) }
    ensures within { IfOk result (λ place. place < length (trees_in nodes.new)) }
    ensures grows { OnOk result (Grows nodes.old nodes.new) }
{
    nodes.put(Node::Statement(node))
}
