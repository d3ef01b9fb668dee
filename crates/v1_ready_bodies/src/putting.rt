// Statements are put behind those that they are made of.
ghost use Rattle.std.specs.Prelude.{◌≡◌, ◌<◌, length, Some, option_map, IfOk, OnOk};
ghost use Rattle.v1_ready_blocks.specs.Nodes.{statement_at, statement_of};
ghost use Rattle.v1_ready_blocks.specs.Statements.{nothing, sequence, otherwise};
ghost use Rattle.v1_ready_nodes.specs.Held.{trees_in, IsHeld, Grows};
ghost use Rattle.v1_ready_statements.specs.Statements.{both_ready, branch_ready, switch_ready};
ghost use Rattle.v1_ready_bodies.specs.Seen.{seen_test, seen_statement, IsNodeIn};
ghost use Rattle.v1_ready_bodies.specs.internal.Steps.{labelled_by};

use p4x_bits::OutOfMemory;
use v1_ready_blocks::{Node, StatementNode};
use v1_ready_nodes::ReadyNodes;

/// Puts the node of a statement, and gives its place. Errors as those of `Statements::put`.
#[tactic(auto, using(crate::proofs::Keeping::statement_added, crate::proofs::Keeping::statement_within))]
fn put_statement(nodes: &mut ReadyNodes<'_>, node: StatementNode) -> Result<usize, OutOfMemory>
    requires held { IsHeld nodes.old }
    ensures statement { IfOk result (λ place. statement_at (trees_in nodes.new) place ≡ statement_of (trees_in nodes.old) node) }
    ensures within { IfOk result (λ place. place < length (trees_in nodes.new)) }
    ensures grows { OnOk result (Grows nodes.old nodes.new) }
{
    nodes.put(Node::Statement(node))
}

/// The statement that does nothing: its place. Errors as those of `Statements::put`.
pub fn ready_nothing(nodes: &mut ReadyNodes<'_>) -> Result<Option<usize>, OutOfMemory>
    requires held { IsHeld nodes.old }
    ensures statement { IfOk result (λ found. seen_statement nodes.new found ≡ Some nothing) }
    ensures within { IfOk result (IsNodeIn nodes.new) }
    ensures grows { OnOk result (Grows nodes.old nodes.new) }
{
    let place = put_statement(nodes, StatementNode::Nothing)?;
    Ok(Some(place))
}

/// One statement behind another, if both are some.
#[tactic(auto, using(crate::proofs::Keeping::grows_not))]
pub(crate) fn put_sequence(
    nodes: &mut ReadyNodes<'_>,
    first: Option<usize>,
    second: Option<usize>,
) -> Result<Option<usize>, OutOfMemory>
    requires held { IsHeld nodes.old }
    ensures statement { IfOk result (λ found. seen_statement nodes.new found ≡ both_ready sequence (seen_statement nodes.old first) (seen_statement nodes.old second)) }
    ensures within { IfOk result (IsNodeIn nodes.new) }
    ensures grows { OnOk result (Grows nodes.old nodes.new) }
{
    match (first, second) {
        (Some(first), Some(second)) => {
            let place = put_statement(nodes, StatementNode::Sequence(first, second))?;
            Ok(Some(place))
        }
        _ => Ok(None),
    }
}

/// A branch, if its parts are some.
#[tactic(auto, using(crate::proofs::Keeping::grows_not))]
pub(crate) fn put_branch(
    nodes: &mut ReadyNodes<'_>,
    condition: Option<usize>,
    positive: Option<usize>,
    negative: Option<usize>,
) -> Result<Option<usize>, OutOfMemory>
    requires held { IsHeld nodes.old }
    ensures statement { IfOk result (λ found. seen_statement nodes.new found ≡ branch_ready (seen_test nodes.old condition) (seen_statement nodes.old positive) (seen_statement nodes.old negative)) }
    ensures within { IfOk result (IsNodeIn nodes.new) }
    ensures grows { OnOk result (Grows nodes.old nodes.new) }
{
    match (condition, positive, negative) {
        (Some(condition), Some(positive), Some(negative)) => {
            let node = StatementNode::Branch(condition, positive, negative);
            let place = put_statement(nodes, node)?;
            Ok(Some(place))
        }
        _ => Ok(None),
    }
}

/// A switch over a table, if this and its cases are some.
#[tactic(auto, using(crate::proofs::Keeping::grows_not))]
pub(crate) fn put_switch(
    nodes: &mut ReadyNodes<'_>,
    table: Option<u32>,
    cases: Option<usize>,
) -> Result<Option<usize>, OutOfMemory>
    requires held { IsHeld nodes.old }
    ensures statement { IfOk result (λ found. seen_statement nodes.new found ≡ switch_ready table (seen_statement nodes.old cases)) }
    ensures within { IfOk result (IsNodeIn nodes.new) }
    ensures grows { OnOk result (Grows nodes.old nodes.new) }
{
    match (table, cases) {
        (Some(table), Some(cases)) => {
            let place = put_statement(nodes, StatementNode::Switch(table, cases))?;
            Ok(Some(place))
        }
        _ => Ok(None),
    }
}

/// The case of an action in front of other cases, if all of these are some.
#[tactic(auto, using(crate::proofs::Keeping::grows_not))]
pub(crate) fn put_labelled(
    nodes: &mut ReadyNodes<'_>,
    action: Option<u32>,
    body: Option<usize>,
    rest: Option<usize>,
) -> Result<Option<usize>, OutOfMemory>
    requires held { IsHeld nodes.old }
    ensures statement { IfOk result (λ found. seen_statement nodes.new found ≡ labelled_by action (seen_statement nodes.old body) (seen_statement nodes.old rest)) }
    ensures within { IfOk result (IsNodeIn nodes.new) }
    ensures grows { OnOk result (Grows nodes.old nodes.new) }
{
    match (action, body, rest) {
        (Some(action), Some(body), Some(rest)) => {
            let place = put_statement(nodes, StatementNode::Labelled(action, body, rest))?;
            Ok(Some(place))
        }
        _ => Ok(None),
    }
}

/// The case of `default`, if its statements are some.
#[tactic(auto, using(crate::proofs::Keeping::grows_not))]
pub(crate) fn put_otherwise(
    nodes: &mut ReadyNodes<'_>,
    body: Option<usize>,
) -> Result<Option<usize>, OutOfMemory>
    requires held { IsHeld nodes.old }
    ensures statement { IfOk result (λ found. seen_statement nodes.new found ≡ option_map otherwise (seen_statement nodes.old body)) }
    ensures within { IfOk result (IsNodeIn nodes.new) }
    ensures grows { OnOk result (Grows nodes.old nodes.new) }
{
    match body {
        Some(body) => {
            let place = put_statement(nodes, StatementNode::Otherwise(body))?;
            Ok(Some(place))
        }
        None => Ok(None),
    }
}
