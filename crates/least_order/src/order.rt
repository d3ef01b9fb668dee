// The least order of labels.
ghost use Rattle.std.specs.Prelude.{◌≡◌, ◌<◌, length, IfOk, MatchOption};
ghost use Rattle.digraph.specs.Graphs.{IsClosed};
ghost use Rattle.least_order.specs.Labelled.{IsBefore, IsFound};
ghost use Rattle.least_order.specs.Orders.{HasNoOrder, IsLeastOrder};

use crate::constraints::Constraints;
use crate::nodes::order_nodes;
use digraph::Digraph;
use p4x_bits::{OutOfMemory, Rows};
use std::alloc::Global;

/// The labels of the nodes that the start reaches, each once, in the least order that inverts no pair: none stands
/// behind one that it is before on a walk from the start. None exactly where each order inverts a pair. Each node has a
/// list of labels, in order. In time O(n log n) for n nodes, edges and labels, and linear in the greatest label; the one
/// error is want of memory.
pub fn least_order(
    alloc: Global,
    graph: &Digraph,
    labels: &[Rows<usize>],
    start: usize,
) -> Result<Option<Vec<usize>>, OutOfMemory>
    requires closed { IsClosed graph.now }
    requires each { length labels.now ≡ length graph.now }
    requires start { start < length graph.now }
    ensures { IfOk result (λ found. MatchOption found (HasNoOrder (IsFound graph.now labels.now start) (IsBefore graph.now labels.now start)) (λ order. IsLeastOrder (IsFound graph.now labels.now start) (IsBefore graph.now labels.now start) order.items)) }
{
    let constraints = Constraints::from_start(alloc, graph, labels, start)?;
    let whole = constraints.successors.to_graph(alloc)?;
    let found = order_nodes(alloc, &whole, constraints.is_found.as_slice())?;
    Ok(found)
}
