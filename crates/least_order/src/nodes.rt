// The least order of some nodes of a graph.
ghost use Rattle.std.specs.Prelude.{◌≡◌, length, IfOk, MatchOption};
ghost use Rattle.digraph.specs.Graphs.{IsClosed};
ghost use Rattle.least_order.specs.Orders.{HasNoOrder, IsLeastOrder};
ghost use Rattle.least_order.specs.internal.Quotients.{IsAhead, IsListed};

use crate::listing::list_marks;
use crate::quotient::{marks, quotient};
use digraph::{Components, Digraph};
use p4x_bits::OutOfMemory;
use std::alloc::Global;

/// The number of each node's component, of so many nodes.
fn numbers_of(
    alloc: Global,
    components: &Components,
    count: usize,
) -> Result<Vec<usize>, OutOfMemory>
    requires { length components.now.numbers ≡ count }
    ensures { IfOk result (λ numbers. numbers.items ≡ components.now.numbers) }
{
    let mut numbers = Vec::new(alloc);
    for node in 0..count {
        numbers.push(components.number(node))?;
    }
    Ok(numbers)
}

/// The listed nodes in the least order in which none stands behind one to which a walk leads from it. None exactly where
/// two of them reach each other.
pub fn order_nodes(
    alloc: Global,
    graph: &Digraph,
    is_listed: &[bool],
) -> Result<Option<Vec<usize>>, OutOfMemory>
    requires closed { IsClosed graph.now }
    requires each { length is_listed.now ≡ length graph.now }
    ensures { IfOk result (λ found. MatchOption found (HasNoOrder (IsListed is_listed.now) (IsAhead graph.now)) (λ order. IsLeastOrder (IsListed is_listed.now) (IsAhead graph.now) order.items)) }
{
    let components = Components::of(alloc, graph)?;
    let Some(marks) = marks(alloc, &components, is_listed)? else {
        return Ok(None);
    };
    let edges = quotient(alloc, graph, &components)?;
    let numbers = numbers_of(alloc, &components, graph.len())?;
    let order = list_marks(alloc, &edges, &marks, &numbers)?;
    Ok(Some(order))
}
