// What the calls of a graph expand to.
ghost use Rattle.std.specs.Prelude.{◌≡◌, ◌+◌, ◌<◌, ◌≤◌, ℕ, length, min, slice_index, sum_by, IfOk, MatchOption};
ghost use Rattle.digraph.specs.Components.{AreComponents};
ghost use Rattle.digraph.specs.Expansions.{AreSizes, HasCycle};
ghost use Rattle.digraph.specs.Graphs.{Among, IsClosed};

use crate::condensation::Components;
use crate::graph::Digraph;
use p4x_bits::OutOfMemory;
use std::alloc::Global;

/// The sum, but at most the limit.
fn capped(limit: u64, so_far: u64, more: u64) -> u64
    requires { so_far ≤ limit }
    ensures { result ≡ min limit (so_far + more) }
{
    if more > limit - so_far {
        limit
    } else {
        so_far + more
    }
}

/// The size that is known of a node.
fn known_size(sizes: &[u64], node: usize) -> u64
    requires { node < length sizes.now }
    ensures { result ≡ slice_index sizes.now node }
{
    sizes[node]
}

/// What a node of this own size comes to with its calls, but at most the limit.
fn total(calls: &[usize], sizes: &[u64], own: u64, limit: u64) -> u64
    requires { (b : ℕ) → Among b calls.now → b < length sizes.now }
    ensures { result ≡ min limit (own + sum_by (slice_index sizes.now) calls.now) }
{
    let mut so_far = capped(limit, 0, own);
    for callee in calls {
        so_far = capped(limit, so_far, known_size(sizes, *callee));
    }
    so_far
}

impl Components {
    /// The size of each expanded node of the graph whose components these are, but at most the limit: what the node
    /// does itself, and what the nodes that its calls expand to do. None exactly where a node lies on a cycle. In time
    /// linear in nodes and edges; the one error is want of memory.
    pub fn sizes(
        &self,
        alloc: Global,
        graph: &Digraph,
        own: &[u64],
        limit: u64,
    ) -> Result<Option<Vec<u64>>, OutOfMemory>
        requires closed { IsClosed graph.now }
        requires components { AreComponents graph.now self.now }
        requires own { length own.now ≡ length graph.now }
        ensures { IfOk result (λ found. MatchOption found (HasCycle graph.now) (λ sizes. AreSizes graph.now own.now limit sizes.items)) }
    {
        if self.least_on_cycle(graph).is_some() {
            return Ok(None);
        }
        let mut sizes = vec![in alloc; 0u64; graph.len()]?;
        for node in self.order() {
            sizes[*node] = total(
                graph.successors(*node),
                &sizes,
                known_size(own, *node),
                limit,
            );
        }
        Ok(Some(sizes))
    }
}
