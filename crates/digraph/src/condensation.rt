// Strongly connected components.
ghost use Rattle.std.specs.Prelude.{◌≡◌, ◌<◌, ◌≤◌, ℕ, length, slice_index, IfOk, IsTrue, MatchOption, ◌↔◌};
ghost use Rattle.digraph.specs.Components.{AreComponents};
ghost use Rattle.digraph.specs.Graphs.{IsClosed, IsLeastOnCycle, OnCycle};

use crate::graph::Digraph;
use crate::search::Search;
use p4x_bits::OutOfMemory;
use std::alloc::Global;
use std::marker::Model;

/// The strongly connected components of a graph: two nodes are in one of them exactly where each reaches the other.
/// They are numbered from 0, and no edge leads to a greater number.
pub struct Components {
    numbers: Vec<usize>,
    order: Vec<usize>,
    count: usize,
}

impl Drop for Components {
    fn drop(self) {
        let Components {
            numbers: _numbers,
            order: _order,
            count: _count,
        } = self;
    }
}

impl Model for Components {
    ghost use Rattle.digraph.specs.Components.{Condensation};

    ghost Value = { Condensation };

    ghost view = { λ c. record { numbers = c.numbers.items; order = c.order.items; count = c.count } };
}

impl Components {
    /// The strongly connected components of a graph each of whose edges leads to one of its nodes, in time linear in
    /// nodes and edges. The one error is want of memory.
    pub fn of(alloc: Global, graph: &Digraph) -> Result<Self, OutOfMemory>
        requires { IsClosed graph.now }
        ensures { IfOk result (AreComponents graph.now) }
    {
        let mut search = Search::new(alloc, graph.len())?;
        for root in 0..graph.len() {
            search.visit(graph, root)?;
        }
        let (numbers, order, count) = search.finish(alloc)?;
        Ok(Components {
            numbers,
            order,
            count,
        })
    }

    /// How many components there are.
    pub fn count(&self) -> usize
        ensures { result ≡ self.now.count }
    {
        self.count
    }

    /// The number of a node's component, below the count.
    pub fn number(&self, node: usize) -> usize
        requires { node < length self.now.numbers }
        ensures { result ≡ slice_index self.now.numbers node }
    {
        self.numbers[node]
    }

    /// The nodes, by the numbers of their components: a node stands behind all nodes that it reaches, but for those
    /// that reach it.
    pub fn order(&self) -> &[usize]
        ensures { result.now ≡ self.now.order }
    {
        &self.order
    }

    /// Whether a node lies on a cycle of the graph whose components these are.
    pub fn is_on_cycle(&self, graph: &Digraph, node: usize) -> bool
        requires closed { IsClosed graph.now }
        requires components { AreComponents graph.now self.now }
        requires node { node < length graph.now }
        ensures { IsTrue result ↔ OnCycle graph.now node }
    {
        let number = self.number(node);
        for next in graph.successors(node) {
            if self.number(*next) == number {
                return true;
            }
        }
        false
    }

    /// The least node that lies on a cycle of the graph whose components these are, and None exactly where no node
    /// does.
    pub fn least_on_cycle(&self, graph: &Digraph) -> Option<usize>
        requires closed { IsClosed graph.now }
        requires components { AreComponents graph.now self.now }
        ensures { MatchOption result ((a : ℕ) → OnCycle graph.now a → ⊥) (IsLeastOnCycle graph.now) }
    {
        for node in 0..graph.len() {
            if self.is_on_cycle(graph, node) {
                return Some(node);
            }
        }
        None
    }
}
