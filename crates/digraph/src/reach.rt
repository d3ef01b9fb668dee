// The nodes that one node reaches.
ghost use Rattle.std.specs.Prelude.{◌≡◌, ℕ, ◌<◌, [], ◌∷◌, length, IfOk, OnOk, MatchOption};
ghost use Rattle.digraph.specs.Graphs.{Among, AreReached, IsClosed};
ghost use Rattle.digraph.specs.internal.Reaching.{Reach, reach_all, reach_node};

use crate::graph::Digraph;
use crate::stack::Stack;
use p4x_bits::OutOfMemory;
use std::alloc::Global;
use std::marker::Model;

/// Which nodes were reached, and those of them whose edges are still to be taken.
#[derive(Drop)]
struct Reached {
    reached: Vec<bool>,
    left: Stack<usize>,
}

impl Model for Reached {
    ghost use Rattle.digraph.specs.internal.Reaching.{Reach};

    ghost Value = { Reach };

    ghost view = { λ r. record { reached = r.reached.items; left = r.left } };
}

impl Reached {
    /// Reaches a node, if it wasn't reached before.
    fn put(&mut self, node: usize) -> Result<(), OutOfMemory>
        requires { node < length self.old.reached }
        ensures { OnOk result (self.new ≡ reach_node self.old node) }
    {
        if self.reached[node] {
            return Ok(());
        }
        self.reached[node] = true;
        self.left.push(node)
    }

    /// Reaches these nodes.
    fn put_all(&mut self, nodes: &[usize]) -> Result<(), OutOfMemory>
        requires { (b : ℕ) → Among b nodes.now → b < length self.old.reached }
        ensures { OnOk result (self.new ≡ reach_all self.old nodes.now) }
    {
        for node in nodes {
            self.put(*node)?;
        }
        Ok(())
    }

    /// Takes a node off whose edges are still to be taken, if there is one.
    fn next_node(&mut self) -> Option<usize>
        ensures { MatchOption result ((self.old.left ≡ []) × (self.new ≡ self.old)) (λ a. self.old ≡ record self.new { left = a ∷ self.new.left }) }
    {
        self.left.pop()
    }
}

impl Digraph {
    /// For each node of a graph, each of whose edges leads to one of its nodes, whether it is the node `from` or a walk
    /// leads to it from there. In time linear in nodes and edges; the one error is want of memory.
    pub fn reachable(&self, alloc: Global, from: usize) -> Result<Vec<bool>, OutOfMemory>
        requires closed { IsClosed self.now }
        requires from { from < length self.now }
        ensures { IfOk result (λ reached. AreReached self.now from reached.items) }
    {
        let mut search = Reached {
            reached: vec![in alloc; false; self.len()]?,
            left: Stack::new(alloc),
        };
        search.put(from)?;
        while let Some(node) = search.next_node() {
            search.put_all(self.successors(node))?;
        }
        Ok(search.reached)
    }
}
