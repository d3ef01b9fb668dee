// Edges that are added in any order.
ghost use Rattle.std.specs.Prelude.{◌≡◌, ◌<◌, ◌∷◌, ◌++◌, [], fold, length, replicate, slice_set, IfOk, OnOk};
ghost use Rattle.digraph.specs.Graphs.{successors, with_edge};

use digraph::Digraph;
use p4x_bits::{OutOfMemory, Rows};
use std::alloc::Global;
use std::marker::Model;

/// The successors of each node. Contracts see the list of them.
#[derive(Drop)]
pub struct Successors {
    rows: Vec<Rows<usize>>,
}

impl Model for Successors {
    ghost use Rattle.std.specs.Prelude.{ℕ, List};

    ghost Value = { List (List ℕ) };

    ghost view = { λ s. s.rows.items };
}

impl Successors {
    /// So many nodes without edges.
    pub fn new(alloc: Global, nodes: usize) -> Result<Self, OutOfMemory>
        ensures { IfOk result (λ s. s ≡ replicate nodes []) }
    {
        let mut rows = Vec::with_capacity(alloc, nodes)?;
        for _ in 0..nodes {
            rows.push(Rows::new(alloc))?;
        }
        Ok(Successors { rows })
    }

    /// A further edge.
    pub fn add(&mut self, from: usize, to: usize) -> Result<(), OutOfMemory>
        requires { from < length self.old }
        ensures { OnOk result (self.new ≡ slice_set self.old from (successors self.old from ++ to ∷ [])) }
    {
        self.rows[from].push(to)
    }

    /// The nodes to which a node's edges lead.
    pub fn of(&self, node: usize) -> &[usize]
        requires { node < length self.now }
        ensures { result.now ≡ successors self.now node }
    {
        self.rows[node].as_slice()
    }

    /// How many nodes there are.
    pub fn len(&self) -> usize
        ensures { result ≡ length self.now }
    {
        self.rows.len()
    }

    /// The graph of these edges.
    pub fn to_graph(&self, alloc: Global) -> Result<Digraph, OutOfMemory>
        ensures { IfOk result (λ graph. graph ≡ self.now) }
    {
        let mut graph = Digraph::new(alloc);
        for row in &self.rows {
            add_row(&mut graph, row.as_slice())?;
        }
        Ok(graph)
    }
}

/// A further node with these edges.
fn add_row(graph: &mut Digraph, targets: &[usize]) -> Result<(), OutOfMemory>
    ensures { OnOk result (graph.new ≡ graph.old ++ targets.now ∷ []) }
{
    graph.add_node()?;
    add_edges(graph, targets)
}

/// Further edges from the last node.
fn add_edges(graph: &mut Digraph, targets: &[usize]) -> Result<(), OutOfMemory>
    ensures { OnOk result (graph.new ≡ fold with_edge graph.old targets.now) }
{
    for target in targets {
        graph.add_edge(*target)?;
    }
    Ok(())
}
