// The order of labels along walks, as a graph of labels and nodes.
ghost use Rattle.std.specs.Prelude.{◌≡◌, ℕ, ◌+◌, ◌<◌, ◌^◌, length, IfOk, OnOk};
ghost use Rattle.digraph.specs.Graphs.{Among, AreReached, IsClosed};
ghost use Rattle.least_order.specs.Labelled.{labels_of};
ghost use Rattle.least_order.specs.internal.Additions.{AddsEdges};
ghost use Rattle.least_order.specs.internal.Constraints.{AddsLabels, AreConstraints, AreConstraintsBelow, IsConstrained, LeadsOn, last_of};

use crate::counting::count_of;
use crate::rows::Successors;
use digraph::Digraph;
use p4x_bits::{OutOfMemory, Rows};
use std::alloc::Global;

/// A graph whose first nodes are the labels, and whose further ones are the nodes of the labelled graph; and which of
/// its nodes are labels that a reached node has. From a node an edge leads to its first label, from each label to the
/// next one, and from the last one, or from the node if it has none, to the nodes that it leads to.
pub struct Constraints {
    pub successors: Successors,
    pub is_found: Vec<bool>,
}

impl Drop for Constraints {
    fn drop(self) {
        let Constraints {
            successors: _successors,
            is_found: _is_found,
        } = self;
    }
}

impl Constraints {
    /// The constraints of the nodes that the start reaches.
    pub fn from_start(
        alloc: Global,
        edges: &Digraph,
        labels: &[Rows<usize>],
        start: usize,
    ) -> Result<Self, OutOfMemory>
        requires closed { IsClosed edges.now }
        requires each { length labels.now ≡ length edges.now }
        requires start { start < length edges.now }
        ensures { IfOk result (λ made. IsConstrained edges.now labels.now start made.is_found.items made.successors) }
    {
        let count = count_of(labels)?;
        let reached = edges.reachable(alloc, start)?;
        let constraints = Constraints::of(alloc, edges, labels, count, &reached)?;
        Ok(constraints)
    }

    /// The constraints of the nodes that are reached.
    fn of(
        alloc: Global,
        edges: &Digraph,
        labels: &[Rows<usize>],
        count: usize,
        reached: &[bool],
    ) -> Result<Self, OutOfMemory>
        requires closed { IsClosed edges.now }
        requires each { length labels.now ≡ length edges.now }
        requires below { (a x : ℕ) → Among x (labels_of labels.now a) → x < count }
        requires reached { length reached.now ≡ length edges.now }
        ensures each { IfOk result (λ made. length made.is_found.items ≡ length made.successors) }
        ensures constraints { IfOk result (λ made. (start : ℕ) → AreReached edges.now start reached.now → AreConstraints edges.now labels.now count start made.is_found.items made.successors) }
    {
        let len = count.checked_add(edges.len()).ok_or(OutOfMemory)?;
        let successors = Successors::new(alloc, len)?;
        let is_found = vec![in alloc; false; len]?;
        let mut constraints = Constraints {
            successors,
            is_found,
        };
        for node in 0..edges.len() {
            constraints.add_node(edges, labels, count, reached, node)?;
        }
        Ok(constraints)
    }

    /// What one more node makes, if it is reached.
    fn add_node(
        &mut self,
        edges: &Digraph,
        labels: &[Rows<usize>],
        count: usize,
        reached: &[bool],
        node: usize,
    ) -> Result<(), OutOfMemory>
        requires closed { IsClosed edges.now }
        requires each { length labels.now ≡ length edges.now }
        requires below { (a x : ℕ) → Among x (labels_of labels.now a) → x < count }
        requires reached { length reached.now ≡ length edges.now }
        requires fits { count + length edges.now < 2 ^ 64 }
        requires node { node < length edges.now }
        requires made { AreConstraintsBelow edges.now labels.now count reached.now node self.old.is_found.items self.old.successors }
        ensures { OnOk result (AreConstraintsBelow edges.now labels.now count reached.now (node + 1) self.new.is_found.items self.new.successors) }
    {
        if !reached[node] {
            return Ok(());
        }
        let last = self.add_labels(count + node, labels_at(labels, node))?;
        add_edges(&mut self.successors, last, count, edges.successors(node))?;
        Ok(())
    }

    /// The labels of one node, behind it. Gives where its edges begin.
    fn add_labels(&mut self, node: usize, labels: &[usize]) -> Result<usize, OutOfMemory>
        requires node { node < length self.old.successors }
        requires labels { (x : ℕ) → Among x labels.now → x < length self.old.successors }
        requires found { length self.old.is_found.items ≡ length self.old.successors }
        ensures last { IfOk result (λ last. last ≡ last_of node labels.now) }
        ensures added { OnOk result (AddsLabels node labels.now self.old.is_found.items self.old.successors self.new.is_found.items self.new.successors) }
    {
        let mut last = node;
        for label in labels {
            self.successors.add(last, *label)?;
            self.is_found[*label] = true;
            last = *label;
        }
        Ok(last)
    }
}

/// The labels of a node.
fn labels_at(labels: &[Rows<usize>], node: usize) -> &[usize]
    requires { node < length labels.now }
    ensures { result.now ≡ labels_of labels.now node }
{
    labels[node].as_slice()
}

/// Edges to nodes, which stand behind so many labels.
fn add_edges(
    successors: &mut Successors,
    last: usize,
    count: usize,
    targets: &[usize],
) -> Result<(), OutOfMemory>
    requires last { last < length successors.old }
    requires fits { (b : ℕ) → Among b targets.now → count + b < 2 ^ 64 }
    ensures each { OnOk result (length successors.new ≡ length successors.old) }
    ensures edges { OnOk result (AddsEdges successors.old successors.new (LeadsOn last count targets.now)) }
{
    for target in targets {
        successors.add(last, count + *target)?;
    }
    Ok(())
}
