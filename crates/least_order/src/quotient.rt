// The components of a graph as nodes of a graph without cycles.
ghost use Rattle.std.specs.Prelude.{◌≡◌, ℕ, ◌+◌, ◌<◌, length, slice_index, IfOk, OnOk, MatchBool, MatchOption};
ghost use Rattle.digraph.specs.Components.{AreComponents};
ghost use Rattle.digraph.specs.Graphs.{Among, IsClosed};
ghost use Rattle.least_order.specs.internal.Additions.{AddsEdges};
ghost use Rattle.least_order.specs.internal.Quotients.{AreMarks, AreMarksBelow, HasPair, IsBetween, IsQuotient, LeavesTo};

use crate::rows::Successors;
use digraph::{Components, Digraph};
use p4x_bits::OutOfMemory;
use std::alloc::Global;

/// The edges between different components.
pub fn quotient(
    alloc: Global,
    graph: &Digraph,
    components: &Components,
) -> Result<Successors, OutOfMemory>
    requires closed { IsClosed graph.now }
    requires components { AreComponents graph.now components.now }
    ensures { IfOk result (λ edges. IsQuotient graph.now components.now edges) }
{
    let mut edges = Successors::new(alloc, components.count())?;
    for node in 0..graph.len() {
        add_edges(
            &mut edges,
            components,
            components.number(node),
            graph.successors(node),
        )?;
    }
    Ok(edges)
}

/// The edges of one node of a component.
fn add_edges(
    edges: &mut Successors,
    components: &Components,
    from: usize,
    targets: &[usize],
) -> Result<(), OutOfMemory>
    requires from { from < length edges.old }
    requires targets { (v : ℕ) → Among v targets.now → v < length components.now.numbers }
    ensures len { OnOk result (length edges.new ≡ length edges.old) }
    ensures edges { OnOk result (AddsEdges edges.old edges.new (LeavesTo components.now.numbers from targets.now)) }
{
    for target in targets {
        add_between(edges, from, components.number(*target))?;
    }
    Ok(())
}

/// An edge between different components.
fn add_between(edges: &mut Successors, from: usize, to: usize) -> Result<(), OutOfMemory>
    requires { from < length edges.old }
    ensures len { OnOk result (length edges.new ≡ length edges.old) }
    ensures edges { OnOk result (AddsEdges edges.old edges.new (IsBetween from to)) }
{
    if from == to {
        Ok(())
    } else {
        edges.add(from, to)
    }
}

/// The listed node of each component, if it has one. None exactly where a component has two.
pub fn marks(
    alloc: Global,
    components: &Components,
    is_listed: &[bool],
) -> Result<Option<Vec<Option<usize>>>, OutOfMemory>
    requires each { length components.now.numbers ≡ length is_listed.now }
    requires below { (a : ℕ) → a < length is_listed.now → slice_index components.now.numbers a < components.now.count }
    ensures { IfOk result (λ found. MatchOption found (HasPair components.now is_listed.now) (λ marks. AreMarks components.now is_listed.now marks.items)) }
{
    let mut marks = vec![in alloc; None; components.count()]?;
    for node in 0..is_listed.len() {
        if !put_mark(&mut marks, components, is_listed, node) {
            return Ok(None);
        }
    }
    Ok(Some(marks))
}

/// One more node is the mark of its component, if it is listed. False where that component has a mark already.
fn put_mark(
    marks: &mut Vec<Option<usize>>,
    components: &Components,
    is_listed: &[bool],
    node: usize,
) -> bool
    requires node { node < length is_listed.now }
    requires each { length components.now.numbers ≡ length is_listed.now }
    requires below { (a : ℕ) → a < length is_listed.now → slice_index components.now.numbers a < components.now.count }
    requires marks { AreMarksBelow components.now is_listed.now node marks.old.items }
    ensures { MatchBool result (AreMarksBelow components.now is_listed.now (node + 1) marks.new.items) (HasPair components.now is_listed.now) }
{
    if !is_listed[node] {
        return true;
    }
    let number = components.number(node);
    if marks[number].is_some() {
        return false;
    }
    marks[number] = Some(node);
    true
}
