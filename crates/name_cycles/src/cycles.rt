// Whether a node leads back to itself.
ghost use Rattle.std.specs.Prelude.{◌≡◌, ◌++◌, [], ◌∷◌, map, filter_map, option_to_list, IfOk, OnOk};
ghost use Rattle.std.specs.Bool.{MatchBool};
ghost use Rattle.digraph.specs.Expansions.{HasCycle};
ghost use Rattle.name_numbers.specs.Names.{find_name};
ghost use Rattle.name_cycles.specs.Named.{called_of, next_of, named_graph};
ghost use Rattle.name_cycles.specs.internal.Edges.{with_edges};

use crate::node::NameNode;
use digraph::{Components, Digraph};
use name_numbers::{Numbering, number_names};
use p4x_bits::OutOfMemory;
use std::alloc::Global;

/// The names of these nodes, in order.
fn names_of<'s>(alloc: Global, nodes: &[NameNode<'s>]) -> Result<Vec<&'s [u8]>, OutOfMemory>
    ensures { IfOk result (λ names. map (λ name. name.now) names.items ≡ map called_of nodes.now) }
{
    let mut names = Vec::new(alloc);
    for node in nodes {
        names.push(node.name())?;
    }
    Ok(names)
}

/// Adds an edge from the last node to the node with this name, if there is one.
fn add_edge(graph: &mut Digraph, names: &Numbering<'_>, target: &[u8]) -> Result<(), OutOfMemory>
    ensures { OnOk result (graph.new ≡ with_edges graph.old (option_to_list (find_name names.now target.now))) }
{
    match names.find(target) {
        Some(node) => graph.add_edge(node as usize),
        None => Ok(()),
    }
}

/// Adds edges from the last node to the nodes with these names.
fn add_edges(
    graph: &mut Digraph,
    names: &Numbering<'_>,
    targets: &[&[u8]],
) -> Result<(), OutOfMemory>
    ensures { OnOk result (graph.new ≡ with_edges graph.old (filter_map (find_name names.now) (map (λ target. target.now) targets.now))) }
{
    for target in targets {
        add_edge(graph, names, target)?;
    }
    Ok(())
}

/// Adds a node with its edges.
#[tactic(auto, using(crate::proofs::Edges::node_added))]
fn add_node(
    graph: &mut Digraph,
    names: &Numbering<'_>,
    node: &NameNode<'_>,
) -> Result<(), OutOfMemory>
    ensures { OnOk result (graph.new ≡ graph.old ++ next_of names.now node.now ∷ []) }
{
    graph.add_node()?;
    add_edges(graph, names, node.targets())
}

/// These nodes as a graph, by the numbers of their names.
fn graph_of(
    alloc: Global,
    names: &Numbering<'_>,
    nodes: &[NameNode<'_>],
) -> Result<Digraph, OutOfMemory>
    ensures { IfOk result (λ graph. graph ≡ map (next_of names.now) nodes.now) }
{
    let mut graph = Digraph::new(alloc);
    for node in nodes {
        add_node(&mut graph, names, node)?;
    }
    Ok(graph)
}

/// Whether one of these nodes leads back to itself, through others or directly. A name that no node has leads nowhere,
/// and one that several have leads to the first of them. In time linear in the nodes and in what they lead to, but for
/// the look-ups; the one error is want of memory.
pub fn lead_back(alloc: Global, nodes: &[NameNode<'_>]) -> Result<bool, OutOfMemory>
    ensures { IfOk result (λ found. MatchBool found (HasCycle (named_graph nodes.now)) (HasCycle (named_graph nodes.now) → ⊥)) }
{
    let names = number_names(alloc, names_of(alloc, nodes)?)?;
    let graph = graph_of(alloc, &names, nodes)?;
    let components = Components::of(alloc, &graph)?;
    Ok(components.least_on_cycle(&graph).is_some())
}
