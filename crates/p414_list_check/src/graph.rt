// C8: the field lists of a program as a graph.
ghost use Rattle.std.specs.Prelude.{◌≡◌, ◌++◌, ◌∷◌, [], map, option_to_list, IfOk, OnOk};
ghost use Rattle.p414_syntax.specs.Expansion.{inner_number, inner_numbers, list_in};
ghost use Rattle.p414_list_check.specs.internal.Expanded.{list_row, list_graph, with_edges};

use crate::expanded::inner_number;
use digraph::Digraph;
use p4x_bits::OutOfMemory;
use p414_names::Names14;
use p414_syntax::{Decl, Item};
use std::alloc::Global;

/// Adds the edge to the list that an item stands for, if it stands for one.
fn add_inner(graph: &mut Digraph, names: &Names14<'_>, item: &Item) -> Result<(), OutOfMemory>
    ensures { OnOk result (graph.new ≡ with_edges graph.old (option_to_list (inner_number names.now item.now))) }
{
    match inner_number(names, item) {
        Some(list) => graph.add_edge(list),
        None => Ok(()),
    }
}

/// Adds the edges to the lists that stand in these items.
#[tactic(auto, using(crate::proofs::Loops::edges_now))]
fn add_edges(graph: &mut Digraph, names: &Names14<'_>, items: &[Item]) -> Result<(), OutOfMemory>
    ensures { OnOk result (graph.new ≡ with_edges graph.old (inner_numbers names.now items.now)) }
{
    for item in items {
        add_inner(graph, names, item)?;
    }
    Ok(())
}

/// Adds the node of a list with these items, and its edges.
#[tactic(auto, using(crate::proofs::Loops::node_with))]
fn add_list(graph: &mut Digraph, names: &Names14<'_>, items: &[Item]) -> Result<(), OutOfMemory>
    ensures { OnOk result (graph.new ≡ graph.old ++ inner_numbers names.now items.now ∷ []) }
{
    graph.add_node()?;
    add_edges(graph, names, items)
}

/// The same of a declaration, if it is a list.
fn add_decl(graph: &mut Digraph, names: &Names14<'_>, decl: &Decl) -> Result<(), OutOfMemory>
    ensures { OnOk result (graph.new ≡ graph.old ++ map (list_row names.now) (option_to_list (list_in decl.now))) }
{
    match decl {
        Decl::FieldList(declared) => add_list(graph, names, declared.items.as_slice()),
        _ => Ok(()),
    }
}

/// The field lists of a program as a graph: each leads to the lists that stand in it.
#[tactic(auto, using(crate::proofs::Loops::list_now))]
pub fn list_graph(alloc: Global, names: &Names14<'_>) -> Result<Digraph, OutOfMemory>
    ensures { IfOk result (λ graph. graph ≡ list_graph names.now) }
{
    let mut graph = Digraph::new(alloc);
    for decl in names.decls() {
        add_decl(&mut graph, names, decl)?;
    }
    Ok(graph)
}
