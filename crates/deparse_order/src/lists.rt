// What the states of a graph lead to, and what they extract, as lists of their own.
ghost use Rattle.std.specs.Prelude.{◌≡◌, [], ◌∷◌, ◌++◌, fold, IfOk, OnOk};
ghost use Rattle.digraph.specs.Graphs.{with_edge};
ghost use Rattle.parse_graph.specs.Graphs.{extracts_in, next_in};
ghost use Rattle.deparse_order.specs.Orders.{extract_lists, next_lists};

use digraph::Digraph;
use name_numbers::narrow;
use p4x_bits::{OutOfMemory, Rows};
use parse_graph::StateNode;
use std::alloc::Global;

/// The graph of what the states lead to.
pub fn next_lists(alloc: Global, states: &[StateNode]) -> Result<Digraph, OutOfMemory>
    ensures { IfOk result (λ graph. graph ≡ next_lists states.now) }
{
    let mut graph = Digraph::new(alloc);
    for state in states {
        add_state(&mut graph, state)?;
    }
    Ok(graph)
}

/// Adds a state with its edges.
fn add_state(graph: &mut Digraph, state: &StateNode) -> Result<(), OutOfMemory>
    ensures { OnOk result (graph.new ≡ graph.old ++ next_in state.now ∷ []) }
{
    graph.add_node()?;
    add_edges(graph, state.next.as_slice())
}

/// Adds edges from the last node.
fn add_edges(graph: &mut Digraph, next: &[u32]) -> Result<(), OutOfMemory>
    ensures { OnOk result (graph.new ≡ fold with_edge graph.old next.now) }
{
    for state in next {
        graph.add_edge(*state as usize)?;
    }
    Ok(())
}

/// What the states extract.
pub fn extract_lists(alloc: Global, states: &[StateNode]) -> Result<Vec<Rows<usize>>, OutOfMemory>
    ensures { IfOk result (λ lists. lists.items ≡ extract_lists states.now) }
{
    let mut lists = Vec::new(alloc);
    for state in states {
        lists.push(extracts_of(alloc, state)?)?;
    }
    Ok(lists)
}

/// What a state extracts.
fn extracts_of(alloc: Global, state: &StateNode) -> Result<Rows<usize>, OutOfMemory>
    ensures { IfOk result (λ list. list ≡ extracts_in state.now) }
{
    widened(alloc, state.extracts.as_slice())
}

/// The same numbers in a wider type.
fn widened(alloc: Global, numbers: &[u32]) -> Result<Rows<usize>, OutOfMemory>
    ensures { IfOk result (λ wide. wide ≡ numbers.now) }
{
    let mut wide = Rows::new(alloc);
    for number in numbers {
        wide.push(*number as usize)?;
    }
    Ok(wide)
}

/// The same numbers in a narrower type. One that doesn't fit counts as want of memory.
pub fn narrowed(alloc: Global, numbers: &[usize]) -> Result<Rows<u32>, OutOfMemory>
    ensures { IfOk result (λ narrow. narrow ≡ numbers.now) }
{
    let mut narrowed = Rows::new(alloc);
    for number in numbers {
        narrowed.push(narrow(*number)?)?;
    }
    Ok(narrowed)
}
