// What is told of a graph.
use crate::graphs::{are_digits, numbers_of, put_chain, put_falling, put_labels, put_nodes};
use crate::lines::{cut, number_of, place_of};
use digraph::{Components, Digraph};
use least_order::least_order;
use p4x_bits::{OutOfMemory, Rows};
use std::alloc::Global;

/// Whether the components of the nodes have the numbers of these digits.
fn has_numbers(alloc: Global, graph: &Digraph, digits: &[u8]) -> bool {
    if !graph.is_closed() {
        return false;
    }
    match Components::of(alloc, graph) {
        Ok(components) => {
            for node in 0..graph.len() {
                let number = components.number(node);
                if node >= digits.len() || !are_digits(&[number], &[digits[node]]) {
                    return false;
                }
            }
            digits.len() == graph.len()
        }
        Err(_) => false,
    }
}

/// Whether this is the least node on a cycle, or there is none.
pub fn has_least(alloc: Global, graph: &Digraph, wanted: Option<usize>) -> bool {
    if !graph.is_closed() {
        return false;
    }
    match Components::of(alloc, graph) {
        Ok(components) => components.least_on_cycle(graph) == wanted,
        Err(_) => false,
    }
}

/// The sizes of the nodes, each of which has one of its own, up to a limit; none where a node lies on a cycle.
fn sizes_of(
    alloc: Global,
    graph: &Digraph,
    own: &[u64],
    limit: u64,
) -> Result<Option<Vec<u64>>, OutOfMemory> {
    if !graph.is_closed() || own.len() != graph.len() {
        return Err(OutOfMemory);
    }
    let components = Components::of(alloc, graph)?;
    components.sizes(alloc, graph, own, limit)
}

/// Whether the nodes have these sizes; or none where `-` stands.
fn has_sizes(alloc: Global, graph: &Digraph, own: &[u64], limit: u64, wanted: &[u64]) -> bool {
    match &sizes_of(alloc, graph, own, limit) {
        Ok(Some(sizes)) => sizes.as_slice() == wanted,
        Ok(None) => wanted.is_empty(),
        Err(_) => false,
    }
}

/// The same of a cell with the own sizes, a semicolon and the limit, and a cell with the sizes, which is empty where there are none.
fn has_sizes_of(
    alloc: Global,
    graph: &Digraph,
    own: &[u8],
    wanted: &[u8],
) -> Result<bool, OutOfMemory> {
    let (own, limit) = cut(own, b';');
    let own = numbers_of(alloc, own)?;
    let wanted = numbers_of(alloc, wanted)?;
    Ok(has_sizes(alloc, graph, &own, number_of(limit), &wanted))
}

/// Whether a `1` stands for each node that is reached, and a `0` for each other.
fn are_marks(reached: &[bool], marks: &[u8]) -> bool {
    for (node, is_reached) in reached.iter().enumerate() {
        if node >= marks.len() || *is_reached != (marks[node] == b'1') {
            return false;
        }
    }
    reached.len() == marks.len()
}

/// Whether these nodes are reached from one.
fn reaches(alloc: Global, graph: &Digraph, from: usize, marks: &[u8]) -> bool {
    if !graph.is_closed() || from >= graph.len() {
        return false;
    }
    match &graph.reachable(alloc, from) {
        Ok(reached) => are_marks(reached, marks),
        Err(_) => false,
    }
}

/// The least order from node 0, if there is one; want of memory where the lists make no labelled graph.
fn order_of(
    alloc: Global,
    graph: &Digraph,
    labels: &[Rows<usize>],
) -> Result<Option<Vec<usize>>, OutOfMemory> {
    if !graph.is_closed() || graph.len() == 0 || labels.len() != graph.len() {
        return Err(OutOfMemory);
    }
    least_order(alloc, graph, labels, 0)
}

/// Whether the labels stand in this order, or have none where `x` stands.
fn is_ordered(alloc: Global, graph: &Digraph, labels: &[Rows<usize>], wanted: &[u8]) -> bool {
    match &order_of(alloc, graph, labels) {
        Ok(Some(order)) => are_digits(order, wanted),
        Ok(None) => wanted == b"x".as_slice(),
        Err(_) => false,
    }
}

fn has_order(alloc: Global, graph: &Digraph, labels: &[u8], wanted: &[u8]) -> bool {
    let mut of_nodes = Vec::new(alloc);
    put_labels(alloc, &mut of_nodes, labels).is_ok() && is_ordered(alloc, graph, &of_nodes, wanted)
}

/// The node that a digit tells, or none where it is `-`.
fn node_or_none(cell: &[u8]) -> Option<usize> {
    if cell == b"-".as_slice() {
        return None;
    }
    Some(place_of(cell))
}

/// Whether this is told of a graph: whether each edge leads to a node (`C`); the numbers of components (`N`); the least node on a
/// cycle (`L`); sizes (`S`); the nodes that are reached from one (`R`); or the order of labels.
fn is_told_of(alloc: Global, asked: &[u8], graph: &Digraph, other: &[u8], wanted: &[u8]) -> bool {
    match asked {
        [b'C'] => graph.is_closed() == (wanted == b"+".as_slice()),
        [b'N'] => has_numbers(alloc, graph, wanted),
        [b'L'] => has_least(alloc, graph, node_or_none(wanted)),
        [b'S'] => matches!(has_sizes_of(alloc, graph, other, wanted), Ok(true)),
        [b'R'] => reaches(alloc, graph, place_of(other), wanted),
        _ => has_order(alloc, graph, other, wanted),
    }
}

/// The same of the graph of a cell.
pub fn is_told(alloc: Global, asked: &[u8], nodes: &[u8], other: &[u8], wanted: &[u8]) -> bool {
    let mut graph = Digraph::new(alloc);
    put_nodes(&mut graph, nodes).is_ok() && is_told_of(alloc, asked, &graph, other, wanted)
}

/// Whether the least node on a cycle of a chain of so many nodes is the target of its last, or there is none.
pub fn has_least_of_chain(alloc: Global, nodes: usize, target: Option<usize>) -> bool {
    let mut graph = Digraph::new(alloc);
    put_chain(&mut graph, nodes, target).is_ok() && has_least(alloc, &graph, target)
}

/// Whether an order has so many labels, from the greatest down to 0.
fn falls(order: &[usize], len: usize) -> bool {
    match order {
        [only] => *only == 0 && len == 1,
        [first, .., last] => order.len() == len && *first == len.saturating_sub(1) && *last == 0,
        [] => len == 0,
    }
}

/// Whether the least order of a graph has its labels from the greatest down to 0.
fn is_falling(alloc: Global, graph: &Digraph, labels: &[Rows<usize>]) -> bool {
    match &order_of(alloc, graph, labels) {
        Ok(Some(order)) => falls(order, labels.len()),
        _ => false,
    }
}

fn has_falling_order(alloc: Global, graph: &Digraph, nodes: usize) -> bool {
    let mut labels = Vec::new(alloc);
    put_falling(alloc, &mut labels, nodes).is_ok() && is_falling(alloc, graph, &labels)
}

/// Whether the labels of a chain of so many nodes, along which they fall, keep their order. Its last node leads to itself.
pub fn is_chain_ordered(alloc: Global, nodes: usize) -> bool {
    let mut graph = Digraph::new(alloc);
    put_chain(&mut graph, nodes, Some(nodes.saturating_sub(1))).is_ok()
        && has_falling_order(alloc, &graph, nodes)
}
