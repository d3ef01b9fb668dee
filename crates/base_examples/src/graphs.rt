// Texts that tell graphs and lists.
use crate::lines::{cut, number_of};
use digraph::Digraph;
use p4x_bits::{OutOfMemory, Rows};
use std::alloc::Global;

/// The numbers that digits write, with a comma between two.
pub fn numbers_of(alloc: Global, cell: &[u8]) -> Result<Vec<u64>, OutOfMemory> {
    let mut numbers = Vec::new(alloc);
    let mut left = cell;
    for _ in 0..cell.len() {
        let (number, more) = cut(left, b',');
        numbers.push(number_of(number))?;
        if more.is_empty() {
            break;
        }
        left = more;
    }
    Ok(numbers)
}

fn node_of(digit: u8) -> usize {
    usize::from(digit.saturating_sub(b'0'))
}

/// Puts the nodes of a cell into a graph: a digit for the target of each edge, and `/` between two nodes; none where it is `-`.
pub fn put_nodes(graph: &mut Digraph, cell: &[u8]) -> Result<(), OutOfMemory> {
    if cell == b"-".as_slice() {
        return Ok(());
    }
    graph.add_node()?;
    for octet in cell {
        if *octet == b'/' {
            graph.add_node()?;
        } else {
            graph.add_edge(node_of(*octet))?;
        }
    }
    Ok(())
}

/// Puts so many nodes into a graph, each of which leads to the next, and the last to the target if there is one.
pub fn put_chain(
    graph: &mut Digraph,
    nodes: usize,
    target: Option<usize>,
) -> Result<(), OutOfMemory> {
    for node in 1..nodes {
        graph.add_node()?;
        graph.add_edge(node)?;
    }
    graph.add_node()?;
    match target {
        Some(target) => graph.add_edge(target),
        None => Ok(()),
    }
}

/// Puts the labels of each node behind a list: a digit for each, and `/` between two nodes.
pub fn put_labels(
    alloc: Global,
    labels: &mut Vec<Rows<usize>>,
    cell: &[u8],
) -> Result<(), OutOfMemory> {
    let mut of_node = Rows::new(alloc);
    for octet in cell {
        if *octet == b'/' {
            labels.push(of_node)?;
            of_node = Rows::new(alloc);
        } else {
            of_node.push(node_of(*octet))?;
        }
    }
    labels.push(of_node)?;
    Ok(())
}

/// Puts the labels of a chain of so many nodes behind a list: they fall to 0.
pub fn put_falling(
    alloc: Global,
    labels: &mut Vec<Rows<usize>>,
    nodes: usize,
) -> Result<(), OutOfMemory> {
    for node in 0..nodes {
        labels.push(Rows::from_slice(alloc, &[nodes - 1 - node])?)?;
    }
    Ok(())
}

/// Whether these digits, one each, write these numbers.
pub fn are_digits(numbers: &[usize], digits: &[u8]) -> bool {
    for (place, number) in numbers.iter().enumerate() {
        if place >= digits.len() || node_of(digits[place]) != *number {
            return false;
        }
    }
    numbers.len() == digits.len()
}
