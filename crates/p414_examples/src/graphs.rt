// The graph of a program's parser states.
ghost use Rattle.parse_graph.specs.Graphs.{IsWhole};

use crate::lines::{are_digits, cut};
use p414_syntax::Syntax14;
use parse_graph::{Graph, StateNode, first_idle_cycle, graph};
use std::alloc::Global;

/// Whether a state extracts the instances of these digits, and leads to the states of those behind `>`.
fn is_state(state: &StateNode, wanted: &[u8]) -> bool {
    let (extracts, next) = cut(wanted, b'>');
    are_digits(state.extracts.as_slice(), extracts) && are_digits(state.next.as_slice(), next)
}

/// Whether a graph has this start, and behind `:` these states, with a comma behind each.
fn is_graph(graph: &Graph, wanted: &[u8]) -> bool {
    let (start, states) = cut(wanted, b':');
    let mut left = states;
    for state in graph.states.as_slice() {
        let (one, more) = cut(left, b',');
        if left.is_empty() || !is_state(state, one) {
            return false;
        }
        left = more;
    }
    left.is_empty() && are_digits(&[graph.start], start)
}

/// Whether the least state on an idle cycle has this digit, or there is none where it is `-`.
fn is_idle(alloc: Global, graph: &Graph, wanted: &[u8]) -> bool
    requires { IsWhole graph.now.states }
{
    match first_idle_cycle(alloc, graph) {
        Ok(Some(state)) => are_digits(&[state], wanted),
        Ok(None) => wanted == b"-".as_slice(),
        Err(_) => false,
    }
}

/// Whether the states of a program are these (`G`), or their first idle cycle is this one (`I`).
pub fn has_graph(alloc: Global, asked: u8, syntax: &Syntax14, wanted: &[u8]) -> bool {
    match &graph(alloc, syntax) {
        Ok(graph) if asked == b'I' => is_idle(alloc, graph, wanted),
        Ok(graph) => is_graph(graph, wanted),
        Err(_) => false,
    }
}
