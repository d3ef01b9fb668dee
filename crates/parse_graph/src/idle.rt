// Cycles of states that extract nothing.
ghost use Rattle.std.specs.Prelude.{◌≡◌, ℕ, ◌<◌, ◌++◌, [], ◌∷◌, length, filter, All, IfOk, OnOk, MatchOption};
ghost use Rattle.digraph.specs.Graphs.{IsClosed};
ghost use Rattle.parse_graph.specs.Graphs.{IsWhole, IsIdle, IsLeastIdle};
ghost use Rattle.parse_graph.specs.internal.IdleEdges.{extracts_none, idle_next, idle_graph, with_edges};

use crate::nodes::{Graph, StateNode};
use digraph::{Components, Digraph};
use p4x_bits::OutOfMemory;
use std::alloc::Global;

/// Whether the state with this number extracts nothing.
fn extracts_none(states: &[StateNode], state: u32) -> bool
    requires { state < length states.now }
    ensures { result ≡ extracts_none states.now state }
{
    states[state as usize].extracts.as_slice().is_empty()
}

/// Adds edges from the last node to those of these states that extract nothing.
fn add_edges(graph: &mut Digraph, states: &[StateNode], next: &[u32]) -> Result<(), OutOfMemory>
    requires { All (λ s. s < length states.now) next.now }
    ensures { OnOk result (graph.new ≡ with_edges graph.old (filter (extracts_none states.now) next.now)) }
{
    for state in next {
        if extracts_none(states, *state) {
            graph.add_edge(*state as usize)?;
        }
    }
    Ok(())
}

/// Adds a state, with its edges if it extracts nothing.
fn add_state(
    graph: &mut Digraph,
    states: &[StateNode],
    state: &StateNode,
) -> Result<(), OutOfMemory>
    requires { All (λ s. s < length states.now) state.now.next }
    ensures { OnOk result (graph.new ≡ graph.old ++ idle_next states.now state.now ∷ []) }
{
    graph.add_node()?;
    if state.extracts.as_slice().is_empty() {
        add_edges(graph, states, state.next.as_slice())
    } else {
        Ok(())
    }
}

/// The graph of the states that extract nothing. The others are nodes without edges.
fn idle_graph(alloc: Global, states: &[StateNode]) -> Result<Digraph, OutOfMemory>
    requires { IsWhole states.now }
    ensures graph { IfOk result (λ graph. graph ≡ idle_graph states.now) }
    ensures closed { IfOk result IsClosed }
{
    let mut graph = Digraph::new(alloc);
    for state in states {
        add_state(&mut graph, states, state)?;
    }
    Ok(graph)
}

/// The least state on a cycle of states that extract nothing, and None exactly where there is no such cycle. In time
/// linear in states and in what their returns name; the one error is want of memory.
pub fn first_idle_cycle(alloc: Global, graph: &Graph) -> Result<Option<u32>, OutOfMemory>
    requires { IsWhole graph.now.states }
    ensures { IfOk result (λ found. MatchOption found ((s : ℕ) → IsIdle graph.now.states s → ⊥) (IsLeastIdle graph.now.states)) }
{
    let idle = idle_graph(alloc, graph.states.as_slice())?;
    let components = Components::of(alloc, &idle)?;
    match components.least_on_cycle(&idle) {
        None => Ok(None),
        Some(state) => match u32::try_from(state) {
            Ok(state) => Ok(Some(state)),
            Err(_) => Err(OutOfMemory),
        },
    }
}
