// The actions of a program as a graph.
ghost use Rattle.std.specs.Prelude.{◌≡◌, ◌++◌, ◌∷◌, [], map, option_to_list, IfOk, OnOk};
ghost use Rattle.p414_syntax.specs.Arguments.{actions, invocations_of, action_number};
ghost use Rattle.p414_syntax.specs.ActionExpansion.{callee_number, called_in};
ghost use Rattle.p414_calls.specs.internal.Edges.{with_edges, called_by};

use crate::calls::{ActionCalls, Invocation};
use digraph::Digraph;
use p4x_bits::OutOfMemory;
use p414_names::Names14;
use p414_syntax::Sort;
use std::alloc::Global;

/// The number of the action with a name, from 0 in the order of the text; none where it is no declared action.
pub fn action_number(names: &Names14<'_>, name: &[u8]) -> Option<usize>
    ensures { result ≡ action_number names.now name.now }
{
    names.number_of(Sort::Action, name)
}

/// Adds the edge to the action that is called, if it is one.
fn add_callee(
    graph: &mut Digraph,
    names: &Names14<'_>,
    call: &Invocation<'_>,
) -> Result<(), OutOfMemory>
    ensures { OnOk result (graph.new ≡ with_edges graph.old (option_to_list (callee_number names.now call.now))) }
{
    match action_number(names, call.callee()) {
        Some(action) => graph.add_edge(action),
        None => Ok(()),
    }
}

/// Adds the edges to the actions that are called.
#[tactic(auto, using(crate::proofs::Loops::edges_now))]
fn add_edges(
    graph: &mut Digraph,
    names: &Names14<'_>,
    calls: &[Invocation<'_>],
) -> Result<(), OutOfMemory>
    ensures { OnOk result (graph.new ≡ with_edges graph.old (called_by names.now calls.now)) }
{
    for call in calls {
        add_callee(graph, names, call)?;
    }
    Ok(())
}

/// Adds the node of an action with these calls, and its edges.
#[tactic(auto, using(crate::proofs::Loops::node_with))]
fn add_action(
    graph: &mut Digraph,
    names: &Names14<'_>,
    action: &ActionCalls<'_>,
) -> Result<(), OutOfMemory>
    ensures { OnOk result (graph.new ≡ graph.old ++ called_by names.now action.now ∷ []) }
{
    graph.add_node()?;
    add_edges(graph, names, action.as_slice())
}

/// The same of all these actions.
fn graph_of(
    alloc: Global,
    names: &Names14<'_>,
    calls: &[ActionCalls<'_>],
) -> Result<Digraph, OutOfMemory>
    ensures { IfOk result (λ graph. graph ≡ map (called_by names.now) calls.now) }
{
    let mut graph = Digraph::new(alloc);
    for action in calls {
        add_action(&mut graph, names, action)?;
    }
    Ok(graph)
}

/// The actions of a program as a graph: each leads to the actions that it calls, in order. The one error is want of
/// memory.
pub fn action_graph(
    alloc: Global,
    names: &Names14<'_>,
    calls: &[ActionCalls<'_>],
) -> Result<Digraph, OutOfMemory>
    requires { calls.now ≡ map invocations_of (actions names.now) }
    ensures { IfOk result (λ graph. graph ≡ map (called_in names.now) (actions names.now)) }
{
    graph_of(alloc, names, calls)
}
