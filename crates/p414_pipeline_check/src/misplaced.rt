// C22: requests that are made in one pipeline alone, and are reached from the other one.
ghost use Rattle.std.specs.Prelude.{◌≡◌, IfOk};
ghost use Rattle.digraph.specs.Components.{AreComponents};
ghost use Rattle.p414_syntax.specs.Actions.{ActionCallsItself};
ghost use Rattle.p414_syntax.specs.ControlExpansion.{ingress, egress};
ghost use Rattle.p414_syntax.specs.Exact.{IsExact};
ghost use Rattle.p414_syntax.specs.Pipelines.{HasMisplacedRequest};
ghost use Rattle.p414_pipeline_check.specs.internal.Applied.{applied_graph, AreApplied};
ghost use Rattle.p414_pipeline_check.specs.internal.Requests.{action_graph, all_calls, is_misplaced, IsSomeMisplaced};

use crate::applied::applied_tables;
use crate::applied_graph::applied_graph;
use crate::requests::{Kind, listed_requests};
use crate::shared::is_marked;
use digraph::{Components, Digraph};
use p4x_bits::OutOfMemory;
use p414_calls::{ActionCalls, action_graph, calls_of};
use p414_control_check::Controls;
use p414_names::Names14;
use std::alloc::Global;

/// Whether a table lists a request of the pipeline that it isn't in. One that no pipeline applies counts as one of
/// ingress.
fn is_misplaced(
    in_ingress: &[bool],
    in_egress: &[bool],
    of_ingress: &[bool],
    of_egress: &[bool],
    table: usize,
) -> bool
    ensures { result ≡ is_misplaced (record { ingress = in_ingress.now; egress = in_egress.now; of_ingress = of_ingress.now; of_egress = of_egress.now }) table }
{
    is_marked(in_egress, table) && is_marked(of_ingress, table)
        || (is_marked(in_ingress, table) || !is_marked(in_egress, table))
            && is_marked(of_egress, table)
}

/// Whether some table does.
fn some_misplaced(
    in_ingress: &[bool],
    in_egress: &[bool],
    of_ingress: &[bool],
    of_egress: &[bool],
) -> bool
    ensures { IsSomeMisplaced result (record { ingress = in_ingress.now; egress = in_egress.now; of_ingress = of_ingress.now; of_egress = of_egress.now }) }
{
    for table in 0..in_ingress.len() {
        if is_misplaced(in_ingress, in_egress, of_ingress, of_egress, table) {
            return true;
        }
    }
    false
}

/// Whether C22 is broken, by the graph of the actions, where it is known which tables the pipelines apply.
fn reaches_misplaced(
    alloc: Global,
    graph: &Digraph,
    calls: &[ActionCalls<'_>],
    names: &Names14<'_>,
    in_ingress: &[bool],
    in_egress: &[bool],
) -> Result<bool, OutOfMemory>
    requires graph { graph.now ≡ action_graph names.now }
    requires calls { calls.now ≡ all_calls names.now }
    requires ingress { AreApplied names.now ingress in_ingress.now }
    requires egress { AreApplied names.now egress in_egress.now }
    requires acyclic { ActionCallsItself names.now → ⊥ }
    ensures { IfOk result (λ misplaced. IsExact misplaced (HasMisplacedRequest names.now)) }
{
    let components = Components::of(alloc, graph)?;
    let of_ingress = listed_requests(alloc, graph, &components, calls, names, Kind::OfIngress)?;
    let of_egress = listed_requests(alloc, graph, &components, calls, names, Kind::OfEgress)?;
    Ok(some_misplaced(in_ingress, in_egress, &of_ingress, &of_egress))
}

/// The same, given the calls of the actions.
fn has_misplaced_call(
    alloc: Global,
    calls: &[ActionCalls<'_>],
    names: &Names14<'_>,
    in_ingress: &[bool],
    in_egress: &[bool],
) -> Result<bool, OutOfMemory>
    requires calls { calls.now ≡ all_calls names.now }
    requires ingress { AreApplied names.now ingress in_ingress.now }
    requires egress { AreApplied names.now egress in_egress.now }
    requires acyclic { ActionCallsItself names.now → ⊥ }
    ensures { IfOk result (λ misplaced. IsExact misplaced (HasMisplacedRequest names.now)) }
{
    let graph = action_graph(alloc, names, calls)?;
    reaches_misplaced(alloc, &graph, calls, names, in_ingress, in_egress)
}

/// The same, given which tables the pipelines apply.
fn are_misplaced(
    alloc: Global,
    names: &Names14<'_>,
    in_ingress: &[bool],
    in_egress: &[bool],
) -> Result<bool, OutOfMemory>
    requires ingress { AreApplied names.now ingress in_ingress.now }
    requires egress { AreApplied names.now egress in_egress.now }
    requires acyclic { ActionCallsItself names.now → ⊥ }
    ensures { IfOk result (λ misplaced. IsExact misplaced (HasMisplacedRequest names.now)) }
{
    let calls = calls_of(alloc, names.decls())?;
    has_misplaced_call(alloc, &calls, names, in_ingress, in_egress)
}

/// The same, by the graph of controls and tables.
fn is_some_misplaced(
    alloc: Global,
    controls: &Controls<'_, '_>,
    graph: &Digraph,
) -> Result<bool, OutOfMemory>
    requires graph { graph.now ≡ applied_graph controls.now }
    requires acyclic { ActionCallsItself controls.now → ⊥ }
    ensures { IfOk result (λ misplaced. IsExact misplaced (HasMisplacedRequest controls.now)) }
{
    let in_ingress = applied_tables(alloc, controls, graph, b"ingress")?;
    let in_egress = applied_tables(alloc, controls, graph, b"egress")?;
    are_misplaced(alloc, controls.names(), &in_ingress, &in_egress)
}

/// Whether C22 is broken, where no action calls itself (C15). Nothing is expanded for that: its time is linear in the
/// text.
pub fn has_misplaced_request(alloc: Global, names: &Names14<'_>) -> Result<bool, OutOfMemory>
    requires { ActionCallsItself names.now → ⊥ }
    ensures { IfOk result (λ misplaced. IsExact misplaced (HasMisplacedRequest names.now)) }
{
    let controls = Controls::of(alloc, names)?;
    let graph = applied_graph(alloc, &controls)?;
    is_some_misplaced(alloc, &controls, &graph)
}
