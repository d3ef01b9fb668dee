// Which tables egress applies.
ghost use Rattle.std.specs.Prelude.{◌≡◌, ◌<◌, ◌≤◌, drop, length, IfOk, IfSome};
ghost use Rattle.digraph.specs.Graphs.{IsClosed};
ghost use Rattle.p414_syntax.specs.ControlExpansion.{egress};
ghost use Rattle.p414_pipeline_check.specs.internal.Applied.{applied_graph, AreApplied, AreReachedFrom};

use crate::applied_graph::applied_graph;
use digraph::Digraph;
use p4x_bits::OutOfMemory;
use p414_control_check::Controls;
use p414_names::Names14;
use std::alloc::Global;

/// For each node whether it is reached from one, if there is one.
fn reached_from(
    alloc: Global,
    graph: &Digraph,
    from: Option<usize>,
) -> Result<Vec<bool>, OutOfMemory>
    requires closed { IsClosed graph.now }
    requires from { IfSome from (λ node. node < length graph.now) }
    ensures { IfOk result (λ reached. AreReachedFrom graph.now from reached.items) }
{
    match from {
        Some(from) => graph.reachable(alloc, from),
        None => Ok(vec![in alloc; false; graph.len()]?),
    }
}

/// Takes the first marks away.
fn drop_first(marks: &mut Vec<bool>, count: usize)
    requires { count ≤ length marks.old.items }
    ensures { marks.new.items ≡ drop count marks.old.items }
{
    marks.drain(..count);
}

/// For each table whether the pipeline with this name applies it.
fn applied_tables(
    alloc: Global,
    controls: &Controls<'_, '_>,
    graph: &Digraph,
    pipeline: &[u8],
) -> Result<Vec<bool>, OutOfMemory>
    requires { graph.now ≡ applied_graph controls.now }
    ensures { IfOk result (λ applied. AreApplied controls.now pipeline.now applied.items) }
{
    let mut reached = reached_from(alloc, graph, controls.number(pipeline))?;
    drop_first(&mut reached, controls.len());
    Ok(reached)
}

/// For each table whether egress applies it (P4_14 1.0.5, "Packet Processing and Control Flow"), by the graph of controls and
/// tables.
fn egress_by(
    alloc: Global,
    controls: &Controls<'_, '_>,
    graph: &Digraph,
) -> Result<Vec<bool>, OutOfMemory>
    requires { graph.now ≡ applied_graph controls.now }
    ensures { IfOk result (λ applied. AreApplied controls.now egress applied.items) }
{
    applied_tables(alloc, controls, graph, b"egress")
}

/// For each table, in the order of declaration, whether egress applies it, itself or by a control that it calls. In time linear
/// in the text but for looking names up.
pub fn egress_tables(alloc: Global, names: &Names14<'_>) -> Result<Vec<bool>, OutOfMemory>
    ensures { IfOk result (λ applied. AreApplied names.now egress applied.items) }
{
    let controls = Controls::of(alloc, names)?;
    let graph = applied_graph(alloc, &controls)?;
    egress_by(alloc, &controls, &graph)
}
