// Which tables a pipeline applies.
ghost use Rattle.std.specs.Prelude.{◌≡◌, ◌<◌, ◌≤◌, drop, length, IfOk, IfSome};
ghost use Rattle.digraph.specs.Graphs.{IsClosed};
ghost use Rattle.p414_pipeline_check.specs.internal.Applied.{applied_graph, AreApplied, AreReachedFrom};

use digraph::Digraph;
use p4x_bits::OutOfMemory;
use p414_control_check::Controls;
use std::alloc::Global;

/// For each node whether it is reached from one, if there is one.
fn reached_from(
    alloc: Global,
    graph: &Digraph,
    from: Option<usize>,
) -> Result<Vec<bool>, OutOfMemory>
    requires closed { IsClosed graph.now }
    requires from { IfSome from (λ node. node < length graph.now) }
    ensures { IfOk result (λ reached. AreReachedFrom graph.now from reached.items) }
{
    match from {
        Some(from) => graph.reachable(alloc, from),
        None => Ok(vec![in alloc; false; graph.len()]?),
    }
}

/// Takes the first marks away.
fn drop_first(marks: &mut Vec<bool>, count: usize)
    requires { count ≤ length marks.old.items }
    ensures { marks.new.items ≡ drop count marks.old.items }
{
    marks.drain(..count);
}

/// For each table whether the pipeline with this name applies it.
pub fn applied_tables(
    alloc: Global,
    controls: &Controls<'_, '_>,
    graph: &Digraph,
    pipeline: &[u8],
) -> Result<Vec<bool>, OutOfMemory>
    requires { graph.now ≡ applied_graph controls.now }
    ensures { IfOk result (λ applied. AreApplied controls.now pipeline.now applied.items) }
{
    let mut reached = reached_from(alloc, graph, controls.number(pipeline))?;
    drop_first(&mut reached, controls.len());
    Ok(reached)
}
