// C17: tables that both pipelines apply.
ghost use Rattle.std.specs.Prelude.{◌≡◌, false, slice_index_or, IfOk};
ghost use Rattle.p414_syntax.specs.Exact.{IsExact};
ghost use Rattle.p414_syntax.specs.Pipelines.{IsTableShared};
ghost use Rattle.p414_pipeline_check.specs.internal.Applied.{applied_graph, IsBoth};

use crate::applied::applied_tables;
use crate::applied_graph::applied_graph;
use digraph::Digraph;
use p4x_bits::OutOfMemory;
use p414_control_check::Controls;
use p414_names::Names14;
use std::alloc::Global;

/// Whether a place is marked.
pub fn is_marked(marks: &[bool], place: usize) -> bool
    ensures { result ≡ slice_index_or marks.now place false }
{
    match marks.get(place) {
        Some(mark) => *mark,
        None => false,
    }
}

/// Whether some place is marked in both.
fn some_both(one: &[bool], other: &[bool]) -> bool
    ensures { IsBoth result one.now other.now }
{
    for place in 0..one.len() {
        if is_marked(one, place) && is_marked(other, place) {
            return true;
        }
    }
    false
}

/// Whether C17 is broken, by the graph of controls and tables.
fn is_some_shared(
    alloc: Global,
    controls: &Controls<'_, '_>,
    graph: &Digraph,
) -> Result<bool, OutOfMemory>
    requires { graph.now ≡ applied_graph controls.now }
    ensures { IfOk result (λ shared. IsExact shared (IsTableShared controls.now)) }
{
    let ingress = applied_tables(alloc, controls, graph, b"ingress")?;
    let egress = applied_tables(alloc, controls, graph, b"egress")?;
    Ok(some_both(&ingress, &egress))
}

/// Whether C17 is broken. Nothing is expanded for that: its time is linear in the text.
pub fn has_shared_table(alloc: Global, names: &Names14<'_>) -> Result<bool, OutOfMemory>
    ensures { IfOk result (λ shared. IsExact shared (IsTableShared names.now)) }
{
    let controls = Controls::of(alloc, names)?;
    let graph = applied_graph(alloc, &controls)?;
    is_some_shared(alloc, &controls, &graph)
}
