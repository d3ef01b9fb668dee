// C16: controls that call themselves, and pipelines that are too long.
ghost use Rattle.std.specs.Prelude.{◌≡◌, ◌+◌, nat_lt, slice_index, IfOk, IsTrue, MatchOption};
ghost use Rattle.digraph.specs.Components.{AreComponents};
ghost use Rattle.digraph.specs.Expansions.{AreSizes, HasCycle};
ghost use Rattle.p414_syntax.specs.Controls.{HasBadControl};
ghost use Rattle.p414_syntax.specs.Exact.{IsExact};
ghost use Rattle.p414_syntax.specs.Unknown.{has_unknown_name};
ghost use Rattle.p414_control_check.specs.internal.Expanded.{control_graph, own_counts, pipeline_size, pipelines_size};

use crate::control_graph::control_graph;
use crate::controls::Controls;
use crate::counts::{LIMIT, own_counts};
use digraph::{Components, Digraph};
use p4x_bits::OutOfMemory;
use p414_names::Names14;
use std::alloc::Global;

/// How much both pipelines together count at most.
const MOST_OF_PIPELINES: u64 = 65_536;

/// What each control comes to, but at most the limit; none where a control calls itself.
fn control_sizes(
    alloc: Global,
    controls: &Controls<'_, '_>,
    graph: &Digraph,
    components: &Components,
) -> Result<Option<Vec<u64>>, OutOfMemory>
    requires graph { graph.now ≡ control_graph controls.now }
    requires components { AreComponents graph.now components.now }
    ensures { IfOk result (λ found. MatchOption found (HasCycle (control_graph controls.now)) (λ sizes. AreSizes (control_graph controls.now) (own_counts 65537 controls.now) 65537 sizes.items)) }
{
    let own = own_counts(alloc, controls)?;
    components.sizes(alloc, graph, &own, LIMIT)
}

/// The size with a number; 0 where there is none.
fn size_at(sizes: &[u64], number: usize) -> u64
    ensures { result ≡ slice_index sizes.now number }
{
    match sizes.get(number) {
        Some(size) => *size,
        None => 0,
    }
}

/// The size of a pipeline; 0 where there is none.
fn pipeline_size(controls: &Controls<'_, '_>, sizes: &[u64], name: &[u8]) -> u64
    ensures { result ≡ pipeline_size controls.now sizes.now name.now }
{
    match controls.number(name) {
        Some(number) => size_at(sizes, number),
        None => 0,
    }
}

/// Whether two sizes together are over what both pipelines count at most.
fn exceed(one: u64, other: u64) -> bool
    ensures { result ≡ nat_lt 65536 (one + other) }
{
    one > MOST_OF_PIPELINES || other > MOST_OF_PIPELINES - one
}

/// Whether both pipelines together are too long.
fn are_too_long(controls: &Controls<'_, '_>, sizes: &[u64]) -> bool
    ensures { result ≡ nat_lt 65536 (pipelines_size controls.now sizes.now) }
{
    exceed(
        pipeline_size(controls, sizes, b"ingress"),
        pipeline_size(controls, sizes, b"egress"),
    )
}

/// Whether C16 is broken, by the graph of controls.
fn has_bad_graph(
    alloc: Global,
    controls: &Controls<'_, '_>,
    graph: &Digraph,
    components: &Components,
) -> Result<bool, OutOfMemory>
    requires known { IsTrue (has_unknown_name controls.now) → ⊥ }
    requires graph { graph.now ≡ control_graph controls.now }
    requires components { AreComponents graph.now components.now }
    ensures { IfOk result (λ bad. IsExact bad (HasBadControl controls.now)) }
{
    match control_sizes(alloc, controls, graph, components)? {
        Some(sizes) => Ok(are_too_long(controls, &sizes)),
        None => Ok(true),
    }
}

/// The same of these controls.
fn are_bad(alloc: Global, controls: &Controls<'_, '_>) -> Result<bool, OutOfMemory>
    requires { IsTrue (has_unknown_name controls.now) → ⊥ }
    ensures { IfOk result (λ bad. IsExact bad (HasBadControl controls.now)) }
{
    let graph = control_graph(alloc, controls)?;
    let components = Components::of(alloc, &graph)?;
    has_bad_graph(alloc, controls, &graph, &components)
}

/// Whether C16 is broken, where C2 isn't. Nothing is expanded for that: its time is linear in the text.
pub fn has_bad_control(alloc: Global, names: &Names14<'_>) -> Result<bool, OutOfMemory>
    requires { IsTrue (has_unknown_name names.now) → ⊥ }
    ensures { IfOk result (λ bad. IsExact bad (HasBadControl names.now)) }
{
    let controls = Controls::of(alloc, names)?;
    are_bad(alloc, &controls)
}
