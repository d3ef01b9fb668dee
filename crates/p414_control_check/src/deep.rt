// C28: blocks that nest too deep when controls are expanded.
ghost use Rattle.std.specs.Prelude.{◌≡◌, nat_lt, IfOk, IsTrue};
ghost use Rattle.std.specs.List.{list_any};
ghost use Rattle.digraph.specs.Components.{AreComponents};
ghost use Rattle.p414_syntax.specs.Controls.{ControlCallsItself};
ghost use Rattle.p414_syntax.specs.Exact.{IsExact};
ghost use Rattle.p414_syntax.specs.Nesting.{NestsTooDeep};
ghost use Rattle.p414_syntax.specs.Unknown.{has_unknown_name};
ghost use Rattle.p414_control_check.specs.internal.Depths.{AreDepths};
ghost use Rattle.p414_control_check.specs.internal.Expanded.{control_graph};

use crate::control_graph::control_graph;
use crate::controls::Controls;
use crate::depth::depth_at;
use digraph::Components;
use p4x_bits::OutOfMemory;
use p414_names::Names14;
use std::alloc::Global;

/// How deep blocks nest at most within the block of a control, which is itself the first.
const MOST_WITHIN: u64 = 63;

/// How deep blocks nest within each control, but at most 65.
fn control_depths(
    alloc: Global,
    controls: &Controls<'_, '_>,
    components: &Components,
) -> Result<Vec<u64>, OutOfMemory>
    requires known { IsTrue (has_unknown_name controls.now) → ⊥ }
    requires components { AreComponents (control_graph controls.now) components.now }
    requires acyclic { ControlCallsItself controls.now → ⊥ }
    ensures { IfOk result (λ depths. AreDepths controls.now depths.items) }
{
    let mut depths = vec![in alloc; 0u64; controls.len()]?;
    for node in components.order() {
        depths[*node] = depth_at(alloc, controls, &depths, *node)?;
    }
    Ok(depths)
}

/// Whether one of these is too deep.
fn some_too_deep(depths: &[u64]) -> bool
    ensures { result ≡ list_any (nat_lt 63) depths.now }
{
    for depth in depths {
        if *depth > MOST_WITHIN {
            return true;
        }
    }
    false
}

/// Whether the blocks of a control nest too deep, by the graph of controls.
fn has_deep_control(
    alloc: Global,
    controls: &Controls<'_, '_>,
    components: &Components,
) -> Result<bool, OutOfMemory>
    requires known { IsTrue (has_unknown_name controls.now) → ⊥ }
    requires components { AreComponents (control_graph controls.now) components.now }
    requires acyclic { ControlCallsItself controls.now → ⊥ }
    ensures { IfOk result (λ deep. IsExact deep (NestsTooDeep controls.now)) }
{
    let depths = control_depths(alloc, controls, components)?;
    Ok(some_too_deep(&depths))
}

/// The same of these controls.
fn nest_too_deep(alloc: Global, controls: &Controls<'_, '_>) -> Result<bool, OutOfMemory>
    requires known { IsTrue (has_unknown_name controls.now) → ⊥ }
    requires acyclic { ControlCallsItself controls.now → ⊥ }
    ensures { IfOk result (λ deep. IsExact deep (NestsTooDeep controls.now)) }
{
    let graph = control_graph(alloc, controls)?;
    let components = Components::of(alloc, &graph)?;
    has_deep_control(alloc, controls, &components)
}

/// Whether the blocks of a control, expanded, nest over 64 deep, which breaks C28. Nothing is expanded for that: its time
/// is linear in the text. C2 has to hold, and of C16 that no control calls itself.
pub fn nests_too_deep(alloc: Global, names: &Names14<'_>) -> Result<bool, OutOfMemory>
    requires known { IsTrue (has_unknown_name names.now) → ⊥ }
    requires acyclic { ControlCallsItself names.now → ⊥ }
    ensures { IfOk result (λ deep. IsExact deep (NestsTooDeep names.now)) }
{
    let controls = Controls::of(alloc, names)?;
    nest_too_deep(alloc, &controls)
}
