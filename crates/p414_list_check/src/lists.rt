// C8: field lists and calculated fields.
ghost use Rattle.std.specs.Prelude.{◌≡◌, ◌||◌, nat_lt, IfOk, MatchOption};
ghost use Rattle.std.specs.List.{list_any};
ghost use Rattle.digraph.specs.Components.{AreComponents};
ghost use Rattle.digraph.specs.Expansions.{AreSizes, HasCycle};
ghost use Rattle.p414_syntax.specs.Lists.{HasBadList, HoldsItself, InputsAreBad};
ghost use Rattle.p414_list_check.specs.Lengths.{AreLengths};
ghost use Rattle.p414_list_check.specs.internal.Expanded.{list_graph, own_counts, total_from};
ghost use Rattle.p414_list_check.specs.internal.Measures.{own_of, exceeds};
ghost use Rattle.p414_syntax.specs.Exact.{IsExact};
ghost use Rattle.p414_list_check.specs.internal.Judged.{IsExpandedBadly};
ghost use Rattle.p414_list_check.specs.declared.expanded.Measure.TheVariants.{Items, Standard};

use crate::calculated::has_flat_fault;
use crate::expanded::{LIMIT, Measure, own_counts};
use crate::graph::list_graph;
use crate::inputs::{input_numbers, total};
use digraph::{Components, Digraph};
use p4x_bits::OutOfMemory;
use p414_names::Names14;
use std::alloc::Global;

/// How many items a list has at most when it is expanded.
const MOST_OF_A_LIST: u64 = 4_096;

/// How many items all entries of calculated fields have at most.
const MOST_OF_ALL: u64 = 65_536;

/// What each list comes to, but at most the limit; none where a list holds itself.
fn list_sizes(
    alloc: Global,
    names: &Names14<'_>,
    graph: &Digraph,
    components: &Components,
    measure: Measure,
) -> Result<Option<Vec<u64>>, OutOfMemory>
    requires graph { graph.now ≡ list_graph names.now }
    requires components { AreComponents graph.now components.now }
    ensures { IfOk result (λ found. MatchOption found (HasCycle (list_graph names.now)) (λ sizes. AreSizes (list_graph names.now) (own_counts 65537 (own_of names.now measure) names.now) 65537 sizes.items)) }
{
    let own = own_counts(alloc, names, measure)?;
    components.sizes(alloc, graph, &own, LIMIT)
}

/// How many items each field list has when it is expanded, by its number, but at most 65,537; none exactly where a list
/// holds itself. The one error is want of memory.
pub fn list_lengths(alloc: Global, names: &Names14<'_>) -> Result<Option<Vec<u64>>, OutOfMemory>
    ensures { IfOk result (λ found. MatchOption found (HoldsItself names.now) (λ lengths. AreLengths names.now lengths.items)) }
{
    let graph = list_graph(alloc, names)?;
    let components = Components::of(alloc, &graph)?;
    list_sizes(alloc, names, &graph, &components, Measure::Items)
}

/// Whether a list is too long when it is expanded.
fn some_too_long(sizes: &[u64]) -> bool
    ensures { result ≡ list_any (nat_lt 4096) sizes.now }
{
    for size in sizes {
        if *size > MOST_OF_A_LIST {
            return true;
        }
    }
    false
}

/// Whether a total, if there is one, is over a number.
fn exceeds(total: Option<u64>, most: u64) -> bool
    ensures { result ≡ exceeds total most }
{
    match total {
        Some(total) => total > most,
        None => false,
    }
}

/// Whether these lists together have too many items, or a field of standard metadata.
fn is_bad_total(lengths: &[u64], standards: &[u64], inputs: &[Option<usize>]) -> bool
    ensures { result ≡ (exceeds (total_from 65537 lengths.now 0 inputs.now) 65536 || exceeds (total_from 65537 standards.now 0 inputs.now) 0) }
{
    exceeds(total(lengths, inputs), MOST_OF_ALL) || exceeds(total(standards, inputs), 0)
}

/// Whether the inputs of all entries of calculated fields have too many items, or a field of standard metadata.
fn are_inputs_bad(
    alloc: Global,
    names: &Names14<'_>,
    lengths: &[u64],
    standards: &[u64],
) -> Result<bool, OutOfMemory>
    requires lengths { AreSizes (list_graph names.now) (own_counts 65537 (own_of names.now Items) names.now) 65537 lengths.now }
    requires standards { AreSizes (list_graph names.now) (own_counts 65537 (own_of names.now Standard) names.now) 65537 standards.now }
    ensures { IfOk result (λ bad. IsExact bad (InputsAreBad names.now)) }
{
    let inputs = input_numbers(alloc, names)?;
    Ok(is_bad_total(lengths, standards, &inputs))
}

/// The same, given how long each list is.
fn has_bad_input(
    alloc: Global,
    names: &Names14<'_>,
    graph: &Digraph,
    components: &Components,
    lengths: &[u64],
) -> Result<bool, OutOfMemory>
    requires graph { graph.now ≡ list_graph names.now }
    requires components { AreComponents graph.now components.now }
    requires lengths { AreSizes (list_graph names.now) (own_counts 65537 (own_of names.now Items) names.now) 65537 lengths.now }
    ensures { IfOk result (λ bad. IsExact bad (InputsAreBad names.now)) }
{
    match list_sizes(alloc, names, graph, components, Measure::Standard)? {
        Some(standards) => are_inputs_bad(alloc, names, lengths, &standards),
        None => Ok(true),
    }
}

/// Whether a list is too long when it is expanded, or is a bad input of a calculated field, given how long each list is.
fn are_lengths_bad(
    alloc: Global,
    names: &Names14<'_>,
    graph: &Digraph,
    components: &Components,
    lengths: &[u64],
) -> Result<bool, OutOfMemory>
    requires graph { graph.now ≡ list_graph names.now }
    requires components { AreComponents graph.now components.now }
    requires lengths { AreSizes (list_graph names.now) (own_counts 65537 (own_of names.now Items) names.now) 65537 lengths.now }
    ensures { IfOk result (λ bad. IsExact bad (IsExpandedBadly names.now)) }
{
    if some_too_long(lengths) {
        return Ok(true);
    }
    has_bad_input(alloc, names, graph, components, lengths)
}

/// Whether a list holds itself, is too long when it is expanded, or is a bad input of a calculated field.
fn is_expanded_badly(
    alloc: Global,
    names: &Names14<'_>,
    graph: &Digraph,
    components: &Components,
) -> Result<bool, OutOfMemory>
    requires graph { graph.now ≡ list_graph names.now }
    requires components { AreComponents graph.now components.now }
    ensures { IfOk result (λ bad. IsExact bad (IsExpandedBadly names.now)) }
{
    match list_sizes(alloc, names, graph, components, Measure::Items)? {
        Some(lengths) => are_lengths_bad(alloc, names, graph, components, &lengths),
        None => Ok(true),
    }
}

/// The same, by the graph of the lists.
fn has_bad_graph(alloc: Global, names: &Names14<'_>) -> Result<bool, OutOfMemory>
    ensures { IfOk result (λ bad. IsExact bad (IsExpandedBadly names.now)) }
{
    let graph = list_graph(alloc, names)?;
    let components = Components::of(alloc, &graph)?;
    is_expanded_badly(alloc, names, &graph, &components)
}

/// Whether C8 is broken.
pub fn has_bad_list(alloc: Global, names: &Names14<'_>) -> Result<bool, OutOfMemory>
    ensures { IfOk result (λ bad. IsExact bad (HasBadList names.now)) }
{
    if has_flat_fault(names) {
        return Ok(true);
    }
    has_bad_graph(alloc, names)
}
