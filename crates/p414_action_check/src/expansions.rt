// C15: what actions expand to.
ghost use Rattle.std.specs.Prelude.{◌≡◌, ◌⊎◌, false, map, nat_lt, IfOk, MatchOption};
ghost use Rattle.std.specs.List.{list_any};
ghost use Rattle.digraph.specs.Components.{AreComponents};
ghost use Rattle.digraph.specs.Expansions.{AreSizes, HasCycle};
ghost use Rattle.p414_syntax.specs.Exact.{IsExact};
ghost use Rattle.p414_syntax.specs.Breaks.{BreaksNone, declaration_rules};
ghost use Rattle.p414_syntax.specs.Calls.{has_wrong_call};
ghost use Rattle.p414_syntax.specs.Arguments.{invocations_of, actions};
ghost use Rattle.p414_syntax.specs.Actions.{HasBadAction, ActionsTooLong};
ghost use Rattle.p414_action_check.specs.internal.Counted.{action_graph, own_counts, total_from, exceeds};
ghost use Rattle.p414_action_check.specs.internal.Known.{IsKnown, AreInputs, AreActionSizes};

use crate::counts::own_counts;
use crate::hashes::{LIMIT, input_lengths};
use crate::listed::{all_numbers, total};
use digraph::{Components, Digraph};
use p4x_bits::OutOfMemory;
use p414_calls::{ActionCalls, action_graph, calls_of};
use p414_list_check::list_lengths;
use p414_names::Names14;
use std::alloc::Global;

/// How many primitives an action comes to at most.
const MOST_OF_AN_ACTION: u64 = 4_096;

/// How many primitives the actions of all tables come to at most.
const MOST_OF_ALL: u64 = 65_536;

/// Whether an action comes to too many primitives.
fn some_too_long(sizes: &[u64]) -> bool
    ensures { result ≡ list_any (nat_lt 4096) sizes.now }
{
    for size in sizes {
        if *size > MOST_OF_AN_ACTION {
            return true;
        }
    }
    false
}

/// Whether a total, if there is one, is over what all actions may come to.
fn is_too_long(total: Option<u64>) -> bool
    ensures { result ≡ exceeds total 65536 }
{
    match total {
        Some(total) => total > MOST_OF_ALL,
        None => false,
    }
}

/// Whether these actions come to too many primitives together.
fn are_too_long(sizes: &[u64], actions: &[Option<usize>]) -> bool
    ensures { result ≡ exceeds (total_from 65537 sizes.now 0 actions.now) 65536 }
{
    is_too_long(total(sizes, actions))
}

/// Whether the actions that tables list come to too many primitives together.
fn has_long_tables(alloc: Global, names: &Names14<'_>, sizes: &[u64]) -> Result<bool, OutOfMemory>
    requires known { IsKnown names.now }
    requires sizes { AreActionSizes names.now sizes.now }
    ensures { IfOk result (λ bad. IsExact bad (ActionsTooLong names.now)) }
{
    let listed = all_numbers(alloc, names)?;
    Ok(are_too_long(sizes, &listed))
}

/// Whether an action, or all that tables list, come to too many primitives, where no action calls itself.
fn are_sizes_bad(alloc: Global, names: &Names14<'_>, sizes: &[u64]) -> Result<bool, OutOfMemory>
    requires known { IsKnown names.now }
    requires sizes { AreActionSizes names.now sizes.now }
    ensures { IfOk result (λ bad. IsExact bad (HasBadAction names.now)) }
{
    if some_too_long(sizes) {
        return Ok(true);
    }
    has_long_tables(alloc, names, sizes)
}

/// How many primitives each action comes to, but at most the limit; none where an action calls itself.
fn action_sizes(
    alloc: Global,
    names: &Names14<'_>,
    inputs: &[u64],
    calls: &[ActionCalls<'_>],
    graph: &Digraph,
    components: &Components,
) -> Result<Option<Vec<u64>>, OutOfMemory>
    requires calls { calls.now ≡ map invocations_of (actions names.now) }
    requires graph { graph.now ≡ action_graph names.now }
    requires components { AreComponents graph.now components.now }
    ensures { IfOk result (λ found. MatchOption found (HasCycle (action_graph names.now)) (λ sizes. AreSizes (action_graph names.now) (own_counts names.now inputs.now) 65537 sizes.items)) }
{
    let own = own_counts(alloc, names, inputs, calls)?;
    components.sizes(alloc, graph, &own, LIMIT)
}

/// Whether C15 is broken, by the graph of the actions.
fn is_graph_bad(
    alloc: Global,
    names: &Names14<'_>,
    inputs: &[u64],
    calls: &[ActionCalls<'_>],
    graph: &Digraph,
    components: &Components,
) -> Result<bool, OutOfMemory>
    requires known { IsKnown names.now }
    requires inputs { AreInputs names.now inputs.now }
    requires calls { calls.now ≡ map invocations_of (actions names.now) }
    requires graph { graph.now ≡ action_graph names.now }
    requires components { AreComponents graph.now components.now }
    ensures { IfOk result (λ bad. IsExact bad (HasBadAction names.now)) }
{
    match action_sizes(alloc, names, inputs, calls, graph, components)? {
        Some(sizes) => are_sizes_bad(alloc, names, &sizes),
        None => Ok(true),
    }
}

/// Whether C15 is broken, by the calls of the actions.
fn are_calls_bad(
    alloc: Global,
    names: &Names14<'_>,
    inputs: &[u64],
    calls: &[ActionCalls<'_>],
) -> Result<bool, OutOfMemory>
    requires known { IsKnown names.now }
    requires inputs { AreInputs names.now inputs.now }
    requires calls { calls.now ≡ map invocations_of (actions names.now) }
    ensures { IfOk result (λ bad. IsExact bad (HasBadAction names.now)) }
{
    let graph = action_graph(alloc, names, calls)?;
    let components = Components::of(alloc, &graph)?;
    is_graph_bad(alloc, names, inputs, calls, &graph, &components)
}

/// Whether C15 is broken, by how many items each calculation takes.
fn are_inputs_bad(alloc: Global, names: &Names14<'_>, inputs: &[u64]) -> Result<bool, OutOfMemory>
    requires known { IsKnown names.now }
    requires inputs { AreInputs names.now inputs.now }
    ensures { IfOk result (λ bad. IsExact bad (HasBadAction names.now)) }
{
    let calls = calls_of(alloc, names.decls())?;
    are_calls_bad(alloc, names, inputs, &calls)
}

/// How many items each calculation takes; none where a list holds itself, which is refused before.
fn calculation_inputs(alloc: Global, names: &Names14<'_>) -> Result<Option<Vec<u64>>, OutOfMemory>
    requires { IsKnown names.now }
    ensures { IfOk result (λ found. MatchOption found ⊥ (λ inputs. AreInputs names.now inputs.items)) }
{
    match list_lengths(alloc, names)? {
        Some(lengths) => Ok(Some(input_lengths(alloc, names, &lengths)?)),
        None => Ok(None),
    }
}

/// Whether C15 is broken.
fn is_bad(alloc: Global, names: &Names14<'_>) -> Result<bool, OutOfMemory>
    requires { IsKnown names.now }
    ensures { IfOk result (λ bad. IsExact bad (HasBadAction names.now)) }
{
    match calculation_inputs(alloc, names)? {
        Some(inputs) => are_inputs_bad(alloc, names, &inputs),
        None => Ok(false),
    }
}

/// Whether C15 is broken: whether an action calls itself, or actions expand to too much. No rule of declarations is broken,
/// and no call is wrong as it is written. In time linear in the program, as no action is expanded; the one error is want
/// of memory.
pub fn has_bad_action(alloc: Global, names: &Names14<'_>) -> Result<bool, OutOfMemory>
    requires declared { BreaksNone names.now declaration_rules }
    requires calls { has_wrong_call names.now ≡ false }
    ensures { IfOk result (λ bad. IsExact bad (HasBadAction names.now)) }
{
    is_bad(alloc, names)
}
