// C13 after expansion.
ghost use Rattle.std.specs.Prelude.{◌≡◌, false, map, IfOk};
ghost use Rattle.p414_syntax.specs.Exact.{IsExact};
ghost use Rattle.p414_syntax.specs.Breaks.{BreaksNone, declaration_rules};
ghost use Rattle.p414_syntax.specs.Arguments.{invocations_of, actions};
ghost use Rattle.p414_syntax.specs.Actions.{HasBadAction};
ghost use Rattle.p414_syntax.specs.Calls.{has_wrong_call, ExpandsToWrongCall};
ghost use Rattle.p414_action_check.specs.internal.Known.{IsKnown};
ghost use Rattle.p414_expanded_check.specs.internal.Passing.{IsRefused};
ghost use Rattle.p414_expanded_check.specs.internal.Flow.{starts, count, IsOrder, ArePasses};

use crate::flow::{Begins, Pass, all_passes, begins_of};
use crate::marks::flags_at;
use crate::refused::some_refused;
use digraph::Components;
use p4x_bits::OutOfMemory;
use p414_calls::{ActionCalls, action_graph, calls_of};
use p414_names::Names14;
use p414_syntax::ArgumentPlace::{self, *};
use std::alloc::Global;

/// The places of primitives, by their numbers.
const PLACES: [ArgumentPlace; 11] = [
    Target,
    Source,
    Unsigned,
    Header,
    Stack,
    Elements,
    Counter,
    Register,
    Meter,
    Calculation,
    List,
];

/// Whether what is given for a parameter that comes to stand at a place isn't taken there.
fn is_refused_at(
    alloc: Global,
    names: &Names14<'_>,
    calls: &[ActionCalls<'_>],
    begins: &Begins,
    passes: &[Pass],
    place: ArgumentPlace,
) -> Result<bool, OutOfMemory>
    requires known { IsKnown names.now }
    requires calls { calls.now ≡ map invocations_of (actions names.now) }
    requires starts { begins.now.starts.items ≡ starts names.now }
    requires count { begins.now.count ≡ count names.now }
    requires passes { ArePasses names.now passes.now }
    ensures { IfOk result (λ refused. IsExact refused (IsRefused names.now place)) }
{
    let flags = flags_at(alloc, begins.count, place, passes)?;
    some_refused(names, place, &flags, &begins.starts, calls)
}

/// The same of any place.
fn is_refused_somewhere(
    alloc: Global,
    names: &Names14<'_>,
    calls: &[ActionCalls<'_>],
    begins: &Begins,
    passes: &[Pass],
) -> Result<bool, OutOfMemory>
    requires known { IsKnown names.now }
    requires calls { calls.now ≡ map invocations_of (actions names.now) }
    requires starts { begins.now.starts.items ≡ starts names.now }
    requires count { begins.now.count ≡ count names.now }
    requires passes { ArePasses names.now passes.now }
    ensures { IfOk result (λ wrong. IsExact wrong (ExpandsToWrongCall names.now)) }
{
    for place in &PLACES {
        if is_refused_at(alloc, names, calls, begins, passes, *place)? {
            return Ok(true);
        }
    }
    Ok(false)
}

/// Whether a program expands to a wrong call, by an order of its actions in which each stands behind those that it calls.
fn is_wrong_in_order(
    alloc: Global,
    names: &Names14<'_>,
    calls: &[ActionCalls<'_>],
    order: &[usize],
) -> Result<bool, OutOfMemory>
    requires known { IsKnown names.now }
    requires calls { calls.now ≡ map invocations_of (actions names.now) }
    requires order { IsOrder names.now order.now }
    ensures { IfOk result (λ wrong. IsExact wrong (ExpandsToWrongCall names.now)) }
{
    let begins = begins_of(alloc, names.decls())?;
    let passes = all_passes(alloc, names, &begins.starts, calls, order)?;
    is_refused_somewhere(alloc, names, calls, &begins, &passes)
}

/// The same, by the calls of its actions.
fn is_wrong(
    alloc: Global,
    names: &Names14<'_>,
    calls: &[ActionCalls<'_>],
) -> Result<bool, OutOfMemory>
    requires known { IsKnown names.now }
    requires calls { calls.now ≡ map invocations_of (actions names.now) }
    requires actions { HasBadAction names.now → ⊥ }
    ensures { IfOk result (λ wrong. IsExact wrong (ExpandsToWrongCall names.now)) }
{
    let graph = action_graph(alloc, names, calls)?;
    let components = Components::of(alloc, &graph)?;
    is_wrong_in_order(alloc, names, calls, components.order())
}

/// Whether a call is wrong after expansion (C13). No rule of declarations is broken, no call is wrong as it is written, and
/// C15 isn't broken. In time linear in the program, as no action is expanded; the one error is want of memory.
pub fn expands_to_wrong_call(alloc: Global, names: &Names14<'_>) -> Result<bool, OutOfMemory>
    requires declared { BreaksNone names.now declaration_rules }
    requires calls { has_wrong_call names.now ≡ false }
    requires actions { HasBadAction names.now → ⊥ }
    ensures { IfOk result (λ wrong. IsExact wrong (ExpandsToWrongCall names.now)) }
{
    let calls = calls_of(alloc, names.decls())?;
    is_wrong(alloc, names, &calls)
}
