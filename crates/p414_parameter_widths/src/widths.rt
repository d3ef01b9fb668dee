// The widths of the parameters of all actions, in the order in which actions call each other.
ghost use Rattle.std.specs.Prelude.{◌≡◌, [], map, option_to_list, replicate, slice_index, slice_index_or, IfOk, OnOk, ◌++◌};
ghost use Rattle.std.specs.Option.{option_map_or};
ghost use Rattle.digraph.specs.Components.{AreComponents};
ghost use Rattle.p414_syntax.specs.Actions.{ActionCallsItself};
ghost use Rattle.p414_syntax.specs.Arguments.{action_in, action_number, actions, invocations_of};
ghost use Rattle.p414_action_check.specs.internal.Counted.{action_graph};
ghost use Rattle.p414_sem.specs.Signatures.{parameter_widths};
ghost use Rattle.p414_parameter_widths.specs.Widths.{AreWidths};
ghost use Rattle.p414_parameter_widths.specs.internal.Noting.{noted_calls, parameter_count, widths_at};

use crate::row::{blank_row, note_calls, row_at, widths_of};
use digraph::Components;
use p4x_bits::{Numbers, OutOfMemory};
use p414_calls::{ActionCalls, action_graph, action_number, calls_of};
use p414_names::Names14;
use p414_syntax::Decl;
use std::alloc::Global;

/// Puts the number of parameters last, if a declaration is an action.
fn add_count(found: &mut Vec<usize>, decl: &Decl) -> Result<(), OutOfMemory>
    ensures { OnOk result (found.new.items ≡ found.old.items ++ map parameter_count (option_to_list (action_in decl.now))) }
{
    if let Decl::Action(action) = decl {
        found.push(action.parameters.len())?;
    }
    Ok(())
}

/// How many parameters each action has, in order. The one error is want of memory.
#[tactic(auto, using(crate::proofs::Loops::count_now))]
fn parameter_counts(alloc: Global, decls: &[Decl]) -> Result<Vec<usize>, OutOfMemory>
    ensures { IfOk result (λ found. found.items ≡ map parameter_count (actions decls.now)) }
{
    let mut found = Vec::new(alloc);
    for decl in decls {
        add_count(&mut found, decl)?;
    }
    Ok(found)
}

/// So many actions, of whose parameters nothing is known.
fn blank_rows(alloc: Global, count: usize) -> Result<Vec<Numbers>, OutOfMemory>
    ensures { IfOk result (λ rows. rows.items ≡ replicate count []) }
{
    let mut rows = Vec::new(alloc);
    for _ in 0..count {
        rows.push(Numbers::new(alloc))?;
    }
    Ok(rows)
}

/// The number at a place, and 0 where there is none.
fn count_at(counts: &[usize], place: usize) -> usize
    ensures { result ≡ slice_index counts.now place }
{
    match counts.get(place) {
        Some(count) => *count,
        None => 0,
    }
}

/// What the calls of the action with this number ask; nothing where no action has it.
fn note_body(
    alloc: Global,
    row: &mut [Option<u128>],
    names: &Names14<'_>,
    rows: &[Numbers],
    calls: &[ActionCalls<'_>],
    action: usize,
) -> Result<(), OutOfMemory>
    ensures { OnOk result (row.new ≡ noted_calls names.now rows.now row.old (slice_index_or calls.now action [])) }
{
    match calls.get(action) {
        Some(body) => note_calls(alloc, row, names, rows, body.as_slice()),
        None => Ok(()),
    }
}

/// The widths of the parameters of an action, where those of the actions that it calls are known.
fn action_widths(
    alloc: Global,
    names: &Names14<'_>,
    rows: &[Numbers],
    calls: &[ActionCalls<'_>],
    counts: &[usize],
    action: usize,
) -> Result<Numbers, OutOfMemory>
    ensures { IfOk result (λ widths. widths ≡ widths_at names.now rows.now (slice_index counts.now action) (slice_index_or calls.now action [])) }
{
    let mut row = blank_row(alloc, count_at(counts, action))?;
    note_body(alloc, &mut row, names, rows, calls, action)?;
    widths_of(alloc, &row)
}

/// The widths of the parameters of all actions, callees first.
fn all_widths(
    alloc: Global,
    names: &Names14<'_>,
    calls: &[ActionCalls<'_>],
    counts: &[usize],
    components: &Components,
) -> Result<Vec<Numbers>, OutOfMemory>
    requires calls { calls.now ≡ map invocations_of (actions names.now) }
    requires counts { counts.now ≡ map parameter_count (actions names.now) }
    requires components { AreComponents (action_graph names.now) components.now }
    requires acyclic { ActionCallsItself names.now → ⊥ }
    ensures { IfOk result (λ rows. AreWidths names.now rows.items) }
{
    let mut rows = blank_rows(alloc, calls.len())?;
    for action in components.order() {
        rows[*action] = action_widths(alloc, names, &rows, calls, counts, *action)?;
    }
    Ok(rows)
}

/// The same, by the calls of the actions.
fn widths_by_calls(
    alloc: Global,
    names: &Names14<'_>,
    calls: &[ActionCalls<'_>],
) -> Result<Vec<Numbers>, OutOfMemory>
    requires calls { calls.now ≡ map invocations_of (actions names.now) }
    requires acyclic { ActionCallsItself names.now → ⊥ }
    ensures { IfOk result (λ rows. AreWidths names.now rows.items) }
{
    let graph = action_graph(alloc, names, calls)?;
    let components = Components::of(alloc, &graph)?;
    let counts = parameter_counts(alloc, names.decls())?;
    all_widths(alloc, names, calls, &counts, &components)
}

/// The widths of the parameters of each action, action after action in the order of the text, in bits: the greatest that
/// the uses of the parameter ask, and 8 where it isn't used. No action calls itself. In time linear in the program, as no
/// action is expanded; the one error is want of memory.
pub fn parameter_widths(alloc: Global, names: &Names14<'_>) -> Result<Vec<Numbers>, OutOfMemory>
    requires { ActionCallsItself names.now → ⊥ }
    ensures { IfOk result (λ rows. AreWidths names.now rows.items) }
{
    let calls = calls_of(alloc, names.decls())?;
    widths_by_calls(alloc, names, &calls)
}

/// The widths of the parameters of the action with this name, by those of all actions; none where no action has it.
#[tactic(auto, using(crate::proofs::Ending::widths_by_name))]
pub fn widths_of_action<'r>(names: &Names14<'_>, rows: &'r [Numbers], name: &[u8]) -> &'r [u128]
    requires { AreWidths names.now rows.now }
    ensures { result.now ≡ option_map_or (parameter_widths names.now) (action_number names.now name.now) [] }
{
    match action_number(names, name) {
        Some(action) => row_at(rows, action),
        None => &[],
    }
}
