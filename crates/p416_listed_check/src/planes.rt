// Actions of one table that have one control-plane name (P4_16 1.2, "Control-plane API annotations").
ghost use Rattle.std.specs.Prelude.{◌≡◌, List, map, IfOk};
ghost use Rattle.p416_syntax.specs.Scopes.{Known, plane_name};
ghost use Rattle.p416_syntax.specs.Tables.{is_same_action, sort_plane, action_plane, mixes_up};
ghost use Rattle.p416_names.specs.Seen.{seen_sort};
ghost use Rattle.p416_scopes.specs.Seen.{seen_scope};
ghost use Rattle.p416_listed_check.specs.internal.Mixed.{is_other_at, is_mixed};
ghost use Rattle.std.specs.List.{list_any};

use name_numbers::{Numbering, number_names};
use p4x_bits::{OutOfMemory, Text};
use p416_names::Sort;
use p416_scopes::Scope;
use p416_syntax::{ActionName, Note, name_note};
use std::alloc::Global;

/// The name by which the control plane knows what has these annotations: that of `@name`, else its own.
fn plane_name<'s>(notes: &'s [Note], called: &'s Text) -> &'s [u8]
    ensures { result.now ≡ plane_name notes.now called.now }
{
    match name_note(notes) {
        Some(text) => text.as_slice(),
        None => called.as_slice(),
    }
}

/// The control-plane name of what a name means, where that is an action; else the name.
fn sort_plane<'a>(name: &'a [u8], sort: Sort<'a>) -> &'a [u8]
    ensures { (names : List Known) → result.now ≡ sort_plane name.now (seen_sort names sort.entry) }
{
    match sort {
        Sort::Action(action) => plane_name(action.notes.as_slice(), &action.name),
        _ => name,
    }
}

/// The control-plane name of an action.
fn action_plane<'a>(scope: &Scope<'_, 'a>, action: &'a ActionName) -> &'a [u8]
    ensures { result.now ≡ action_plane (seen_scope scope.now) action.now }
{
    match action {
        ActionName::Declared(name) => {
            sort_plane(name.as_slice(), scope.sort_of(name.as_slice()))
        }
        ActionName::NoAction => b"NoAction",
    }
}

/// The control-plane names of these actions, in order.
fn planes_of<'a>(
    alloc: Global,
    scope: &Scope<'_, 'a>,
    actions: &'a [ActionName],
) -> Result<Vec<&'a [u8]>, OutOfMemory>
    ensures { IfOk result (λ planes. map (λ plane. plane.now) planes.items ≡ map (action_plane (seen_scope scope.now)) actions.now) }
{
    let mut planes = Vec::new(alloc);
    for action in actions {
        planes.push(action_plane(scope, action))?;
    }
    Ok(planes)
}

/// Whether two names are those of one action.
fn is_same_action(first: &ActionName, second: &ActionName) -> bool
    ensures { result ≡ is_same_action first.now second.now }
{
    match first {
        ActionName::Declared(name) => {
            matches!(second, ActionName::Declared(other) if name.as_slice() == other.as_slice())
        }
        ActionName::NoAction => matches!(second, ActionName::NoAction),
    }
}

/// Whether another action than this one stands at a place.
fn is_other_at(actions: &[ActionName], place: usize, action: &ActionName) -> bool
    ensures { result ≡ is_other_at actions.now place action.now }
{
    match actions.get(place) {
        Some(first) => !is_same_action(first, action),
        None => false,
    }
}

/// Whether the first action with the control-plane name of this one is another.
fn is_mixed<'a>(
    scope: &Scope<'_, 'a>,
    planes: &Numbering<'_>,
    actions: &'a [ActionName],
    action: &'a ActionName,
) -> bool
    requires { planes.now ≡ map (action_plane (seen_scope scope.now)) actions.now }
    ensures { result ≡ is_mixed (seen_scope scope.now) actions.now action.now }
{
    match planes.find(action_plane(scope, action)) {
        Some(place) => is_other_at(actions, place as usize, action),
        None => false,
    }
}

/// Whether that is so of one of these.
fn some_mixed<'a>(scope: &Scope<'_, 'a>, planes: &Numbering<'_>, actions: &'a [ActionName]) -> bool
    requires { planes.now ≡ map (action_plane (seen_scope scope.now)) actions.now }
    ensures { result ≡ list_any (is_mixed (seen_scope scope.now) actions.now) actions.now }
{
    for action in actions {
        if is_mixed(scope, planes, actions, action) {
            return true;
        }
    }
    false
}

/// Whether two different actions of these have one control-plane name.
#[tactic(auto, using(crate::proofs::Mixing::mixed_is))]
pub(crate) fn mixes_up<'a>(
    alloc: Global,
    scope: &Scope<'_, 'a>,
    actions: &'a [ActionName],
) -> Result<bool, OutOfMemory>
    ensures { IfOk result (λ mixed. mixed ≡ mixes_up (seen_scope scope.now) actions.now) }
{
    let planes = number_names(alloc, planes_of(alloc, scope, actions)?)?;
    let mixed = some_mixed(scope, &planes, actions);
    Ok(mixed)
}
