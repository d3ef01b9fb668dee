// The actions that a table lists (P4_16 1.2, "Tables", "Control-plane API annotations").
ghost use Rattle.std.specs.Prelude.{◌≡◌, [], List, map, filter_map, option_map, option_and_then, slice_get, IfOk};
ghost use Rattle.std.specs.Option.{option_map_or};
ghost use Rattle.name_numbers.specs.Names.{find_name};
ghost use Rattle.p416_syntax.specs.declared.controls.ActionName.TheVariants as action_name;
ghost use Rattle.p416_syntax.specs.Scopes.{Known};
ghost use Rattle.p416_syntax.specs.Tables.{sort_plane, action_plane};
ghost use Rattle.p416_names.specs.Seen.{seen_sort};
ghost use Rattle.p416_scopes.specs.Seen.{seen_scope};
ghost use Rattle.v1_ready_tables.specs.internal.Listed.{seen_listed, listed_in, row_plane, row_name, name_among};

use name_numbers::Numbering;
use p4x_bits::OutOfMemory;
use p416_names::Sort;
use p416_scopes::Scope;
use p416_signature::plane_name;
use p416_syntax::ActionName;
use std::alloc::Global;

/// An action that a table lists, by its name and by its control-plane name.
#[derive(Clone, Copy, Drop)]
pub(crate) struct ListedAction<'a> {
    /// Its name.
    pub(crate) name: &'a [u8],
    /// Its control-plane name.
    pub(crate) plane: &'a [u8],
}

/// The control-plane name of what a name is declared as; the name itself where that is no action.
fn plane_of_sort<'a>(sort: Sort<'a>, name: &'a [u8]) -> &'a [u8]
    ensures { (top : List Known) → result.now ≡ sort_plane name.now (seen_sort top sort.entry) }
{
    match sort {
        Sort::Action(action) => plane_name(action.notes.as_slice(), &action.name),
        _ => name,
    }
}

/// The control-plane name of the action that a name means in a scope.
pub(crate) fn plane_of<'a>(scope: &Scope<'_, 'a>, name: &'a [u8]) -> &'a [u8]
    ensures { result.now ≡ action_plane (seen_scope scope.now) (action_name.Declared name.now) }
{
    plane_of_sort(scope.sort_of(name), name)
}

/// The actions that a table lists but for `NoAction`, in the order of the text.
pub(crate) fn listed_actions<'a>(
    alloc: Global,
    scope: &Scope<'_, 'a>,
    actions: &'a [ActionName],
) -> Result<Vec<ListedAction<'a>>, OutOfMemory>
    ensures { IfOk result (λ rows. map seen_listed rows.items ≡ filter_map (listed_in (seen_scope scope.now)) actions.now) }
{
    let mut rows = Vec::new(alloc);
    for action in actions {
        if let ActionName::Declared(name) = action {
            let name = name.as_slice();
            rows.push(ListedAction {
                name,
                plane: plane_of(scope, name),
            })?;
        }
    }
    Ok(rows)
}

/// The control-plane names of listed actions, in order.
pub(crate) fn planes<'a>(
    alloc: Global,
    rows: &[ListedAction<'a>],
) -> Result<Vec<&'a [u8]>, OutOfMemory>
    ensures { IfOk result (λ names. map (λ name. name.now) names.items ≡ map row_plane (map seen_listed rows.now)) }
{
    let mut names = Vec::new(alloc);
    for row in rows {
        names.push(row.plane)?;
    }
    Ok(names)
}

/// The listed action at a place.
fn row_at<'a>(rows: &[ListedAction<'a>], place: usize) -> Option<ListedAction<'a>>
    ensures { option_map seen_listed result ≡ slice_get (map seen_listed rows.now) place }
{
    rows.get(place).copied()
}

/// The first listed action with a control-plane name, where these are the control-plane names of the actions.
fn row_with<'a>(
    rows: &[ListedAction<'a>],
    names: &Numbering<'_>,
    plane: &[u8],
) -> Option<ListedAction<'a>>
    ensures { option_map seen_listed result ≡ option_and_then (slice_get (map seen_listed rows.now)) (find_name names.now plane.now) }
{
    match names.find(plane) {
        Some(place) => row_at(rows, place as usize),
        None => None,
    }
}

/// The name of an action; an empty one where there is none.
fn name_of(found: Option<ListedAction<'_>>) -> &[u8]
    ensures { result.now ≡ option_map_or row_name (option_map seen_listed found.entry) [] }
{
    match found {
        Some(row) => row.name,
        None => &[],
    }
}

/// The name of the first listed action with a control-plane name, where these are the control-plane names of the actions; an
/// empty one where none has it.
pub(crate) fn name_with<'a>(
    rows: &[ListedAction<'a>],
    names: &Numbering<'_>,
    plane: &[u8],
) -> &'a [u8]
    ensures { result.now ≡ name_among (map seen_listed rows.now) names.now plane.now }
{
    name_of(row_with(rows, names, plane))
}
