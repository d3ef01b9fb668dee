// The actions of a table.
ghost use Rattle.std.specs.Prelude.{◌≡◌, List, [], map, filter_map, option_map, option_and_then, slice_get, IfOk};
ghost use Rattle.std.specs.Option.{option_map_or};
ghost use Rattle.name_numbers.specs.Names.{find_name};
ghost use Rattle.p416_syntax.specs.Scopes.{Known, handed};
ghost use Rattle.p416_syntax.specs.Declarations.{top_names};
ghost use Rattle.p416_names.specs.Seen.{seen_sort};
ghost use Rattle.p416_scopes.specs.Seen.{seen_scope};
ghost use Rattle.v1_core.specs.Signatures.{handed_width};
ghost use Rattle.p416_signature.specs.internal.Gathered.{seen_listed, row_of, row_named, listed_row, row_plane, row_given, given_with, row_sig, sigs_in};

use crate::keys::bits_in;
use crate::order::in_order;
use crate::shapes::plane_name;
use match_core::ActionSig;
use name_numbers::{Numbering, number_names};
use p4x_bits::{Numbers, OutOfMemory, Rows, Text};
use p416_names::{Sort, Top};
use p416_scopes::Scope;
use p416_syntax::{ActionName, Param};
use std::alloc::Global;

/// An action that a table lists, by its control-plane name, with its parameters.
#[derive(Clone, Copy, Drop)]
pub struct Listed<'a> {
    /// The name by which the control plane knows it.
    pub plane: &'a [u8],
    /// Its parameters; none where the name isn't declared as an action.
    pub parameters: &'a [Param],
}

/// The action that a name is declared as; without parameters where it isn't one.
fn listed_sort<'a>(sort: Sort<'a>, name: &'a [u8]) -> Listed<'a>
    ensures { (top : List Known) → seen_listed top result ≡ row_of name.now (seen_sort top sort.entry) }
{
    match sort {
        Sort::Action(action) => Listed {
            plane: plane_name(action.notes.as_slice(), &action.name),
            parameters: action.parameters.as_slice(),
        },
        _ => Listed {
            plane: name,
            parameters: &[],
        },
    }
}

/// The action that a name in a scope means.
fn listed_action<'a>(scope: &Scope<'_, 'a>, name: &'a [u8]) -> Listed<'a>
    ensures { seen_listed (top_names scope.now.top.now) result ≡ row_named (seen_scope scope.now).names name.now }
{
    listed_sort(scope.sort_of(name), name)
}

/// The actions that a table in a scope lists but for `NoAction`, in the order of the text. The one error is want of memory.
pub fn listed_actions<'a>(
    alloc: Global,
    scope: &Scope<'_, 'a>,
    actions: &'a [ActionName],
) -> Result<Vec<Listed<'a>>, OutOfMemory>
    ensures { IfOk result (λ rows. map (seen_listed (top_names scope.now.top.now)) rows.items ≡ filter_map (listed_row (seen_scope scope.now).names) actions.now) }
{
    let mut rows = Vec::new(alloc);
    for action in actions {
        if let ActionName::Declared(name) = action {
            rows.push(listed_action(scope, name.as_slice()))?;
        }
    }
    Ok(rows)
}

/// The control-plane names of listed actions, in the order of the text.
fn planes<'a>(alloc: Global, rows: &[Listed<'a>]) -> Result<Vec<&'a [u8]>, OutOfMemory>
    ensures { IfOk result (λ names. (top : List Known) → map (λ name. name.now) names.items ≡ map row_plane (map (seen_listed top) rows.now)) }
{
    let mut names = Vec::new(alloc);
    for row in rows {
        names.push(row.plane)?;
    }
    Ok(names)
}

/// The listed action at a place.
fn row_at<'a>(rows: &[Listed<'a>], place: usize) -> Option<Listed<'a>>
    ensures { (top : List Known) → option_map (seen_listed top) result ≡ slice_get (map (seen_listed top) rows.now) place }
{
    rows.get(place).copied()
}

/// The first action with a control-plane name, where these are the control-plane names of the actions.
fn row_with<'a>(rows: &[Listed<'a>], names: &Numbering<'_>, name: &[u8]) -> Option<Listed<'a>>
    ensures { (top : List Known) → option_map (seen_listed top) result ≡ option_and_then (slice_get (map (seen_listed top) rows.now)) (find_name names.now name.now) }
{
    match names.find(name) {
        Some(place) => row_at(rows, place as usize),
        None => None,
    }
}

/// The parameters of an action; none where there is no action.
fn given_in<'a>(found: Option<Listed<'a>>) -> &'a [Param]
    ensures { (top : List Known) → map (handed top) result.now ≡ option_map_or row_given (option_map (seen_listed top) found.entry) [] }
{
    match found {
        Some(row) => row.parameters,
        None => &[],
    }
}

/// The parameters of the first action with a control-plane name, where these are the control-plane names of the actions;
/// none where none has it.
fn given_with<'a>(rows: &[Listed<'a>], names: &Numbering<'_>, name: &[u8]) -> &'a [Param]
    ensures { (top : List Known) → map (handed top) result.now ≡ given_with (map (seen_listed top) rows.now) names.now name.now }
{
    given_in(row_with(rows, names, name))
}

/// How wide parameters are, whose types are looked up at the top.
fn widths_of(alloc: Global, top: &Top<'_>, parameters: &[Param]) -> Result<Numbers, OutOfMemory>
    ensures { IfOk result (λ widths. widths ≡ map handed_width (map (handed (top_names top.now)) parameters.now)) }
{
    let mut widths = Numbers::new(alloc);
    for parameter in parameters {
        widths.push(bits_in(top.kind_of_type(&parameter.of)))?;
    }
    Ok(widths)
}

/// The action with a control-plane name, where these are the names of the actions in order.
fn action_sig(
    alloc: Global,
    top: &Top<'_>,
    rows: &[Listed<'_>],
    names: &Numbering<'_>,
    name: &[u8],
) -> Result<ActionSig, OutOfMemory>
    requires { names.now ≡ map row_plane (map (seen_listed (top_names top.now)) rows.now) }
    ensures { IfOk result (λ action. action ≡ row_sig (map (seen_listed (top_names top.now)) rows.now) name.now) }
{
    let widths = widths_of(alloc, top, given_with(rows, names, name))?;
    let name = Text::from_slice(alloc, name)?;
    Ok(ActionSig { name, widths })
}

/// The listed actions with these control-plane names, in order.
fn row_sigs(
    alloc: Global,
    top: &Top<'_>,
    rows: &[Listed<'_>],
    names: &Numbering<'_>,
    ordered: &[&[u8]],
) -> Result<Rows<ActionSig>, OutOfMemory>
    requires { names.now ≡ map row_plane (map (seen_listed (top_names top.now)) rows.now) }
    ensures { IfOk result (λ actions. actions ≡ map (row_sig (map (seen_listed (top_names top.now)) rows.now)) (map (λ name. name.now) ordered.now)) }
{
    let mut actions = Rows::new(alloc);
    for name in ordered {
        actions.push(action_sig(alloc, top, rows, names, name)?)?;
    }
    Ok(actions)
}

/// The actions that a table in a scope lists, by the octet order of their control-plane names, each once; the first of those
/// with one name counts. The one error is want of memory.
#[tactic(auto, using(crate::proofs::Acting::sigs_made))]
pub fn action_sigs<'a>(
    alloc: Global,
    scope: &Scope<'_, 'a>,
    actions: &'a [ActionName],
) -> Result<Rows<ActionSig>, OutOfMemory>
    ensures { IfOk result (λ sigs. sigs ≡ sigs_in (seen_scope scope.now).names actions.now) }
{
    let rows = listed_actions(alloc, scope, actions)?;
    let names = planes(alloc, &rows)?;
    let ordered = in_order(alloc, &names)?;
    let numbers = number_names(alloc, names)?;
    row_sigs(alloc, scope.top, &rows, &numbers, &ordered)
}
