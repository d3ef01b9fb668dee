// The parameters of the actions that a table lists (P4_16 1.2, "Actions", "Tables").
ghost use Rattle.std.specs.Prelude.{◌≡◌, map, IfOk, OnOk};
ghost use Rattle.std.specs.List.{list_any};
ghost use Rattle.p416_syntax.specs.declared.controls.ActionName.TheVariants as action_name;
ghost use Rattle.p416_syntax.specs.Scopes.{handed};
ghost use Rattle.p416_syntax.specs.Declarations.{top_names, sort_parameters};
ghost use Rattle.p416_syntax.specs.Tables.{is_not_given, is_bad_action};
ghost use Rattle.p416_names.specs.Seen.{seen_sort};
ghost use Rattle.p416_scopes.specs.Seen.{seen_scope};
ghost use Rattle.p416_listed_check.specs.Listings.{AreGiven};

use p4x_bits::OutOfMemory;
use p416_name_set::NameSet;
use p416_names::{Kind, Sort, Top};
use p416_scopes::Scope;
use p416_syntax::{ActionName, Param};

/// Whether an entry of a table can't give a parameter: it has a direction, or isn't bits.
fn is_not_given(top: &Top<'_>, parameter: &Param) -> bool
    ensures { result ≡ is_not_given (handed (top_names top.now) parameter.now) }
{
    parameter.direction.is_some() || !matches!(top.kind_of_type(&parameter.of), Kind::Bits(_))
}

/// Whether it can't give one of these.
fn some_not_given(top: &Top<'_>, parameters: &[Param]) -> bool
    ensures { result ≡ list_any is_not_given (map (handed (top_names top.now)) parameters.now) }
{
    for parameter in parameters {
        if is_not_given(top, parameter) {
            return true;
        }
    }
    false
}

/// The same of the parameters of what a name means, where that is an action.
fn has_bad_parameter(top: &Top<'_>, sort: Sort<'_>) -> bool
    ensures { result ≡ list_any is_not_given (sort_parameters (seen_sort (top_names top.now) sort.entry)) }
{
    match sort {
        Sort::Action(action) => some_not_given(top, action.parameters.as_slice()),
        _ => false,
    }
}

/// The same of the parameters of the action of this name.
fn is_bad_name(scope: &Scope<'_, '_>, name: &[u8]) -> bool
    ensures { result ≡ is_bad_action (seen_scope scope.now) (action_name.Declared name.now) }
{
    has_bad_parameter(scope.top, scope.sort_of(name))
}

/// The same, given names of actions each of whose parameters an entry can give; the name is among these from then on, where it is
/// the name of such an action.
fn is_bad_besides<'a>(
    given: &mut NameSet<'a>,
    scope: &Scope<'_, 'a>,
    name: &'a [u8],
) -> Result<bool, OutOfMemory>
    requires { AreGiven (seen_scope scope.now) given.old }
    ensures bad { IfOk result (λ bad. bad ≡ is_bad_action (seen_scope scope.now) (action_name.Declared name.now)) }
    ensures given { OnOk result (AreGiven (seen_scope scope.now) given.new) }
{
    if given.has(name) {
        return Ok(false);
    }
    if is_bad_name(scope, name) {
        return Ok(true);
    }
    given.add(name)?;
    Ok(false)
}

/// The same of an action.
fn is_bad_action<'a>(
    given: &mut NameSet<'a>,
    scope: &Scope<'_, 'a>,
    action: &'a ActionName,
) -> Result<bool, OutOfMemory>
    requires { AreGiven (seen_scope scope.now) given.old }
    ensures bad { IfOk result (λ bad. bad ≡ is_bad_action (seen_scope scope.now) action.now) }
    ensures given { OnOk result (AreGiven (seen_scope scope.now) given.new) }
{
    match action {
        ActionName::Declared(name) => is_bad_besides(given, scope, name.as_slice()),
        ActionName::NoAction => Ok(false),
    }
}

/// The same of one of these. The parameters of an action are gone through once.
pub(crate) fn some_bad_action<'a>(
    given: &mut NameSet<'a>,
    scope: &Scope<'_, 'a>,
    actions: &'a [ActionName],
) -> Result<bool, OutOfMemory>
    requires { AreGiven (seen_scope scope.now) given.old }
    ensures bad { IfOk result (λ bad. bad ≡ list_any (is_bad_action (seen_scope scope.now)) actions.now) }
    ensures given { OnOk result (AreGiven (seen_scope scope.now) given.new) }
{
    for action in actions {
        if is_bad_action(given, scope, action)? {
            return Ok(true);
        }
    }
    Ok(false)
}
