// The first rule that an expression breaks.
ghost use Rattle.std.specs.Prelude.{◌≡◌};
ghost use Rattle.p416_syntax.specs.Declarations.{top_names};
ghost use Rattle.p416_syntax.specs.Uses.{an_expression};
ghost use Rattle.p416_calls.specs.Seen.{seen_place};
ghost use Rattle.p416_scopes.specs.Seen.{seen_scope};
ghost use Rattle.p416_typing.specs.Rows.{row_of};
ghost use Rattle.p416_typing.specs.Seen.{seen_row};
ghost use Rattle.p416_expression_check.specs.Judged.{first_broken};
ghost use Rattle.p416_expression_check.specs.internal.Broken.{lower_by, higher_by};

use crate::calls::{is_application, is_miscounted};
use crate::literals::overflows;
use crate::names::is_unknown;
use crate::sizes::leaves_size;
use crate::stands::{Standing, applies_nothing, is_misplaced};
use crate::takes::takes;
use p416_calls::Place;
use p416_scopes::Scope;
use p416_syntax::{ExpView, ProgramRule};
use p416_typing::Row;

/// The first of T1 to T4 that an expression breaks.
fn lower_rule<'a>(
    scope: &Scope<'_, 'a>,
    place: Place<'_>,
    view: &ExpView<'_>,
    row: Row<'a>,
) -> Option<ProgramRule>
    ensures { result ≡ lower_by (seen_scope scope.now) (seen_place place.entry) (seen_row (top_names scope.now.top.now) row.entry) view.now }
{
    if is_unknown(scope, place, view, row.left, row.callee) {
        Some(ProgramRule::T1)
    } else if leaves_size(view, row.left, row.right) {
        Some(ProgramRule::T2)
    } else if !takes(place, view, row.kind) {
        Some(ProgramRule::T3)
    } else if overflows(place, view) {
        Some(ProgramRule::T4)
    } else {
        None
    }
}

/// The first of T5, T6, T8 and T10 that an expression breaks.
fn higher_rule<'a>(
    scope: &Scope<'_, 'a>,
    place: Place<'_>,
    view: &ExpView<'_>,
    row: Row<'a>,
) -> Option<ProgramRule>
    ensures { result ≡ higher_by (seen_scope scope.now) (seen_place place.entry) (seen_row (top_names scope.now.top.now) row.entry) view.now }
{
    let by = Standing {
        positions: scope.positions,
        part: scope.part,
        called: row.called,
        first: row.given_first,
    };
    if place.is_written() && !row.can_write {
        Some(ProgramRule::T5)
    } else if is_miscounted(view, row.called, row.given) {
        Some(ProgramRule::T6)
    } else if applies_nothing(scope.part) && is_application(view, row.kind) {
        Some(ProgramRule::T8)
    } else if is_misplaced(view, row.left, by) {
        Some(ProgramRule::T10)
    } else {
        None
    }
}

/// The first of T1 to T6, T8 and T10 that an expression breaks in its place by itself, given what is known of it. What
/// stands within it is judged by itself.
pub fn broken_rule<'a>(
    scope: &Scope<'_, 'a>,
    place: Place<'_>,
    view: &ExpView<'_>,
    row: Row<'a>,
) -> Option<ProgramRule>
    requires { seen_row (top_names scope.now.top.now) row ≡ row_of (seen_scope scope.now) view.now }
    ensures { result ≡ first_broken (an_expression (seen_scope scope.now) (seen_place place.entry) view.now) }
{
    match lower_rule(scope, place, view, row) {
        Some(rule) => Some(rule),
        None => higher_rule(scope, place, view, row),
    }
}
