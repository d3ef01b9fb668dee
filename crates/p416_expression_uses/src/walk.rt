// An expression is gone through from its front to its end; a stack holds where the parts stand that are still to come.
ghost use Rattle.std.specs.Prelude.{◌≡◌, ◌∷◌, map, List, IfOk, OnOk};
ghost use Rattle.p416_syntax.specs.Tree.{Exp16};
ghost use Rattle.p416_syntax.specs.Scopes.{Known};
ghost use Rattle.p416_syntax.specs.Declarations.{top_names};
ghost use Rattle.p416_syntax.specs.Expressions.{kind_of};
ghost use Rattle.p416_syntax.specs.Uses.{uses_at};
ghost use Rattle.p416_names.specs.SeenKinds.{seen_kind};
ghost use Rattle.p416_scopes.specs.Seen.{seen_scope};
ghost use Rattle.p416_typing.specs.Rows.{row_of};
ghost use Rattle.p416_typing.specs.Seen.{seen_row};
ghost use Rattle.p416_expression_uses.specs.Found.{after_all};
ghost use Rattle.p416_expression_uses.specs.Seen.{seen_places};
ghost use Rattle.p416_expression_uses.specs.internal.Runs.{seen_spot, seen_spots, numbers_in, own_at, run};
ghost use Rattle.p416_typing.specs.internal.Steps.{no_row, top_of, rest_of};

use crate::found::Findings;
use crate::numbers::{see_cast, see_number};
use crate::places::Places;
use crate::spots::{Spot, push_parts, take_spot};
use crate::types::{TypePlace, see_type};
use p4x_bits::OutOfMemory;
use p416_calls::Callee;
use p416_names::Kind;
use p416_scopes::Scope;
use p416_syntax::{ExpHead, ExpView};
use p416_typing::{Row, Typed, typed_expression};
use std::alloc::Global;
use work_stack::Stack;

/// What is known of nothing.
fn no_row<'a>() -> Row<'a>
    ensures { (top : List Known) → seen_row top result ≡ no_row }
{
    Row {
        kind: Kind::Unknown,
        left: Kind::Unknown,
        right: Kind::Unknown,
        callee: Callee::Nothing,
        called: Callee::Nothing,
        count: 0,
        given: 0,
        clone: None,
        first: None,
        given_first: None,
        can_write: false,
    }
}

/// Takes the row in front off; that of nothing, where none is left.
fn take_row<'a>(rows: &mut Stack<Row<'a>>) -> Row<'a>
    ensures front { (top : List Known) → seen_row top result ≡ top_of (map (seen_row top) rows.old) }
    ensures behind { (top : List Known) → map (seen_row top) rows.new ≡ rest_of (map (seen_row top) rows.old) }
{
    match rows.pop() {
        Some(row) => row,
        None => no_row(),
    }
}

/// Judges the numbers and the type in an expression itself.
fn see_within<'a>(
    scope: &Scope<'_, 'a>,
    view: &ExpView<'a>,
    found: &mut Findings<'a>,
) -> Result<(), OutOfMemory>
    ensures { OnOk result (found.new ≡ after_all found.old (numbers_in (seen_scope scope.now) view.now)) }
{
    match view.head() {
        ExpHead::Index(_, number) => {
            see_number(number, found);
            Ok(())
        }
        ExpHead::Slice(_, high, low) => {
            see_number(high, found);
            see_number(low, found);
            Ok(())
        }
        ExpHead::Lookahead(_, to, _) => see_type(scope, TypePlace::Lookahead, to, found),
        ExpHead::Cast(to, _) => {
            see_cast(to, found);
            Ok(())
        }
        _ => Ok(()),
    }
}

/// Judges an expression or an argument list at a spot by itself, with the numbers and the type in it, given what is known of
/// it.
fn see_itself<'a>(
    scope: &Scope<'_, 'a>,
    spot: Spot<'_>,
    view: &ExpView<'a>,
    row: Row<'a>,
    found: &mut Findings<'a>,
) -> Result<(), OutOfMemory>
    requires { seen_row (top_names scope.now.top.now) row ≡ row_of (seen_scope scope.now) view.now }
    ensures { OnOk result (found.new ≡ after_all found.old (own_at (seen_scope scope.now) (seen_spot (top_names scope.now.top.now) spot.entry) view.now)) }
{
    match spot {
        Spot::Passed => Ok(()),
        Spot::Placed(Places::One(place)) => {
            found.see_alone(scope, place, view, row)?;
            see_within(scope, view, found)
        }
        Spot::Placed(Places::Many(_)) => Ok(()),
    }
}

/// Judges the next expression by itself, given what is known of it and of those behind it, and where they stand, and puts where
/// its parts stand in front.
#[tactic(auto, using(crate::proofs::Running::row_here))]
fn see_next<'a>(
    scope: &Scope<'_, 'a>,
    view: &ExpView<'a>,
    rows: &mut Stack<Row<'a>>,
    spots: &mut Stack<Spot<'a>>,
    found: &mut Findings<'a>,
) -> Result<(), OutOfMemory>
    requires { top_of (map (seen_row (top_names scope.now.top.now)) rows.old) ≡ row_of (seen_scope scope.now) view.now }
    ensures rows { OnOk result (map (seen_row (top_names scope.now.top.now)) rows.new ≡ rest_of (map (seen_row (top_names scope.now.top.now)) rows.old)) }
    ensures found { OnOk result ((rest : List Exp16) → after_all found.new (run (seen_scope scope.now) (seen_spots (top_names scope.now.top.now) spots.new) rest) ≡ after_all found.old (run (seen_scope scope.now) (seen_spots (top_names scope.now.top.now) spots.old) (view.now ∷ rest))) }
{
    let spot = take_spot(spots);
    let row = take_row(rows);
    see_itself(scope, spot, view, row, found)?;
    push_parts(scope.top, spots, spot, view.head(), row)?;
    Ok(())
}

/// Judges these expressions, given what is known of each, and where those in front of all stand.
fn see_run<'a>(
    scope: &Scope<'_, 'a>,
    views: &[ExpView<'a>],
    rows: &mut Stack<Row<'a>>,
    spots: &mut Stack<Spot<'a>>,
    found: &mut Findings<'a>,
) -> Result<(), OutOfMemory>
    requires { map (seen_row (top_names scope.now.top.now)) rows.old ≡ map (row_of (seen_scope scope.now)) views.now }
    ensures { OnOk result (found.new ≡ after_all found.old (run (seen_scope scope.now) (seen_spots (top_names scope.now.top.now) spots.old) views.now)) }
{
    for view in views {
        see_next(scope, view, rows, spots, found)?;
    }
    Ok(())
}

/// The row in front of all, which stays there.
fn root_row<'a>(rows: &mut Stack<Row<'a>>) -> Result<Row<'a>, OutOfMemory>
    ensures row { IfOk result (λ row. (top : List Known) → seen_row top row ≡ top_of (map (seen_row top) rows.old)) }
    ensures rows { OnOk result ((top : List Known) → map (seen_row top) rows.new ≡ top_of (map (seen_row top) rows.old) ∷ rest_of (map (seen_row top) rows.old)) }
{
    let row = take_row(rows);
    rows.push(row)?;
    Ok(row)
}

/// Judges an expression in its place with all within it, each part in the place that it has there; the same of an argument list,
/// whose arguments have these places. What the expression is is the answer. The time is proportional to the number of
/// expressions within it, but for the look-up of each name. The one error is want of memory.
#[tactic(auto, using(crate::proofs::Running::root_kind, crate::proofs::Running::rows_told, crate::proofs::Running::whole_told))]
pub fn see_expression<'a>(
    alloc: Global,
    scope: &Scope<'_, 'a>,
    places: Places<'a>,
    expression: &ExpView<'a>,
    found: &mut Findings<'a>,
) -> Result<Kind<'a>, OutOfMemory>
    ensures found { OnOk result (found.new ≡ after_all found.old (uses_at (seen_scope scope.now) (seen_places (top_names scope.now.top.now) places.entry) expression.now)) }
    ensures kind { IfOk result (λ kind. seen_kind kind ≡ kind_of (seen_scope scope.now) expression.now) }
{
    let Typed { views, mut rows } = typed_expression(alloc, scope, expression)?;
    let row = root_row(&mut rows)?;
    let mut spots = Stack::new(alloc);
    spots.push(Spot::Placed(places))?;
    see_run(scope, &views, &mut rows, &mut spots, found)?;
    Ok(row.kind)
}
