// An expression is gone through from the outside in, and built from the inside out.
ghost use Rattle.std.specs.Prelude.{◌≡◌, ◌<◌, [], ◌∷◌, ◌++◌, length, map, option_map, IfOk, IfSome, OnOk};
ghost use Rattle.p416_syntax.specs.Subtrees.{subexpressions};
ghost use Rattle.p416_syntax.specs.Declarations.{top_names, layouts_of};
ghost use Rattle.p416_calls.specs.Seen.{seen_place};
ghost use Rattle.p416_scopes.specs.Seen.{seen_scope};
ghost use Rattle.p416_typing.specs.Rows.{row_of};
ghost use Rattle.p416_typing.specs.Seen.{seen_row};
ghost use Rattle.v1_core.specs.Nodes.{ready_at};
ghost use Rattle.v1_core.specs.Kept.{trees};
ghost use Rattle.v1_ready_forms.specs.Ways.{its_value};
ghost use Rattle.v1_ready_forms.specs.Expressions.{ready_of_exp};
ghost use Rattle.v1_ready_program.specs.Seen.{seen_seats, Keeps};
ghost use Rattle.v1_ready_program.specs.internal.Coded.{AreWays, seen_ways, seen_asks, AreAsksIn, seen_plan, seen_values, AreValuesIn};
ghost use Rattle.v1_ready_program.specs.internal.Passes.{asked, front, behind_front, parts_asked, planned, plans, built_step, built};

use crate::asks::{Ask, push_parts, step_on, take_ask, way_in};
use crate::build::{make, take_parts};
use crate::plans::{Around, Plan, plan_of};
use crate::ways::{VALUE, Ways};
use p4x_bits::OutOfMemory;
use p416_calls::Place;
use p416_syntax::ExpView;
use p416_typing::{Row, Typed, typed_expression};
use std::alloc::Global;
use v1_core::Expressions;
use work_stack::Stack;

/// How the next expression is made, given what is known of it; what is asked of its parts is put in front.
fn next_plan<'a>(
    around: Around<'_, 'a>,
    ways: &mut Ways<'a>,
    asks: &mut Stack<Ask<'a>>,
    view: &ExpView<'a>,
    row: Row<'a>,
) -> Result<Plan, OutOfMemory>
    requires types { around.types.now ≡ layouts_of around.scope.now.top.now }
    requires row { seen_row (top_names around.scope.now.top.now) row ≡ row_of (seen_scope around.scope.now) view.now }
    requires ways { AreWays ways.old }
    requires asks { AreAsksIn (length (seen_ways ways.old)) asks.old }
    ensures plan { IfOk result (λ plan. seen_plan plan ≡ planned (seen_scope around.entry.scope.now) (seen_seats around.entry.seats.now) (row_of (seen_scope around.entry.scope.now) view.now) (front (seen_asks (seen_ways ways.old) asks.old)) view.now) }
    ensures asks { OnOk result (seen_asks (seen_ways ways.new) asks.new ≡ parts_asked (row_of (seen_scope around.entry.scope.now) view.now) (front (seen_asks (seen_ways ways.old) asks.old)) view.now ++ behind_front (seen_asks (seen_ways ways.old) asks.old)) }
    ensures ways { OnOk result (AreWays ways.new) }
    ensures within { OnOk result (AreAsksIn (length (seen_ways ways.new)) asks.new) }
{
    let ask = take_ask(asks);
    let plan = plan_of(around, ways, ask, view.head(), row)?;
    let further = ways.put(step_on(view.head(), row, way_in(ask)))?;
    push_parts(ways, asks, ask, further, view.head(), row)?;
    Ok(plan)
}

/// How each of these expressions is made, which are one at a place with all within it, given what is known of them.
fn plans_of<'a>(
    alloc: Global,
    around: Around<'_, 'a>,
    place: Place<'a>,
    views: &[ExpView<'a>],
    mut rows: Stack<Row<'a>>,
) -> Result<Vec<Plan>, OutOfMemory>
    requires types { around.types.now ≡ layouts_of around.scope.now.top.now }
    requires rows { map (seen_row (top_names around.scope.now.top.now)) rows ≡ map (row_of (seen_scope around.scope.now)) views.now }
    ensures { IfOk result (λ made. map seen_plan made.items ≡ plans (seen_scope around.entry.scope.now) (seen_seats around.entry.seats.now) (asked (seen_place place.entry) its_value ∷ []) views.now) }
{
    let mut ways = Ways::new(alloc)?;
    let mut asks = Stack::new(alloc);
    asks.push(Ask::Asked(place, VALUE))?;
    let mut made = Vec::new(alloc);
    for view in views {
        let Some(row) = rows.pop() else {
            return Err(OutOfMemory);
        };
        made.push(next_plan(around, &mut ways, &mut asks, view, row)?)?;
    }
    Ok(made)
}

/// Builds an expression by its plan, in place of its parts.
fn build_one(
    expressions: &mut Expressions<'_>,
    values: &mut Stack<Option<usize>>,
    plan: Plan,
    view: &ExpView<'_>,
) -> Result<(), OutOfMemory>
    requires { AreValuesIn (length (trees expressions.old)) values.old }
    ensures values { OnOk result (seen_values (trees expressions.new) values.new ≡ built_step (seen_plan plan) view.now (seen_values (trees expressions.old) values.old)) }
    ensures within { OnOk result (AreValuesIn (length (trees expressions.new)) values.new) }
    ensures keeps { OnOk result (Keeps (trees expressions.old) (trees expressions.new)) }
    ensures layout { expressions.new.layout ≡ expressions.old.layout }
{
    let parts = take_parts(values, view.head());
    let value = make(expressions, plan, parts)?;
    values.push(value)?;
    Ok(())
}

/// Builds these expressions by their plans; the first of them is that which has all others within it.
fn build(
    alloc: Global,
    expressions: &mut Expressions<'_>,
    plans: &[Plan],
    views: &[ExpView<'_>],
) -> Result<Stack<Option<usize>>, OutOfMemory>
    requires { length plans.now ≡ length views.now }
    ensures values { IfOk result (λ values. seen_values (trees expressions.new) values ≡ built (map seen_plan plans.now) views.now) }
    ensures within { IfOk result (AreValuesIn (length (trees expressions.new))) }
    ensures keeps { OnOk result (Keeps (trees expressions.old) (trees expressions.new)) }
    ensures layout { expressions.new.layout ≡ expressions.old.layout }
{
    let mut values = Stack::new(alloc);
    let mut left = views.len();
    while left > 0 {
        left -= 1;
        build_one(expressions, &mut values, plans[left], &views[left])?;
    }
    Ok(values)
}

/// Makes an expression at a place ready: the place of the ready expression that gives its value, which is put behind the others;
/// none exactly where it is no single value, or applies a table. The time is proportional to what stands within it, but for
/// look-ups. The one error is want of memory, which numbers, widths and places count as that no accepted program has; then
/// some expressions more may stand behind the others.
pub fn ready_expression<'a>(
    alloc: Global,
    around: Around<'_, 'a>,
    place: Place<'a>,
    expressions: &mut Expressions<'_>,
    expression: &ExpView<'a>,
) -> Result<Option<usize>, OutOfMemory>
    requires types { around.types.now ≡ layouts_of around.scope.now.top.now }
    ensures ready { IfOk result (λ found. option_map (ready_at (trees expressions.new)) found ≡ ready_of_exp (seen_scope around.entry.scope.now) (seen_seats around.entry.seats.now) (seen_place place.entry) expression.now) }
    ensures within { IfOk result (λ found. IfSome found (λ place. place < length expressions.new.nodes)) }
    ensures keeps { OnOk result (Keeps (trees expressions.old) (trees expressions.new)) }
    ensures layout { expressions.new.layout ≡ expressions.old.layout }
{
    let Typed { views, rows } = typed_expression(alloc, around.scope, expression)?;
    let plans = plans_of(alloc, around, place, &views, rows)?;
    let mut values = build(alloc, expressions, &plans, &views)?;
    match values.pop() {
        Some(found) => Ok(found),
        None => Ok(None),
    }
}
