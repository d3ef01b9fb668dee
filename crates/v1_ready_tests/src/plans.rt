// How an expression in which tables may be applied is made, from the outside in.
ghost use Rattle.std.specs.Prelude.{◌≡◌, [], ◌∷◌, ◌++◌, length, map, IfOk, OnOk};
ghost use Rattle.p416_syntax.specs.Heads.{of_exp_head};
ghost use Rattle.p416_syntax.specs.Declarations.{top_names, layouts_of};
ghost use Rattle.p416_calls.specs.Seen.{seen_place};
ghost use Rattle.p416_scopes.specs.Seen.{seen_scope};
ghost use Rattle.p416_typing.specs.Rows.{row_of};
ghost use Rattle.p416_typing.specs.Seen.{seen_row};
ghost use Rattle.p416_names.specs.SeenKinds.{seen_kind};
ghost use Rattle.v1_ready_forms.specs.Ways.{its_value};
ghost use Rattle.v1_ready_program.specs.Seen.{seen_seats};
ghost use Rattle.v1_ready_program.specs.internal.Coded.{AreWays, seen_ways, seen_ask, seen_asks, IsAskIn, AreAsksIn};
ghost use Rattle.v1_ready_program.specs.internal.Passes.{asked, front, behind_front, parts_asked};
ghost use Rattle.v1_ready_tests.specs.internal.Coded.{seen_marked};
ghost use Rattle.v1_ready_tests.specs.internal.Passes.{is_value_asked, applied_call, marked, marked_plans};

use p4x_bits::OutOfMemory;
use p416_calls::Place;
use p416_names::Kind;
use p416_syntax::{ExpHead, ExpView};
use p416_typing::Row;
use std::alloc::Global;
use v1_ready_program::asks::{Ask, push_parts, step_on, take_ask, way_in};
use v1_ready_program::plans::{Around, Plan, plan_of};
use v1_ready_program::ways::{VALUE, Ways};
use work_stack::Stack;

/// How an expression is made, and what is known of it there.
#[derive(Clone, Copy, Drop)]
pub struct Marked {
    /// Whether nothing but its value is asked.
    pub alone: bool,
    /// Whether it is the application of a table.
    pub applied: bool,
    /// How it is made of its parts.
    pub plan: Plan,
}

/// Whether nothing but the value is asked.
fn is_value_asked<'a>(ways: &Ways<'a>, ask: Ask<'a>) -> bool
    requires ways { AreWays ways.now }
    requires ask { IsAskIn (length (seen_ways ways.now)) ask }
    ensures { result ≡ is_value_asked (seen_ask (seen_ways ways.now) ask.entry) }
{
    match ask {
        Ask::Asked(_, way) => ways.is_alone(way),
        Ask::Passed => false,
        Ask::Called(_) => false,
    }
}

/// Whether an expression of a kind is the application of a table.
fn is_application(head: ExpHead<'_>, kind: Kind<'_>) -> bool
    ensures { result ≡ applied_call (of_exp_head head.entry) (seen_kind kind.entry) }
{
    match head {
        ExpHead::Call(_, _) => matches!(kind, Kind::Applied),
        _ => false,
    }
}

/// How the next expression is made, given what is known of it; what is asked of its parts is put in front.
#[tactic(auto, using(crate::proofs::Marking::application_known))]
fn next_marked<'a>(
    around: Around<'_, 'a>,
    ways: &mut Ways<'a>,
    asks: &mut Stack<Ask<'a>>,
    view: &ExpView<'a>,
    row: Row<'a>,
) -> Result<Marked, OutOfMemory>
    requires types { around.types.now ≡ layouts_of around.scope.now.top.now }
    requires row { seen_row (top_names around.scope.now.top.now) row ≡ row_of (seen_scope around.scope.now) view.now }
    requires ways { AreWays ways.old }
    requires asks { AreAsksIn (length (seen_ways ways.old)) asks.old }
    ensures marked { IfOk result (λ p. seen_marked p ≡ marked (seen_scope around.entry.scope.now) (seen_seats around.entry.seats.now) (front (seen_asks (seen_ways ways.old) asks.old)) view.now) }
    ensures asks { OnOk result (seen_asks (seen_ways ways.new) asks.new ≡ parts_asked (row_of (seen_scope around.entry.scope.now) view.now) (front (seen_asks (seen_ways ways.old) asks.old)) view.now ++ behind_front (seen_asks (seen_ways ways.old) asks.old)) }
    ensures ways { OnOk result (AreWays ways.new) }
    ensures within { OnOk result (AreAsksIn (length (seen_ways ways.new)) asks.new) }
{
    let ask = take_ask(asks);
    let alone = is_value_asked(ways, ask);
    let applied = is_application(view.head(), row.kind);
    let plan = plan_of(around, ways, ask, view.head(), row)?;
    let further = ways.put(step_on(view.head(), row, way_in(ask)))?;
    push_parts(ways, asks, ask, further, view.head(), row)?;
    Ok(Marked {
        alone,
        applied,
        plan,
    })
}

/// How each of these expressions is made, which are one at a place with all within it, given what is known of them.
pub fn marked_plans<'a>(
    alloc: Global,
    around: Around<'_, 'a>,
    place: Place<'a>,
    views: &[ExpView<'a>],
    mut rows: Stack<Row<'a>>,
) -> Result<Vec<Marked>, OutOfMemory>
    requires types { around.types.now ≡ layouts_of around.scope.now.top.now }
    requires rows { map (seen_row (top_names around.scope.now.top.now)) rows ≡ map (row_of (seen_scope around.scope.now)) views.now }
    ensures { IfOk result (λ made. map seen_marked made.items ≡ marked_plans (seen_scope around.entry.scope.now) (seen_seats around.entry.seats.now) (asked (seen_place place.entry) its_value ∷ []) views.now) }
{
    let mut ways = Ways::new(alloc)?;
    let mut asks = Stack::new(alloc);
    asks.push(Ask::Asked(place, VALUE))?;
    let mut made = Vec::new(alloc);
    for view in views {
        let Some(row) = rows.pop() else {
            return Err(OutOfMemory);
        };
        made.push(next_marked(around, &mut ways, &mut asks, view, row)?)?;
    }
    Ok(made)
}
