// Where the parts of an expression that are still to come stand.
ghost use Rattle.std.specs.Prelude.{◌≡◌, [], ◌∷◌, ◌++◌, OnOk, List};
ghost use Rattle.p416_syntax.specs.Heads.{of_exp_head};
ghost use Rattle.p416_syntax.specs.Scopes.{Known};
ghost use Rattle.p416_syntax.specs.Declarations.{top_names};
ghost use Rattle.p416_calls.specs.Seen.{seen_place};
ghost use Rattle.p416_typing.specs.Seen.{seen_row};
ghost use Rattle.p416_expression_uses.specs.Seen.{wanted_in, otherwise_in};
ghost use Rattle.p416_expression_uses.specs.internal.Runs.{single, seen_spot, seen_spots, front, behind_front, filled_parts, parts_at, list_parts, parts_by};

use crate::operands::{
    cast_place, chosen_place, left_place, owner_place, right_place, unary_place,
};
use crate::places::{Arguments, Places};
use p4x_bits::OutOfMemory;
use p416_calls::{Callee, Place};
use p416_names::{Kind, Top};
use p416_syntax::ExpHead;
use p416_typing::Row;
use work_stack::Stack;

/// Where a part of an expression stands.
#[derive(Clone, Copy, Drop)]
pub enum Spot<'a> {
    /// It is passed over.
    Passed,
    /// It is judged by these places.
    Placed(Places<'a>),
}

/// The spot of one expression at a place.
fn single(place: Place<'_>) -> Spot<'_>
    ensures { (top : List Known) → seen_spot top result ≡ single (seen_place place.entry) }
{
    Spot::Placed(Places::One(place))
}

/// Takes the spot in front off; that of a part that is passed over, where none is left.
pub(crate) fn take_spot<'a>(spots: &mut Stack<Spot<'a>>) -> Spot<'a>
    ensures front { (top : List Known) → seen_spot top result ≡ front (seen_spots top spots.old) }
    ensures behind { (top : List Known) → seen_spots top spots.new ≡ behind_front (seen_spots top spots.old) }
{
    match spots.pop() {
        Some(spot) => spot,
        None => Spot::Passed,
    }
}

/// Puts a spot in front for each part of an expression: these two, where it is an argument list, and else those of parts that
/// are passed over.
fn fill_parts<'a>(
    spots: &mut Stack<Spot<'a>>,
    before: Spot<'a>,
    last: Spot<'a>,
    head: ExpHead<'a>,
) -> Result<(), OutOfMemory>
    ensures { OnOk result ((top : List Known) → seen_spots top spots.new ≡ filled_parts (seen_spot top before.entry) (seen_spot top last.entry) (of_exp_head head.entry) ++ seen_spots top spots.old) }
{
    match head {
        ExpHead::Member(_, _) => spots.push(Spot::Passed),
        ExpHead::Index(_, _) => spots.push(Spot::Passed),
        ExpHead::Slice(_, _, _) => spots.push(Spot::Passed),
        ExpHead::Call(_, _) => spots.push_two(Spot::Passed, Spot::Passed),
        ExpHead::Lookahead(_, _, _) => spots.push_two(Spot::Passed, Spot::Passed),
        ExpHead::Cast(_, _) => spots.push(Spot::Passed),
        ExpHead::Unary(_, _) => spots.push(Spot::Passed),
        ExpHead::Binary(_, _, _) => spots.push_two(Spot::Passed, Spot::Passed),
        ExpHead::Choice(_, _, _) => spots.push_three(Spot::Passed, Spot::Passed, Spot::Passed),
        ExpHead::Argument(_, _) => spots.push_two(before, last),
        ExpHead::Listed(_) => spots.push(Spot::Passed),
        _ => Ok(()),
    }
}

/// Puts the spots of the parts of an expression at a place in front, given what is known of it.
fn place_parts<'a>(
    spots: &mut Stack<Spot<'a>>,
    place: Place<'a>,
    head: ExpHead<'a>,
    row: Row<'a>,
) -> Result<(), OutOfMemory>
    ensures { OnOk result ((top : List Known) → seen_spots top spots.new ≡ parts_at (seen_row top row.entry) (seen_place place.entry) (of_exp_head head.entry) ++ seen_spots top spots.old) }
{
    match head {
        ExpHead::Member(_, _) => spots.push(single(owner_place(place, row.callee))),
        ExpHead::Index(_, _) => spots.push(single(Place::Stack)),
        ExpHead::Slice(_, _, _) => spots.push(single(Place::AnyBits)),
        ExpHead::Call(_, _) => spots.push_two(
            single(Place::Called),
            Spot::Placed(Places::Many(Arguments::Given(row.called))),
        ),
        ExpHead::Lookahead(_, _, _) => spots.push_two(
            single(Place::Owner),
            Spot::Placed(Places::Many(Arguments::Given(Callee::Nothing))),
        ),
        ExpHead::Cast(to, _) => spots.push(single(cast_place(to))),
        ExpHead::Unary(operator, _) => spots.push(single(unary_place(place, operator, row.left))),
        ExpHead::Binary(operator, _, _) => spots.push_two(
            single(left_place(place, operator, row.left, row.right)),
            single(right_place(place, operator, row.left, row.right)),
        ),
        ExpHead::Choice(_, _, _) => {
            let chosen = single(chosen_place(place, row.left, row.right));
            spots.push_three(single(Place::Value(Kind::Boolean)), chosen, chosen)
        }
        ExpHead::Argument(_, _) => spots.push_two(Spot::Passed, Spot::Passed),
        ExpHead::Listed(_) => spots.push(Spot::Placed(Places::Many(Arguments::Items))),
        _ => Ok(()),
    }
}

/// Puts the spots of the parts of a list of so many arguments in front.
fn place_arguments<'a>(
    top: &Top<'a>,
    spots: &mut Stack<Spot<'a>>,
    given: Arguments<'a>,
    head: ExpHead<'a>,
    count: usize,
) -> Result<(), OutOfMemory>
    ensures { OnOk result (seen_spots (top_names top.now) spots.new ≡ list_parts (wanted_in (top_names top.now) given.entry) (otherwise_in given.entry) count (of_exp_head head.entry) ++ seen_spots (top_names top.now) spots.old) }
{
    let last = single(given.place(top, count.saturating_sub(1)));
    fill_parts(spots, Spot::Placed(Places::Many(given)), last, head)
}

/// Puts the spots of the parts of an expression or an argument list in front, given its own spot and what is known of it.
pub(crate) fn push_parts<'a>(
    top: &Top<'a>,
    spots: &mut Stack<Spot<'a>>,
    spot: Spot<'a>,
    head: ExpHead<'a>,
    row: Row<'a>,
) -> Result<(), OutOfMemory>
    ensures { OnOk result (seen_spots (top_names top.now) spots.new ≡ parts_by (seen_row (top_names top.now) row.entry) (seen_spot (top_names top.now) spot.entry) (of_exp_head head.entry) ++ seen_spots (top_names top.now) spots.old) }
{
    match spot {
        Spot::Passed => fill_parts(spots, Spot::Passed, Spot::Passed, head),
        Spot::Placed(Places::One(place)) => place_parts(spots, place, head, row),
        Spot::Placed(Places::Many(given)) => place_arguments(top, spots, given, head, row.count),
    }
}
