// What is asked of the parts of an expression (P4_16 1.2, "Expressions").
ghost use Rattle.std.specs.Prelude.{◌≡◌, ℕ, ◌++◌, ◌<◌, List, length, OnOk};
ghost use Rattle.p416_syntax.specs.Heads.{of_exp_head};
ghost use Rattle.p416_syntax.specs.Scopes.{Known};
ghost use Rattle.p416_syntax.specs.Calls.{owner};
ghost use Rattle.p416_names.specs.SeenKinds.{seen_kind};
ghost use Rattle.p416_calls.specs.Seen.{seen_place};
ghost use Rattle.p416_typing.specs.Seen.{seen_row};
ghost use Rattle.v1_ready_forms.specs.Ways.{Way, which_of};
ghost use Rattle.v1_ready_program.specs.internal.Ways.{IsStep, way_of, way_at};
ghost use Rattle.v1_ready_program.specs.internal.Coded.{AreWays, HasEnds, seen_ways, seen_ask, seen_asks, IsAskIn, AreAsksIn};
ghost use Rattle.v1_ready_program.specs.internal.Passes.{is_alone, member_way, way_on, way_in, if_parts, asked, method_asks, front, behind_front, filled_parts, parts_at, callee_parts, parts_asked};

use crate::ways::{Step, VALIDITY, VALUE, Ways};
use p4x_bits::OutOfMemory;
use p416_calls::Place;
use p416_expression_uses::{cast_place, chosen_place, left_place, right_place, unary_place};
use p416_names::Kind;
use p416_syntax::ExpHead;
use p416_typing::Row;
use v1_core::Which;
use work_stack::Stack;

/// What is asked of a part of an expression.
#[derive(Clone, Copy, Drop)]
pub enum Ask<'a> {
    /// Nothing.
    Passed,
    /// This, by the place of its way, where the part stands at this place.
    Asked(Place<'a>, usize),
    /// This, by the place of its way, of the value of a call of the part.
    Called(usize),
}

const LAST: &[u8] = b"last";

/// The element of a stack that a member of it is.
fn which_of(word: &[u8]) -> Which
    ensures { result ≡ which_of word.now }
{
    if word == LAST {
        Which::Last
    } else {
        Which::Next
    }
}

/// The step to a member of something of a kind.
fn member_step<'a>(kind: Kind<'_>, word: &'a [u8], way: usize) -> Step<'a>
    ensures way { (ways : List Way) → way_of ways result ≡ member_way (seen_kind kind.entry) word.now (way_at ways way) }
    ensures order { (n : ℕ) → way < n → IsStep n result }
{
    match kind {
        Kind::Stack(_, _) => Step::Told(which_of(word), way),
        _ => Step::Member(word, way),
    }
}

/// The step from the first part of an expression to what is asked, where it is a member or an element.
pub fn step_on<'a>(head: ExpHead<'a>, row: Row<'a>, way: usize) -> Step<'a>
    ensures way { (ways : List Way) → way_of ways result ≡ way_on (seen_kind row.entry.left) (of_exp_head head.entry) (way_at ways way) }
    ensures order { (n : ℕ) → way < n → IsStep n result }
{
    match head {
        ExpHead::Member(_, word) => member_step(row.left, word.as_slice(), way),
        ExpHead::Index(_, at) => Step::Element(at.value, way),
        _ => Step::Value,
    }
}

/// The way that is asked.
pub fn way_in(ask: Ask<'_>) -> usize
    ensures way { (ways : List Way) → HasEnds ways → way_at ways result ≡ way_in (seen_ask ways ask.entry) }
    ensures within { (n : ℕ) → 1 < n → IsAskIn n ask.entry → result < n }
{
    match ask {
        Ask::Passed => VALUE,
        Ask::Asked(_, way) => way,
        Ask::Called(way) => way,
    }
}

/// Takes what is asked of the next part; nothing where none is left.
pub fn take_ask<'a>(asks: &mut Stack<Ask<'a>>) -> Ask<'a>
    ensures front { (ways : List Way) → seen_ask ways result ≡ front (seen_asks ways asks.old) }
    ensures behind { (ways : List Way) → seen_asks ways asks.new ≡ behind_front (seen_asks ways asks.old) }
    ensures within { (n : ℕ) → AreAsksIn n asks.old → IsAskIn n result × AreAsksIn n asks.new }
{
    match asks.pop() {
        Some(ask) => ask,
        None => Ask::Passed,
    }
}

/// What is asked of what stands before a member.
fn member_ask<'a>(kind: Kind<'_>, further: usize) -> Ask<'a>
    ensures ask { (ways : List Way) → seen_ask ways result ≡ if_parts (seen_kind kind.entry) (asked owner (way_at ways further)) }
    ensures within { (n : ℕ) → further < n → IsAskIn n result }
{
    match kind {
        Kind::Errors => Ask::Passed,
        Kind::Enumeration(_) => Ask::Passed,
        _ => Ask::Asked(Place::Owner, further),
    }
}

/// What is asked of a header before `isValid`, where nothing but its value is asked of the call.
fn method_ask<'a>(kind: Kind<'_>, alone: bool) -> Ask<'a>
    ensures ask { (ways : List Way) (way : Way) → HasEnds ways → alone ≡ is_alone way → seen_ask ways result ≡ method_asks (seen_kind kind.entry) way }
    ensures within { (n : ℕ) → 1 < n → IsAskIn n result }
{
    match kind {
        Kind::Header(_) => {
            if alone {
                Ask::Asked(Place::Owner, VALIDITY)
            } else {
                Ask::Passed
            }
        }
        _ => Ask::Passed,
    }
}

/// Passes the parts of an expression over, but for what stands before a member, of which this is asked.
pub fn fill_parts<'a>(
    asks: &mut Stack<Ask<'a>>,
    owner: Ask<'a>,
    head: ExpHead<'a>,
) -> Result<(), OutOfMemory>
    ensures asks { OnOk result ((ways : List Way) → seen_asks ways asks.new ≡ filled_parts (seen_ask ways owner.entry) (of_exp_head head.entry) ++ seen_asks ways asks.old) }
    ensures within { OnOk result ((n : ℕ) → IsAskIn n owner.entry → AreAsksIn n asks.old → AreAsksIn n asks.new) }
{
    match head {
        ExpHead::Member(_, _) => asks.push(owner),
        ExpHead::Index(_, _) => asks.push(Ask::Passed),
        ExpHead::Slice(_, _, _) => asks.push(Ask::Passed),
        ExpHead::Call(_, _) => asks.push_two(Ask::Passed, Ask::Passed),
        ExpHead::Lookahead(_, _, _) => asks.push_two(Ask::Passed, Ask::Passed),
        ExpHead::Cast(_, _) => asks.push(Ask::Passed),
        ExpHead::Unary(_, _) => asks.push(Ask::Passed),
        ExpHead::Binary(_, _, _) => asks.push_two(Ask::Passed, Ask::Passed),
        ExpHead::Choice(_, _, _) => asks.push_three(Ask::Passed, Ask::Passed, Ask::Passed),
        ExpHead::Argument(_, _) => asks.push_two(Ask::Passed, Ask::Passed),
        ExpHead::Listed(_) => asks.push(Ask::Passed),
        _ => Ok(()),
    }
}

/// Puts what is asked of the parts of an expression at a place in front, of which this way is asked.
fn place_parts<'a>(
    ways: &Ways<'a>,
    asks: &mut Stack<Ask<'a>>,
    place: Place<'a>,
    way: usize,
    further: usize,
    head: ExpHead<'a>,
    row: Row<'a>,
) -> Result<(), OutOfMemory>
    requires ways { AreWays ways.now }
    requires way { way < length (seen_ways ways.now) }
    requires within { further < length (seen_ways ways.now) }
    requires further { way_at (seen_ways ways.now) further ≡ way_on (seen_kind row.left) (of_exp_head head) (way_at (seen_ways ways.now) way) }
    requires asks { AreAsksIn (length (seen_ways ways.now)) asks.old }
    ensures parts { OnOk result ((top : List Known) → seen_asks (seen_ways ways.now) asks.new ≡ parts_at (seen_row top row.entry) (seen_place place.entry) (way_at (seen_ways ways.now) way) (of_exp_head head.entry) ++ seen_asks (seen_ways ways.now) asks.old) }
    ensures within { OnOk result (AreAsksIn (length (seen_ways ways.now)) asks.new) }
{
    match head {
        ExpHead::Member(_, _) => asks.push(member_ask(row.left, further)),
        ExpHead::Index(_, _) => asks.push(Ask::Asked(Place::Stack, further)),
        ExpHead::Slice(_, _, _) => asks.push(Ask::Asked(Place::AnyBits, VALUE)),
        ExpHead::Call(_, _) => asks.push_two(Ask::Called(way), Ask::Passed),
        ExpHead::Lookahead(_, _, _) => asks.push_two(Ask::Passed, Ask::Passed),
        ExpHead::Cast(to, _) => asks.push(Ask::Asked(cast_place(to), VALUE)),
        ExpHead::Unary(operator, _) => {
            asks.push(Ask::Asked(unary_place(place, operator, row.left), VALUE))
        }
        ExpHead::Binary(operator, _, _) => asks.push_two(
            Ask::Asked(left_place(place, operator, row.left, row.right), VALUE),
            Ask::Asked(right_place(place, operator, row.left, row.right), VALUE),
        ),
        ExpHead::Choice(_, _, _) => {
            let chosen = Ask::Asked(chosen_place(place, row.left, row.right), way);
            asks.push_three(
                Ask::Asked(Place::Value(Kind::Boolean), VALUE),
                chosen,
                chosen,
            )
        }
        ExpHead::Argument(_, _) => asks.push_two(Ask::Passed, Ask::Passed),
        ExpHead::Listed(_) => asks.push(Ask::Passed),
        _ => Ok(()),
    }
}

/// Puts what is asked of the parts of what is called in front, where this way is asked of the call.
fn callee_parts<'a>(
    ways: &Ways<'a>,
    asks: &mut Stack<Ask<'a>>,
    way: usize,
    head: ExpHead<'a>,
    row: Row<'a>,
) -> Result<(), OutOfMemory>
    requires ways { AreWays ways.now }
    requires way { way < length (seen_ways ways.now) }
    requires asks { AreAsksIn (length (seen_ways ways.now)) asks.old }
    ensures parts { OnOk result ((top : List Known) → seen_asks (seen_ways ways.now) asks.new ≡ callee_parts (seen_row top row.entry) (way_at (seen_ways ways.now) way) (of_exp_head head.entry) ++ seen_asks (seen_ways ways.now) asks.old) }
    ensures within { OnOk result (AreAsksIn (length (seen_ways ways.now)) asks.new) }
{
    fill_parts(asks, method_ask(row.left, ways.is_alone(way)), head)
}

/// Puts what is asked of the parts of an expression in front, given what is asked of it; the way on from its first part is put
/// already.
pub fn push_parts<'a>(
    ways: &Ways<'a>,
    asks: &mut Stack<Ask<'a>>,
    ask: Ask<'a>,
    further: usize,
    head: ExpHead<'a>,
    row: Row<'a>,
) -> Result<(), OutOfMemory>
    requires ways { AreWays ways.now }
    requires ask { IsAskIn (length (seen_ways ways.now)) ask }
    requires within { further < length (seen_ways ways.now) }
    requires further { way_at (seen_ways ways.now) further ≡ way_on (seen_kind row.left) (of_exp_head head) (way_in (seen_ask (seen_ways ways.now) ask)) }
    requires asks { AreAsksIn (length (seen_ways ways.now)) asks.old }
    ensures parts { OnOk result ((top : List Known) → seen_asks (seen_ways ways.now) asks.new ≡ parts_asked (seen_row top row.entry) (seen_ask (seen_ways ways.now) ask.entry) (of_exp_head head.entry) ++ seen_asks (seen_ways ways.now) asks.old) }
    ensures within { OnOk result (AreAsksIn (length (seen_ways ways.now)) asks.new) }
{
    match ask {
        Ask::Passed => fill_parts(asks, Ask::Passed, head),
        Ask::Asked(place, way) => place_parts(ways, asks, place, way, further, head, row),
        Ask::Called(way) => callee_parts(ways, asks, way, head, row),
    }
}
