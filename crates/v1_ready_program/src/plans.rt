// How an expression is made (P4_16 1.2, "Expressions", "Literal constants", "Packet lookahead").
ghost use Rattle.std.specs.Prelude.{◌≡◌, suc, ◌-◌, ◌%◌, ◌^◌, ◌<◌, if◌then◌else◌, length, unwrap_or, IfOk};
ghost use Rattle.p416_syntax.specs.Heads.{of_exp_head};
ghost use Rattle.p416_syntax.specs.Declarations.{top_names, layouts_of};
ghost use Rattle.p416_syntax.specs.Literals as rules;
ghost use Rattle.p416_names.specs.SeenKinds.{seen_kind};
ghost use Rattle.p416_calls.specs.Seen.{seen_place};
ghost use Rattle.p416_scopes.specs.Seen.{seen_scope};
ghost use Rattle.p416_typing.specs.Seen.{seen_row};
ghost use Rattle.v1_core.specs.Values.{a_number};
ghost use Rattle.v1_core.specs.Expressions.{number_of_error, literal_width, literal_number};
ghost use Rattle.v1_core.specs.Ready.{constant};
ghost use Rattle.v1_ready_forms.specs.Ways.{Way};
ghost use Rattle.v1_ready_forms.specs.Expressions.{name_ready};
ghost use Rattle.v1_ready_program.specs.Seen.{seen_seats};
ghost use Rattle.v1_ready_program.specs.internal.Ways.{way_at};
ghost use Rattle.v1_ready_program.specs.internal.Coded.{AreWays, seen_ways, seen_leaf, seen_plan, seen_ask, IsAskIn};
ghost use Rattle.v1_ready_program.specs.internal.Passes.{nothing, sliced, is_alone, alone_by, leaf_by, if_error, member_plan, lookahead_plan, cast_plan, plan_at, callee_plan, planned};

use crate::asks::Ask;
use crate::leaves::Leaf;
use crate::names::NamedSeats;
use crate::spots::Spot;
use crate::ways::Ways;
use p4x_bits::OutOfMemory;
use p416_calls::Place;
use p416_names::Kind;
use p416_scopes::Scope;
use p416_syntax::{BinaryOperator, CastType, ExpHead, ExpView, Literal16, UnaryOperator};
use p416_typing::Row;
use v1_core::{Scalar, to_bits};
use v1_seats::TypeTable;

/// What stands around an expression: what names mean, where they stand, and where the parts of types stand.
#[derive(Clone, Copy, Drop)]
pub struct Around<'s, 'a> {
    /// What names mean.
    pub scope: &'s Scope<'s, 'a>,
    /// Where they stand in the frames.
    pub seats: &'s NamedSeats<'a>,
    /// Where the parts of types stand.
    pub types: &'s TypeTable<'s, 'a>,
}

/// How an expression is made of its parts.
#[derive(Clone, Copy, Drop)]
pub enum Plan {
    /// Not at all: nothing is asked, or it has no such value.
    Nothing,
    /// It is this.
    Leaf(Leaf),
    /// It is what its first part is.
    Same,
    /// A slice from a place on, and how many bits.
    Sliced(u8, u8),
    /// A cast to so many bits.
    ToBits(u8),
    /// A cast to a truth value.
    ToTruth,
    /// An operator before its operand.
    Unary(UnaryOperator),
    /// An operator between its operands.
    Binary(BinaryOperator),
    /// A choice.
    Choice,
}

const NO_ERROR: &[u8] = b"NoError";

const PACKET_TOO_SHORT: &[u8] = b"PacketTooShort";

const STACK_OUT_OF_BOUNDS: &[u8] = b"StackOutOfBounds";

const NO_MATCH: &[u8] = b"NoMatch";

/// The number of an error in the order of `error`, and 4 for another name.
fn error_number(word: &[u8]) -> u128
    ensures { result ≡ number_of_error word.now }
{
    if word == NO_ERROR {
        0
    } else if word == PACKET_TOO_SHORT {
        1
    } else if word == STACK_OUT_OF_BOUNDS {
        2
    } else if word == NO_MATCH {
        3
    } else {
        4
    }
}

/// A width of at most 128 bits; more is want of memory.
fn narrow(width: u128) -> Result<u8, OutOfMemory>
    ensures is { IfOk result (λ narrow. narrow ≡ width) }
{
    if width <= 128 {
        Ok(width as u8)
    } else {
        Err(OutOfMemory)
    }
}

/// The width of bits; 0 where these are none.
fn width_of_kind(kind: Kind<'_>) -> u128
    ensures { result ≡ unwrap_or (rules.width_of_kind (seen_kind kind.entry)) 0 }
{
    match kind {
        Kind::Bits(width) => width,
        _ => 0,
    }
}

/// The width that a place asks for; 0 where it asks for none.
fn width_of_place(place: Place<'_>) -> u128
    ensures { result ≡ unwrap_or (rules.width_of_place (seen_place place.entry)) 0 }
{
    match place {
        Place::Value(kind) => width_of_kind(kind),
        Place::Written(kind) => width_of_kind(kind),
        Place::LiteralOf(kind) => width_of_kind(kind),
        _ => 0,
    }
}

/// The width of a number: that which is written, else that of its place.
fn literal_width(place: Place<'_>, width: Option<u8>) -> u128
    ensures { result ≡ literal_width (seen_place place.entry) width }
{
    match width {
        Some(width) => u128::from(width),
        None => width_of_place(place),
    }
}

/// A number of so many bits, cut to these.
fn cut(width: u8, value: u128) -> Result<Leaf, OutOfMemory>
    ensures { IfOk result (λ leaf. seen_leaf leaf ≡ constant (a_number width (value % 2 ^ width))) }
{
    if width == 0 {
        return Ok(Leaf::Number(0, 0));
    }
    if width > 128 {
        return Err(OutOfMemory);
    }
    match to_bits(width, Scalar::Number(128, value)) {
        Scalar::Number(width, number) => Ok(Leaf::Number(width, number)),
        _ => Err(OutOfMemory),
    }
}

/// A number at its place. More than 128 bits are want of memory.
fn literal(place: Place<'_>, number: Literal16) -> Result<Leaf, OutOfMemory>
    ensures { IfOk result (λ leaf. seen_leaf leaf ≡ constant (literal_number (seen_place place.entry) number)) }
{
    let width = narrow(literal_width(place, number.width))?;
    cut(width, number.value)
}

/// A plan, where nothing but the value is asked.
fn if_alone(alone: bool, plan: Plan) -> Plan
    ensures { seen_plan result ≡ if alone then seen_plan plan else nothing }
{
    if alone { plan } else { Plan::Nothing }
}

/// What a way from the seat of a name leads to.
#[tactic(auto, using(crate::proofs::Naming::name_leaf, crate::proofs::Naming::name_none, crate::proofs::Naming::name_missing))]
fn name_plan<'a>(
    seats: &NamedSeats<'a>,
    types: &TypeTable<'_, 'a>,
    ways: &Ways<'a>,
    way: usize,
    name: &[u8],
) -> Result<Plan, OutOfMemory>
    requires ways { AreWays ways.now }
    requires way { way < length (seen_ways ways.now) }
    ensures { IfOk result (λ plan. seen_plan plan ≡ leaf_by (name_ready types.now (seen_seats seats.now) (way_at (seen_ways ways.now) way) name.now)) }
{
    let Some(seat) = seats.find(name) else {
        return Ok(Plan::Nothing);
    };
    let spot = Spot { seat, told: None };
    match ways.follow(types, way, spot)? {
        Some(leaf) => Ok(Plan::Leaf(leaf)),
        None => Ok(Plan::Nothing),
    }
}

/// A plan, where this is the word `error`.
fn if_error(of: &ExpView<'_>, plan: Plan) -> Plan
    ensures { seen_plan result ≡ if_error of.now (seen_plan plan) }
{
    match of.head() {
        ExpHead::Error => plan,
        _ => Plan::Nothing,
    }
}

/// How a member with this word is made of an expression of a kind.
fn member_plan(kind: Kind<'_>, of: &ExpView<'_>, word: &[u8], alone: bool) -> Plan
    ensures { (way : Way) → alone ≡ is_alone way → seen_plan result ≡ member_plan (seen_kind kind.entry) of.now word.now way }
{
    match kind {
        Kind::Errors => {
            let number = error_number(word);
            if_error(of, if_alone(alone, Plan::Leaf(Leaf::Error(number))))
        }
        Kind::Enumeration(_) => Plan::Nothing,
        _ => Plan::Same,
    }
}

/// A slice with both of these bits. What no bits have is want of memory.
fn slice_plan(high: u128, low: u128) -> Result<Plan, OutOfMemory>
    ensures { IfOk result (λ plan. seen_plan plan ≡ sliced low (suc high - low)) }
{
    let Some(end) = high.checked_add(1) else {
        return Err(OutOfMemory);
    };
    let place = narrow(low)?;
    let width = narrow(end.saturating_sub(low))?;
    Ok(Plan::Sliced(place, width))
}

/// What `lookahead` to a kind gives.
fn lookahead_plan(kind: Kind<'_>) -> Result<Plan, OutOfMemory>
    ensures { IfOk result (λ plan. seen_plan plan ≡ lookahead_plan (seen_kind kind.entry)) }
{
    match kind {
        Kind::Bits(width) => {
            let width = narrow(width)?;
            Ok(Plan::Leaf(Leaf::Ahead(width)))
        }
        _ => Ok(Plan::Nothing),
    }
}

/// A cast.
fn cast_plan(to: CastType) -> Result<Plan, OutOfMemory>
    ensures { IfOk result (λ plan. seen_plan plan ≡ cast_plan to) }
{
    match to {
        CastType::Bit(width) => {
            let width = narrow(width.value)?;
            Ok(Plan::ToBits(width))
        }
        CastType::Bool => Ok(Plan::ToTruth),
    }
}

/// How what is called is made, where the value of the call is asked.
fn callee_plan(head: ExpHead<'_>) -> Plan
    ensures { seen_plan result ≡ callee_plan (of_exp_head head.entry) }
{
    match head {
        ExpHead::Member(_, _) => Plan::Same,
        _ => Plan::Nothing,
    }
}

/// How an expression at a place is made, of which this way is asked.
fn place_plan<'a>(
    around: Around<'_, 'a>,
    ways: &Ways<'a>,
    place: Place<'a>,
    way: usize,
    head: ExpHead<'a>,
    row: Row<'a>,
) -> Result<Plan, OutOfMemory>
    requires types { around.types.now ≡ layouts_of around.scope.now.top.now }
    requires ways { AreWays ways.now }
    requires way { way < length (seen_ways ways.now) }
    ensures { IfOk result (λ plan. seen_plan plan ≡ plan_at (seen_scope around.entry.scope.now) (seen_seats around.entry.seats.now) (seen_row (top_names around.entry.scope.now.top.now) row.entry) (seen_place place.entry) (way_at (seen_ways ways.now) way) (of_exp_head head.entry)) }
{
    let alone = ways.is_alone(way);
    match head {
        ExpHead::Literal(number) => Ok(if_alone(alone, Plan::Leaf(literal(place, number)?))),
        ExpHead::Truth(holds) => Ok(if_alone(alone, Plan::Leaf(Leaf::Truth(holds)))),
        ExpHead::Name(text) => name_plan(around.seats, around.types, ways, way, text.as_slice()),
        ExpHead::Member(of, word) => Ok(member_plan(row.left, &of, word.as_slice(), alone)),
        ExpHead::Index(_, _) => Ok(Plan::Same),
        ExpHead::Slice(_, high, low) => Ok(if_alone(alone, slice_plan(high.value, low.value)?)),
        ExpHead::Call(_, _) => Ok(Plan::Same),
        ExpHead::Lookahead(_, to, _) => {
            Ok(if_alone(alone, lookahead_plan(around.scope.kind_of_type(to))?))
        }
        ExpHead::Cast(to, _) => Ok(if_alone(alone, cast_plan(to)?)),
        ExpHead::Unary(operator, _) => Ok(if_alone(alone, Plan::Unary(operator))),
        ExpHead::Binary(operator, _, _) => Ok(if_alone(alone, Plan::Binary(operator))),
        ExpHead::Choice(_, _, _) => Ok(Plan::Choice),
        _ => Ok(Plan::Nothing),
    }
}

/// How an expression is made, given what is asked of it and what is known of it.
pub fn plan_of<'a>(
    around: Around<'_, 'a>,
    ways: &Ways<'a>,
    ask: Ask<'a>,
    head: ExpHead<'a>,
    row: Row<'a>,
) -> Result<Plan, OutOfMemory>
    requires types { around.types.now ≡ layouts_of around.scope.now.top.now }
    requires ways { AreWays ways.now }
    requires ask { IsAskIn (length (seen_ways ways.now)) ask }
    ensures { IfOk result (λ plan. seen_plan plan ≡ planned (seen_scope around.entry.scope.now) (seen_seats around.entry.seats.now) (seen_row (top_names around.entry.scope.now.top.now) row.entry) (seen_ask (seen_ways ways.now) ask.entry) (of_exp_head head.entry)) }
{
    match ask {
        Ask::Passed => Ok(Plan::Nothing),
        Ask::Asked(place, way) => place_plan(around, ways, place, way, head, row),
        Ask::Called(_) => Ok(callee_plan(head)),
    }
}
