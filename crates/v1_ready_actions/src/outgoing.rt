// Where the parameters of an action go back to (P4_16 1.2, "Calling convention: call by copy in/copy out").
ghost use Rattle.std.specs.Prelude.{◌≡◌, ◌<◌, true, [], ◌∷◌, Some, length, option_map, option_and_then, IfOk, OnOk};
ghost use Rattle.p416_syntax.specs.Declarations.{layouts_of};
ghost use Rattle.p416_scopes.specs.Seen.{seen_scope};
ghost use Rattle.v1_seats.specs.Seen.{seen_seat};
ghost use Rattle.v1_ready_blocks.specs.Arguments.{value_out, parts_out};
ghost use Rattle.v1_ready_blocks.specs.Nodes.{outgoing_at as stands_at, outgoing_of as stands_for};
ghost use Rattle.v1_ready_program.specs.Seen.{seen_seats};
ghost use Rattle.v1_ready_nodes.specs.Held.{trees_in, IsHeld, Grows};
ghost use Rattle.v1_place_laws.specs.Places.{range_of};
ghost use Rattle.v1_ready_statements.specs.Targets.{target_given, range_given, fixed_range};
ghost use Rattle.v1_ready_statements.specs.Given.{join_option, is_back, outgoing_at, outgoing_of};
ghost use Rattle.v1_ready_operands.specs.Callees.{around_of, AreCallees};
ghost use Rattle.v1_ready_operands.specs.Seen.{seen_outgoing, ArePassedIn};
ghost use Rattle.v1_ready_operands.specs.internal.Passes.{behind_out};

use p4x_bits::OutOfMemory;
use p416_names::Kind;
use p416_syntax::{Direction, ExpView};
use std::alloc::Global;
use v1_block_seats::variable_seat;
use v1_ready_blocks::{Node, OutgoingNode, Range, RangePlace, Target};
use v1_ready_nodes::ReadyNodes;
use v1_ready_operands::{Callees, Passed, range_given, target_given};
use v1_ready_places::{fixed_range, range_of};
use v1_ready_program::Around;
use v1_seats::Seat;
use work_stack::Stack;

/// Whether a parameter is written back.
fn is_back(direction: Option<Direction>) -> bool
    ensures { result ≡ is_back direction }
{
    match direction {
        Some(Direction::Out) => true,
        Some(Direction::InOut) => true,
        _ => false,
    }
}

/// Puts a node of parameters that go back.
#[tactic(auto, using(v1_ready_operands::proofs::Chaining::outgoing_added, v1_ready_operands::proofs::Chaining::passed_within))]
fn put_outgoing(nodes: &mut ReadyNodes<'_>, node: OutgoingNode) -> Result<usize, OutOfMemory>
    requires held { IsHeld nodes.old }
    ensures outgoing { IfOk result (λ place. stands_at (trees_in nodes.new) place ≡ stands_for (trees_in nodes.old) node) }
    ensures within { IfOk result (λ place. place < length (trees_in nodes.new)) }
    ensures grows { OnOk result (Grows nodes.old nodes.new) }
{
    nodes.put(Node::Outgoing(node))
}

/// None.
fn no_outgoing(nodes: &mut ReadyNodes<'_>) -> Result<Option<usize>, OutOfMemory>
    requires held { IsHeld nodes.old }
    ensures outgoing { IfOk result (λ found. seen_outgoing nodes.new found ≡ Some []) }
    ensures within { IfOk result (ArePassedIn nodes.new) }
    ensures grows { OnOk result (Grows nodes.old nodes.new) }
{
    let place = put_outgoing(nodes, OutgoingNode::Nothing)?;
    Ok(Some(place))
}

/// A slot that goes to a target in front of those behind it, if all of these are some.
fn put_value(
    nodes: &mut ReadyNodes<'_>,
    slot: u32,
    to: Option<Target>,
    rest: Option<usize>,
) -> Result<Option<usize>, OutOfMemory>
    requires held { IsHeld nodes.old }
    ensures outgoing { IfOk result (λ found. seen_outgoing nodes.new found ≡ join_option (option_map (λ t. value_out slot t ∷ []) to) (seen_outgoing nodes.old rest)) }
    ensures within { IfOk result (ArePassedIn nodes.new) }
    ensures grows { OnOk result (Grows nodes.old nodes.new) }
{
    match (to, rest) {
        (Some(to), Some(rest)) => {
            let place = put_outgoing(nodes, OutgoingNode::Value(slot, to, rest))?;
            Ok(Some(place))
        }
        _ => Ok(None),
    }
}

/// Parts that go to others in front of those behind them, if all of these are some.
fn put_parts(
    nodes: &mut ReadyNodes<'_>,
    range: Range,
    to: Option<Range>,
    rest: Option<usize>,
) -> Result<Option<usize>, OutOfMemory>
    requires held { IsHeld nodes.old }
    ensures outgoing { IfOk result (λ found. seen_outgoing nodes.new found ≡ join_option (option_map (λ t. parts_out range t ∷ []) to) (seen_outgoing nodes.old rest)) }
    ensures within { IfOk result (ArePassedIn nodes.new) }
    ensures grows { OnOk result (Grows nodes.old nodes.new) }
{
    match (to, rest) {
        (Some(to), Some(rest)) => {
            let place = put_outgoing(nodes, OutgoingNode::Parts(range, to, rest))?;
            Ok(Some(place))
        }
        _ => Ok(None),
    }
}

/// The parts of a place, where no stack tells them.
fn fixed(place: Option<RangePlace>) -> Option<Range>
    ensures { result ≡ option_and_then fixed_range place }
{
    match place {
        Some(place) => fixed_range(place),
        None => None,
    }
}

/// A slot goes back to an argument in front of what is behind it.
fn value_before<'a>(
    alloc: Global,
    nodes: &mut ReadyNodes<'_>,
    around: Around<'_, 'a>,
    slot: u32,
    argument: &ExpView<'a>,
    rest: Option<usize>,
) -> Result<Option<usize>, OutOfMemory>
    requires held { IsHeld nodes.old }
    requires types { around.types.now ≡ layouts_of around.scope.now.top.now }
    ensures outgoing { IfOk result (λ found. seen_outgoing nodes.new found ≡ join_option (option_map (λ t. value_out slot t ∷ []) (target_given (seen_scope around.entry.scope.now) (seen_seats around.entry.seats.now) argument.now)) (seen_outgoing nodes.old rest)) }
    ensures within { IfOk result (ArePassedIn nodes.new) }
    ensures grows { OnOk result (Grows nodes.old nodes.new) }
{
    let to = target_given(alloc, around, argument)?;
    let found = put_value(nodes, slot, to, rest)?;
    Ok(found)
}

/// The parts at a seat go back to an argument in front of what is behind them.
fn parts_before<'a>(
    alloc: Global,
    nodes: &mut ReadyNodes<'_>,
    around: Around<'_, 'a>,
    seat: Seat<'a>,
    argument: &ExpView<'a>,
    rest: Option<usize>,
) -> Result<Option<usize>, OutOfMemory>
    requires held { IsHeld nodes.old }
    requires types { around.types.now ≡ layouts_of around.scope.now.top.now }
    ensures outgoing { IfOk result (λ found. seen_outgoing nodes.new found ≡ join_option (option_map (λ t. parts_out (range_of (seen_scope around.entry.scope.now).layouts (seen_seat seat.entry)) t ∷ []) (option_and_then fixed_range (range_given (seen_scope around.entry.scope.now) (seen_seats around.entry.seats.now) argument.now))) (seen_outgoing nodes.old rest)) }
    ensures within { IfOk result (ArePassedIn nodes.new) }
    ensures grows { OnOk result (Grows nodes.old nodes.new) }
{
    let range = range_of(around.types, seat)?;
    let place = range_given(alloc, around, argument)?;
    let to = fixed(place);
    let found = put_parts(nodes, range, to, rest)?;
    Ok(found)
}

/// What stands at a seat goes back to its argument in front of what is behind it.
fn seated_before<'a>(
    alloc: Global,
    nodes: &mut ReadyNodes<'_>,
    around: Around<'_, 'a>,
    seat: Seat<'a>,
    argument: &ExpView<'a>,
    rest: Option<usize>,
) -> Result<Option<usize>, OutOfMemory>
    requires held { IsHeld nodes.old }
    requires types { around.types.now ≡ layouts_of around.scope.now.top.now }
    ensures outgoing { IfOk result (λ found. seen_outgoing nodes.new found ≡ join_option (outgoing_at (seen_scope around.entry.scope.now) (seen_seats around.entry.seats.now) true (seen_seat seat.entry) argument.now) (seen_outgoing nodes.old rest)) }
    ensures within { IfOk result (ArePassedIn nodes.new) }
    ensures grows { OnOk result (Grows nodes.old nodes.new) }
{
    match seat.kind {
        Kind::Bits(_) | Kind::Boolean | Kind::ErrorCode => {
            let slot = seat.start.slot;
            value_before(alloc, nodes, around, slot, argument, rest)
        }
        Kind::Header(_) | Kind::Stack(_, _) | Kind::Struct(_) => {
            parts_before(alloc, nodes, around, seat, argument, rest)
        }
        _ => Ok(None),
    }
}

/// A parameter at a seat goes back to its argument, or it doesn't.
#[tactic(auto, using(v1_ready_operands::proofs::Chaining::join_none))]
fn outgoing_before<'a>(
    alloc: Global,
    nodes: &mut ReadyNodes<'_>,
    around: Around<'_, 'a>,
    seat: Seat<'a>,
    back: bool,
    argument: &ExpView<'a>,
    rest: Option<usize>,
) -> Result<Option<usize>, OutOfMemory>
    requires held { IsHeld nodes.old }
    requires types { around.types.now ≡ layouts_of around.scope.now.top.now }
    requires rest { ArePassedIn nodes.old rest }
    ensures outgoing { IfOk result (λ found. seen_outgoing nodes.new found ≡ join_option (outgoing_at (seen_scope around.entry.scope.now) (seen_seats around.entry.seats.now) back (seen_seat seat.entry) argument.now) (seen_outgoing nodes.old rest)) }
    ensures within { IfOk result (ArePassedIn nodes.new) }
    ensures grows { OnOk result (Grows nodes.old nodes.new) }
{
    if back {
        seated_before(alloc, nodes, around, seat, argument, rest)
    } else {
        Ok(rest)
    }
}

/// A parameter goes back to its argument, or it doesn't, if it has a seat.
fn seat_before<'a>(
    alloc: Global,
    nodes: &mut ReadyNodes<'_>,
    around: Around<'_, 'a>,
    seat: Option<Seat<'a>>,
    back: bool,
    argument: &ExpView<'a>,
    rest: Option<usize>,
) -> Result<Option<usize>, OutOfMemory>
    requires held { IsHeld nodes.old }
    requires types { around.types.now ≡ layouts_of around.scope.now.top.now }
    requires rest { ArePassedIn nodes.old rest }
    ensures outgoing { IfOk result (λ found. seen_outgoing nodes.new found ≡ join_option (option_and_then (λ t. outgoing_at (seen_scope around.entry.scope.now) (seen_seats around.entry.seats.now) back t argument.now) (option_map seen_seat seat.entry)) (seen_outgoing nodes.old rest)) }
    ensures within { IfOk result (ArePassedIn nodes.new) }
    ensures grows { OnOk result (Grows nodes.old nodes.new) }
{
    match seat {
        Some(seat) => outgoing_before(alloc, nodes, around, seat, back, argument, rest),
        None => Ok(None),
    }
}

/// Where a parameter goes back to in front of those behind it.
fn one_outgoing<'a>(
    alloc: Global,
    nodes: &mut ReadyNodes<'_>,
    around: Around<'_, 'a>,
    callees: Callees<'_, 'a>,
    passed: &Passed<'a>,
    rest: Option<usize>,
) -> Result<Option<usize>, OutOfMemory>
    requires held { IsHeld nodes.old }
    requires types { around.types.now ≡ layouts_of around.scope.now.top.now }
    requires callees { AreCallees callees }
    requires rest { ArePassedIn nodes.old rest }
    ensures outgoing { IfOk result (λ found. seen_outgoing nodes.new found ≡ join_option (outgoing_of (around_of callees.entry) (seen_scope around.entry.scope.now) (seen_seats around.entry.seats.now) passed.now.number passed.now.parameter.now passed.now.argument) (seen_outgoing nodes.old rest)) }
    ensures within { IfOk result (ArePassedIn nodes.new) }
    ensures grows { OnOk result (Grows nodes.old nodes.new) }
{
    let back = is_back(passed.parameter.direction);
    let seat = variable_seat(callees.syntax, callees.seats, passed.number)?;
    let argument = &passed.argument;
    let found = seat_before(alloc, nodes, around, seat, back, argument, rest)?;
    Ok(found)
}

/// Which of these parameters go back, the last one first: the place; none exactly where the argument of such a one is no l-value that
/// fits it. Errors as those of `ready_place`.
pub fn all_outgoing<'a>(
    alloc: Global,
    nodes: &mut ReadyNodes<'_>,
    around: Around<'_, 'a>,
    callees: Callees<'_, 'a>,
    mut passed: Stack<Passed<'a>>,
) -> Result<Option<usize>, OutOfMemory>
    requires held { IsHeld nodes.old }
    requires types { around.types.now ≡ layouts_of around.scope.now.top.now }
    requires callees { AreCallees callees }
    ensures outgoing { IfOk result (λ found. seen_outgoing nodes.new found ≡ behind_out (around_of callees.entry) (seen_scope around.entry.scope.now) (seen_seats around.entry.seats.now) passed.entry (Some [])) }
    ensures within { IfOk result (ArePassedIn nodes.new) }
    ensures grows { OnOk result (Grows nodes.old nodes.new) }
{
    let none = no_outgoing(nodes)?;
    let mut found = none;
    while let Some(one) = passed.pop() {
        found = one_outgoing(alloc, nodes, around, callees, &one, found)?;
    }
    Ok(found)
}
