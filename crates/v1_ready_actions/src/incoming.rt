// What the parameters of an action start with (P4_16 1.2, "Calling convention: call by copy in/copy out").
ghost use Rattle.std.specs.Prelude.{◌≡◌, ◌<◌, [], Some, length, option_map, option_and_then, IfOk, OnOk};
ghost use Rattle.name_numbers.specs.Names.{find_name};
ghost use Rattle.p416_syntax.specs.Calls.{value};
ghost use Rattle.p416_syntax.specs.Declarations.{layouts_of};
ghost use Rattle.p416_names.specs.SeenKinds.{seen_kind};
ghost use Rattle.p416_scopes.specs.Seen.{seen_scope};
ghost use Rattle.v1_seats.specs.Seen.{seen_seat};
ghost use Rattle.v1_ready_blocks.specs.Arguments.{value_in, parts_in, zero_in};
ghost use Rattle.v1_ready_blocks.specs.Nodes.{incoming_at, incoming_of, source_at};
ghost use Rattle.v1_place_laws.specs.Places.{range_of};
ghost use Rattle.v1_ready_program.specs.Seen.{seen_seats};
ghost use Rattle.v1_ready_nodes.specs.Held.{trees_in, IsHeld, Grows};
ghost use Rattle.v1_ready_statements.specs.Tested.{ready_test, ready_source};
ghost use Rattle.v1_ready_statements.specs.Given.{cons_option, is_out};
ghost use Rattle.v1_ready_statements.specs.Given as given;
ghost use Rattle.v1_ready_tests.specs.internal.Coded.{seen_test};
ghost use Rattle.v1_ready_operands.specs.Callees.{around_of, AreCallees};
ghost use Rattle.v1_ready_operands.specs.Seen.{seen_incoming, ArePassedIn};
ghost use Rattle.v1_ready_operands.specs.internal.Passes.{incoming_by, behind_in};

use name_numbers::Numbering;
use p4x_bits::OutOfMemory;
use p416_calls::Place;
use p416_names::Kind;
use p416_syntax::{Direction, ExpView};
use std::alloc::Global;
use v1_block_seats::variable_seat;
use v1_ready_blocks::{IncomingNode, Node, Range};
use v1_ready_nodes::ReadyNodes;
use v1_ready_operands::{Callees, Passed, ready_source};
use v1_ready_places::range_of;
use v1_ready_program::Around;
use v1_ready_tests::ready_test;
use v1_seats::Seat;
use work_stack::Stack;

/// Whether a parameter starts at 0.
fn is_out(direction: Option<Direction>) -> bool
    ensures { result ≡ is_out direction }
{
    match direction {
        Some(Direction::Out) => true,
        _ => false,
    }
}

/// Puts a node of what parameters start with.
#[tactic(auto, using(v1_ready_operands::proofs::Chaining::incoming_added, v1_ready_operands::proofs::Chaining::passed_within))]
fn put_incoming(nodes: &mut ReadyNodes<'_>, node: IncomingNode) -> Result<usize, OutOfMemory>
    requires held { IsHeld nodes.old }
    ensures incoming { IfOk result (λ place. incoming_at (trees_in nodes.new) place ≡ incoming_of (trees_in nodes.old) node) }
    ensures within { IfOk result (λ place. place < length (trees_in nodes.new)) }
    ensures grows { OnOk result (Grows nodes.old nodes.new) }
{
    nodes.put(Node::Incoming(node))
}

/// No parameters.
fn no_incoming(nodes: &mut ReadyNodes<'_>) -> Result<Option<usize>, OutOfMemory>
    requires held { IsHeld nodes.old }
    ensures incoming { IfOk result (λ found. seen_incoming nodes.new found ≡ Some []) }
    ensures within { IfOk result (ArePassedIn nodes.new) }
    ensures grows { OnOk result (Grows nodes.old nodes.new) }
{
    let place = put_incoming(nodes, IncomingNode::Nothing)?;
    Ok(Some(place))
}

/// A parameter that starts with a value in front of those behind it, if all of these are some.
fn put_value(
    nodes: &mut ReadyNodes<'_>,
    slot: u32,
    test: Option<usize>,
    rest: Option<usize>,
) -> Result<Option<usize>, OutOfMemory>
    requires held { IsHeld nodes.old }
    ensures incoming { IfOk result (λ found. seen_incoming nodes.new found ≡ cons_option (option_map (value_in slot) (seen_test nodes.old test)) (seen_incoming nodes.old rest)) }
    ensures within { IfOk result (ArePassedIn nodes.new) }
    ensures grows { OnOk result (Grows nodes.old nodes.new) }
{
    match (test, rest) {
        (Some(test), Some(rest)) => {
            let place = put_incoming(nodes, IncomingNode::Value(slot, test, rest))?;
            Ok(Some(place))
        }
        _ => Ok(None),
    }
}

/// A parameter that starts with parts in front of those behind it, if all of these are some.
fn put_parts(
    nodes: &mut ReadyNodes<'_>,
    range: Range,
    source: Option<usize>,
    rest: Option<usize>,
) -> Result<Option<usize>, OutOfMemory>
    requires held { IsHeld nodes.old }
    ensures incoming { IfOk result (λ found. seen_incoming nodes.new found ≡ cons_option (option_map (parts_in range) (option_map (source_at (trees_in nodes.old)) source)) (seen_incoming nodes.old rest)) }
    ensures within { IfOk result (ArePassedIn nodes.new) }
    ensures grows { OnOk result (Grows nodes.old nodes.new) }
{
    match (source, rest) {
        (Some(source), Some(rest)) => {
            let place = put_incoming(nodes, IncomingNode::Parts(range, source, rest))?;
            Ok(Some(place))
        }
        _ => Ok(None),
    }
}

/// A parameter that starts at 0 in front of those behind it, if these are some.
fn put_zero(
    nodes: &mut ReadyNodes<'_>,
    range: Range,
    rest: Option<usize>,
) -> Result<Option<usize>, OutOfMemory>
    requires held { IsHeld nodes.old }
    ensures incoming { IfOk result (λ found. seen_incoming nodes.new found ≡ cons_option (Some (zero_in range)) (seen_incoming nodes.old rest)) }
    ensures within { IfOk result (ArePassedIn nodes.new) }
    ensures grows { OnOk result (Grows nodes.old nodes.new) }
{
    match rest {
        Some(rest) => {
            let place = put_incoming(nodes, IncomingNode::Zero(range, rest))?;
            Ok(Some(place))
        }
        None => Ok(None),
    }
}

/// A parameter of a kind with this slot starts with the value of its argument.
fn value_before<'a>(
    alloc: Global,
    nodes: &mut ReadyNodes<'_>,
    around: Around<'_, 'a>,
    tables: &Numbering<'_>,
    slot: u32,
    kind: Kind<'a>,
    argument: &ExpView<'a>,
    rest: Option<usize>,
) -> Result<Option<usize>, OutOfMemory>
    requires held { IsHeld nodes.old }
    requires types { around.types.now ≡ layouts_of around.scope.now.top.now }
    requires rest { ArePassedIn nodes.old rest }
    ensures incoming { IfOk result (λ found. seen_incoming nodes.new found ≡ cons_option (option_map (value_in slot) (ready_test (seen_scope around.entry.scope.now) (seen_seats around.entry.seats.now) (find_name tables.now) (value (seen_kind kind.entry)) argument.now)) (seen_incoming nodes.old rest)) }
    ensures within { IfOk result (ArePassedIn nodes.new) }
    ensures grows { OnOk result (Grows nodes.old nodes.new) }
{
    let place = Place::Value(kind);
    let test = ready_test(alloc, nodes, around, tables, place, argument)?;
    put_value(nodes, slot, test, rest)
}

/// A parameter at a seat starts with the parts of its argument.
fn parts_before<'a>(
    alloc: Global,
    nodes: &mut ReadyNodes<'_>,
    around: Around<'_, 'a>,
    tables: &Numbering<'_>,
    seat: Seat<'a>,
    argument: &ExpView<'a>,
    rest: Option<usize>,
) -> Result<Option<usize>, OutOfMemory>
    requires held { IsHeld nodes.old }
    requires types { around.types.now ≡ layouts_of around.scope.now.top.now }
    requires rest { ArePassedIn nodes.old rest }
    ensures incoming { IfOk result (λ found. seen_incoming nodes.new found ≡ cons_option (option_map (parts_in (range_of (seen_scope around.entry.scope.now).layouts (seen_seat seat.entry))) (ready_source (seen_scope around.entry.scope.now) (seen_seats around.entry.seats.now) (find_name tables.now) argument.now)) (seen_incoming nodes.old rest)) }
    ensures within { IfOk result (ArePassedIn nodes.new) }
    ensures grows { OnOk result (Grows nodes.old nodes.new) }
{
    let range = range_of(around.types, seat)?;
    let source = ready_source(alloc, nodes, around, tables, argument)?;
    put_parts(nodes, range, source, rest)
}

/// A parameter at a seat starts at 0.
fn zero_before<'a>(
    nodes: &mut ReadyNodes<'_>,
    around: Around<'_, 'a>,
    seat: Seat<'a>,
    rest: Option<usize>,
) -> Result<Option<usize>, OutOfMemory>
    requires held { IsHeld nodes.old }
    requires types { around.types.now ≡ layouts_of around.scope.now.top.now }
    ensures incoming { IfOk result (λ found. seen_incoming nodes.new found ≡ cons_option (Some (zero_in (range_of (seen_scope around.entry.scope.now).layouts (seen_seat seat.entry)))) (seen_incoming nodes.old rest)) }
    ensures within { IfOk result (ArePassedIn nodes.new) }
    ensures grows { OnOk result (Grows nodes.old nodes.new) }
{
    let range = range_of(around.types, seat)?;
    let found = put_zero(nodes, range, rest)?;
    Ok(found)
}

/// A parameter of a kind at a seat starts at 0, or with its argument.
fn incoming_before<'a>(
    alloc: Global,
    nodes: &mut ReadyNodes<'_>,
    around: Around<'_, 'a>,
    tables: &Numbering<'_>,
    seat: Seat<'a>,
    kind: Kind<'a>,
    out: bool,
    argument: &ExpView<'a>,
    rest: Option<usize>,
) -> Result<Option<usize>, OutOfMemory>
    requires held { IsHeld nodes.old }
    requires types { around.types.now ≡ layouts_of around.scope.now.top.now }
    requires rest { ArePassedIn nodes.old rest }
    ensures incoming { IfOk result (λ found. seen_incoming nodes.new found ≡ cons_option (incoming_by (seen_scope around.entry.scope.now) (seen_seats around.entry.seats.now) (find_name tables.now) (seen_kind kind.entry) out (seen_seat seat.entry) argument.now) (seen_incoming nodes.old rest)) }
    ensures within { IfOk result (ArePassedIn nodes.new) }
    ensures grows { OnOk result (Grows nodes.old nodes.new) }
{
    if out {
        return zero_before(nodes, around, seat, rest);
    }
    match seat.kind {
        Kind::Bits(_) | Kind::Boolean | Kind::ErrorCode => {
            let slot = seat.start.slot;
            value_before(alloc, nodes, around, tables, slot, kind, argument, rest)
        }
        Kind::Header(_) | Kind::Stack(_, _) | Kind::Struct(_) => {
            parts_before(alloc, nodes, around, tables, seat, argument, rest)
        }
        _ => Ok(None),
    }
}

/// A parameter of a kind starts at 0, or with its argument, if it has a seat.
fn seat_before<'a>(
    alloc: Global,
    nodes: &mut ReadyNodes<'_>,
    around: Around<'_, 'a>,
    tables: &Numbering<'_>,
    seat: Option<Seat<'a>>,
    kind: Kind<'a>,
    out: bool,
    argument: &ExpView<'a>,
    rest: Option<usize>,
) -> Result<Option<usize>, OutOfMemory>
    requires held { IsHeld nodes.old }
    requires types { around.types.now ≡ layouts_of around.scope.now.top.now }
    requires rest { ArePassedIn nodes.old rest }
    ensures incoming { IfOk result (λ found. seen_incoming nodes.new found ≡ cons_option (option_and_then (λ t. incoming_by (seen_scope around.entry.scope.now) (seen_seats around.entry.seats.now) (find_name tables.now) (seen_kind kind.entry) out t argument.now) (option_map seen_seat seat.entry)) (seen_incoming nodes.old rest)) }
    ensures within { IfOk result (ArePassedIn nodes.new) }
    ensures grows { OnOk result (Grows nodes.old nodes.new) }
{
    match seat {
        Some(seat) => incoming_before(
            alloc, nodes, around, tables, seat, kind, out, argument, rest,
        ),
        None => Ok(None),
    }
}

/// What a parameter is given in front of those behind it.
fn one_incoming<'a>(
    alloc: Global,
    nodes: &mut ReadyNodes<'_>,
    around: Around<'_, 'a>,
    callees: Callees<'_, 'a>,
    passed: &Passed<'a>,
    rest: Option<usize>,
) -> Result<Option<usize>, OutOfMemory>
    requires held { IsHeld nodes.old }
    requires types { around.types.now ≡ layouts_of around.scope.now.top.now }
    requires callees { AreCallees callees }
    requires rest { ArePassedIn nodes.old rest }
    ensures incoming { IfOk result (λ found. seen_incoming nodes.new found ≡ cons_option (given.incoming_of (around_of callees.entry) (seen_scope around.entry.scope.now) (seen_seats around.entry.seats.now) passed.now.number passed.now.parameter.now passed.now.argument) (seen_incoming nodes.old rest)) }
    ensures within { IfOk result (ArePassedIn nodes.new) }
    ensures grows { OnOk result (Grows nodes.old nodes.new) }
{
    let kind = around.scope.kind_of_type(&passed.parameter.of);
    let out = is_out(passed.parameter.direction);
    let seat = variable_seat(callees.syntax, callees.seats, passed.number)?;
    let tables = callees.tables;
    let argument = &passed.argument;
    let found = seat_before(
        alloc, nodes, around, tables, seat, kind, out, argument, rest,
    )?;
    Ok(found)
}

/// What these parameters start with, the last one first: the place; none exactly where one of their arguments is none of what its
/// parameter asks for. Errors as those of `ready_test`.
pub fn all_incoming<'a>(
    alloc: Global,
    nodes: &mut ReadyNodes<'_>,
    around: Around<'_, 'a>,
    callees: Callees<'_, 'a>,
    mut passed: Stack<Passed<'a>>,
) -> Result<Option<usize>, OutOfMemory>
    requires held { IsHeld nodes.old }
    requires types { around.types.now ≡ layouts_of around.scope.now.top.now }
    requires callees { AreCallees callees }
    ensures incoming { IfOk result (λ found. seen_incoming nodes.new found ≡ behind_in (around_of callees.entry) (seen_scope around.entry.scope.now) (seen_seats around.entry.seats.now) passed.entry (Some [])) }
    ensures within { IfOk result (ArePassedIn nodes.new) }
    ensures grows { OnOk result (Grows nodes.old nodes.new) }
{
    let none = no_incoming(nodes)?;
    let mut found = none;
    while let Some(one) = passed.pop() {
        found = one_incoming(alloc, nodes, around, callees, &one, found)?;
    }
    Ok(found)
}
