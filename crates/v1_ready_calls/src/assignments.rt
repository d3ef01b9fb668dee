// Assignments and variables (P4_16 1.2, "Assignment statement", "Variable declarations").
ghost use Rattle.std.specs.Prelude.{◌≡◌, option_map, option_and_then, IfOk, OnOk};
ghost use Rattle.name_numbers.specs.Names.{find_name};
ghost use Rattle.p416_syntax.specs.Declarations.{layouts_of};
ghost use Rattle.p416_syntax.specs.Calls.{value};
ghost use Rattle.p416_syntax.specs.Statements.{assigned_place};
ghost use Rattle.p416_names.specs.SeenKinds.{seen_kind};
ghost use Rattle.p416_calls.specs.Seen.{seen_place};
ghost use Rattle.p416_scopes.specs.Seen.{seen_scope};
ghost use Rattle.v1_seats.specs.Seen.{seen_seat};
ghost use Rattle.v1_ready_blocks.specs.Statements.{does, start};
ghost use Rattle.v1_ready_blocks.specs.Places.{seen_slice};
ghost use Rattle.v1_place_laws.specs.Places.{range_of};
ghost use Rattle.v1_ready_program.specs.Seen.{seen_seats};
ghost use Rattle.v1_ready_places.specs.Seen.{seen_meant};
ghost use Rattle.v1_ready_nodes.specs.Held.{IsHeld, Grows};
ghost use Rattle.v1_ready_statements.specs.Tested.{ready_test, ready_source};
ghost use Rattle.v1_ready_statements.specs.Statements.{assigns, assigns_parts, whole_seat};
ghost use Rattle.v1_ready_calls.specs.Assigned.{assigned_by, assignment_by};
ghost use Rattle.v1_ready_operands.specs.SeenStatements.{seen_statement, IsStatementIn};

use name_numbers::Numbering;
use p4x_bits::OutOfMemory;
use p416_calls::Place;
use p416_names::Kind;
use p416_syntax::ExpView;
use std::alloc::Global;
use v1_ready_blocks::{RangePlace, Slice, SlotPlace, StatementNode};
use v1_ready_nodes::ReadyNodes;
use v1_ready_operands::{put_statement, ready_source};
use v1_ready_places::{Meant, kind_of, parts_of, range_of, ready_place, slot_place_of};
use v1_ready_program::Around;
use v1_ready_program::spots::Spot;
use v1_ready_tests::ready_test;
use v1_seats::{Seat, TypeTable};

/// The place of what is assigned to a target of a kind.
fn assigned_place(kind: Kind<'_>) -> Place<'_>
    ensures { seen_place result ≡ assigned_place (seen_kind kind.entry) }
{
    if kind.is_chosen() || kind.is_packet() {
        Place::Value(kind)
    } else {
        Place::Unasked
    }
}

/// A single value at its place goes to a slot, or to a slice of it.
#[tactic(auto, using(v1_ready_operands::proofs::KeepingStatements::sliced_again))]
fn assign_value<'a>(
    alloc: Global,
    nodes: &mut ReadyNodes<'_>,
    around: Around<'_, 'a>,
    tables: &Numbering<'_>,
    to: Option<SlotPlace>,
    slice: Option<Slice>,
    place: Place<'a>,
    expression: &ExpView<'a>,
) -> Result<Option<usize>, OutOfMemory>
    requires held { IsHeld nodes.old }
    requires types { around.types.now ≡ layouts_of around.scope.now.top.now }
    ensures statement { IfOk result (λ found. seen_statement nodes.new found ≡ option_map does (assigns (option_map seen_slice slice) to (ready_test (seen_scope around.entry.scope.now) (seen_seats around.entry.seats.now) (find_name tables.now) (seen_place place.entry) expression.now))) }
    ensures within { IfOk result (IsStatementIn nodes.new) }
    ensures grows { OnOk result (Grows nodes.old nodes.new) }
{
    let test = ready_test(alloc, nodes, around, tables, place, expression)?;
    match (to, test) {
        (Some(to), Some(test)) => {
            let statement = put_statement(nodes, StatementNode::Assign(to, slice, test))?;
            Ok(Some(statement))
        }
        _ => Ok(None),
    }
}

/// A header, a stack or a struct goes to parts.
fn assign_parts<'a>(
    alloc: Global,
    nodes: &mut ReadyNodes<'_>,
    around: Around<'_, 'a>,
    tables: &Numbering<'_>,
    to: Option<RangePlace>,
    expression: &ExpView<'a>,
) -> Result<Option<usize>, OutOfMemory>
    requires held { IsHeld nodes.old }
    requires types { around.types.now ≡ layouts_of around.scope.now.top.now }
    ensures statement { IfOk result (λ found. seen_statement nodes.new found ≡ option_map does (assigns_parts to (ready_source (seen_scope around.entry.scope.now) (seen_seats around.entry.seats.now) (find_name tables.now) expression.now))) }
    ensures within { IfOk result (IsStatementIn nodes.new) }
    ensures grows { OnOk result (Grows nodes.old nodes.new) }
{
    let source = ready_source(alloc, nodes, around, tables, expression)?;
    match (to, source) {
        (Some(to), Some(source)) => {
            let statement = put_statement(nodes, StatementNode::AssignParts(to, source))?;
            Ok(Some(statement))
        }
        _ => Ok(None),
    }
}

/// An expression, at its place where it is a single value, goes to what is meant, where tables of these names in order may be applied:
/// the place of the statement, which is put behind the others; none exactly where it can't go there. Errors as those of
/// `ready_test`.
pub fn assigned<'a>(
    alloc: Global,
    nodes: &mut ReadyNodes<'_>,
    around: Around<'_, 'a>,
    tables: &Numbering<'_>,
    place: Place<'a>,
    expression: &ExpView<'a>,
    meant: Meant<'a>,
) -> Result<Option<usize>, OutOfMemory>
    requires held { IsHeld nodes.old }
    requires types { around.types.now ≡ layouts_of around.scope.now.top.now }
    ensures statement { IfOk result (λ found. seen_statement nodes.new found ≡ option_map does (assigned_by (seen_scope around.entry.scope.now) (seen_seats around.entry.seats.now) (find_name tables.now) (seen_place place.entry) expression.now (seen_meant meant.entry))) }
    ensures within { IfOk result (IsStatementIn nodes.new) }
    ensures grows { OnOk result (Grows nodes.old nodes.new) }
{
    match meant.spot.seat.kind {
        Kind::Bits(_) | Kind::Boolean | Kind::ErrorCode => {
            let to = slot_place_of(meant.spot);
            assign_value(
                alloc,
                nodes,
                around,
                tables,
                to,
                meant.slice,
                place,
                expression,
            )
        }
        _ => {
            let to = parts_of(around.types, meant)?;
            assign_parts(alloc, nodes, around, tables, to, expression)
        }
    }
}

/// Makes an assignment ready; as `assigned`.
pub fn ready_assignment<'a>(
    alloc: Global,
    nodes: &mut ReadyNodes<'_>,
    around: Around<'_, 'a>,
    tables: &Numbering<'_>,
    target: &ExpView<'a>,
    expression: &ExpView<'a>,
) -> Result<Option<usize>, OutOfMemory>
    requires held { IsHeld nodes.old }
    requires types { around.types.now ≡ layouts_of around.scope.now.top.now }
    ensures statement { IfOk result (λ found. seen_statement nodes.new found ≡ assignment_by (seen_scope around.entry.scope.now) (seen_seats around.entry.seats.now) (find_name tables.now) target.now expression.now) }
    ensures within { IfOk result (IsStatementIn nodes.new) }
    ensures grows { OnOk result (Grows nodes.old nodes.new) }
{
    let place = assigned_place(kind_of(alloc, around.scope, target)?);
    match ready_place(alloc, around, target)? {
        Some(meant) => assigned(alloc, nodes, around, tables, place, expression, meant),
        None => Ok(None),
    }
}

/// The initial value of a variable of a kind that stands at a seat, if it does; as `assigned`.
pub fn ready_initial<'a>(
    alloc: Global,
    nodes: &mut ReadyNodes<'_>,
    around: Around<'_, 'a>,
    tables: &Numbering<'_>,
    seat: Option<Seat<'a>>,
    kind: Kind<'a>,
    expression: &ExpView<'a>,
) -> Result<Option<usize>, OutOfMemory>
    requires held { IsHeld nodes.old }
    requires types { around.types.now ≡ layouts_of around.scope.now.top.now }
    ensures statement { IfOk result (λ found. seen_statement nodes.new found ≡ option_map does (option_and_then (λ t. assigned_by (seen_scope around.entry.scope.now) (seen_seats around.entry.seats.now) (find_name tables.now) (value (seen_kind kind.entry)) expression.now (whole_seat t)) (option_map seen_seat seat.entry))) }
    ensures within { IfOk result (IsStatementIn nodes.new) }
    ensures grows { OnOk result (Grows nodes.old nodes.new) }
{
    match seat {
        Some(seat) => {
            let spot = Spot { seat, told: None };
            let meant = Meant { spot, slice: None };
            assigned(
                alloc,
                nodes,
                around,
                tables,
                Place::Value(kind),
                expression,
                meant,
            )
        }
        None => Ok(None),
    }
}

/// A variable without an initial value, which stands at a seat, if it does: the place of the statement with which it starts.
pub fn ready_start<'a>(
    nodes: &mut ReadyNodes<'_>,
    types: &TypeTable<'_, 'a>,
    seat: Option<Seat<'a>>,
) -> Result<Option<usize>, OutOfMemory>
    requires held { IsHeld nodes.old }
    ensures statement { IfOk result (λ found. seen_statement nodes.new found ≡ option_map (λ t. start (range_of types.now t)) (option_map seen_seat seat.entry)) }
    ensures within { IfOk result (IsStatementIn nodes.new) }
    ensures grows { OnOk result (Grows nodes.old nodes.new) }
{
    match seat {
        Some(seat) => {
            let range = range_of(types, seat)?;
            let statement = put_statement(nodes, StatementNode::Start(range))?;
            Ok(Some(statement))
        }
        None => Ok(None),
    }
}
