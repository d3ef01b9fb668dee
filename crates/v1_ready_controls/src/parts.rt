// What single statements ask a block for, and how they are made (P4_16 1.2, "Statements").
ghost use Rattle.std.specs.Prelude.{◌≡◌, option_map, IfOk, OnOk};
ghost use Rattle.p416_names.specs.SeenKinds.{seen_kind};
ghost use Rattle.p416_syntax.specs.Kinds.{boolean};
ghost use Rattle.p416_syntax.specs.Calls.{value};
ghost use Rattle.p416_syntax.specs.Declarations.{layouts_of};
ghost use Rattle.p416_scopes.specs.Seen.{seen_scope};
ghost use Rattle.v1_seats.specs.Seen.{seen_seat};
ghost use Rattle.v1_ready_program.specs.Seen.{seen_seats};
ghost use Rattle.v1_ready_nodes.specs.Held.{IsHeld, Grows};
ghost use Rattle.v1_ready_statements.specs.Around.{action_found, table_found, variable_seat};
ghost use Rattle.v1_ready_statements.specs.Blocks.{number_in};
ghost use Rattle.v1_ready_statements.specs.Tested.{ready_test};
ghost use Rattle.v1_ready_statements.specs.Statements.{start_ready, initial_ready, assignment_ready};
ghost use Rattle.v1_ready_operands.specs.Callees.{around_of, AreCallees};
ghost use Rattle.v1_ready_bodies.specs.Seen.{seen_test, seen_statement, IsNodeIn};

use p4x_bits::OutOfMemory;
use p416_calls::Place;
use p416_names::Kind;
use p416_syntax::ExpView;
use std::alloc::Global;
use v1_block_seats::variable_seat;
use v1_ready_calls::{ready_assignment, ready_initial, ready_start};
use v1_ready_nodes::ReadyNodes;
use v1_ready_operands::Callees;
use v1_ready_program::Around;
use v1_ready_tests::ready_test;
use v1_seats::Seat;

/// The number of the table of this name.
#[tactic(auto, using(crate::proofs::Asking::table_is))]
pub(crate) fn table_called(callees: Callees<'_, '_>, name: &[u8]) -> Option<u32>
    requires { AreCallees callees }
    ensures { result ≡ table_found (around_of callees.entry) name.now }
{
    callees.tables.find(name)
}

/// The number of the action of this name.
#[tactic(auto, using(v1_ready_operands::proofs::Naming::action_numbered))]
pub(crate) fn action_numbered(callees: Callees<'_, '_>, name: &[u8]) -> Option<u32>
    requires { AreCallees callees }
    ensures { result ≡ option_map number_in (action_found (around_of callees.entry) name.now) }
{
    callees.action_names.find(name)
}

/// The seat of the variable with this number.
pub(crate) fn seat_numbered<'a>(
    callees: Callees<'_, 'a>,
    number: usize,
) -> Result<Option<Seat<'a>>, OutOfMemory>
    requires { AreCallees callees }
    ensures { IfOk result (λ found. option_map seen_seat found ≡ variable_seat (around_of callees.entry) number) }
{
    let found = variable_seat(callees.syntax, callees.seats, number)?;
    Ok(found)
}

/// The test of a condition.
#[tactic(auto, using(crate::proofs::Asking::test_is))]
pub(crate) fn condition_of<'a>(
    alloc: Global,
    callees: Callees<'_, 'a>,
    nodes: &mut ReadyNodes<'_>,
    around: Around<'_, 'a>,
    condition: &ExpView<'a>,
) -> Result<Option<usize>, OutOfMemory>
    requires callees { AreCallees callees }
    requires held { IsHeld nodes.old }
    requires types { around.types.now ≡ layouts_of around.scope.now.top.now }
    ensures test { IfOk result (λ found. seen_test nodes.new found ≡ ready_test (seen_scope around.entry.scope.now) (seen_seats around.entry.seats.now) (table_found (around_of callees.entry)) (value boolean) condition.now) }
    ensures within { IfOk result (IsNodeIn nodes.new) }
    ensures grows { OnOk result (Grows nodes.old nodes.new) }
{
    let place = Place::Value(Kind::Boolean);
    let found = ready_test(alloc, nodes, around, callees.tables, place, condition)?;
    Ok(found)
}

/// That the variable with a number starts at 0.
#[tactic(auto, using(crate::proofs::Asking::start_is))]
pub(crate) fn start_of<'a>(
    callees: Callees<'_, 'a>,
    nodes: &mut ReadyNodes<'_>,
    around: Around<'_, 'a>,
    number: usize,
) -> Result<Option<usize>, OutOfMemory>
    requires callees { AreCallees callees }
    requires held { IsHeld nodes.old }
    requires types { around.types.now ≡ layouts_of around.scope.now.top.now }
    ensures statement { IfOk result (λ found. seen_statement nodes.new found ≡ start_ready (around_of callees.entry) (seen_scope around.entry.scope.now) number) }
    ensures within { IfOk result (IsNodeIn nodes.new) }
    ensures grows { OnOk result (Grows nodes.old nodes.new) }
{
    let seat = seat_numbered(callees, number)?;
    let found = ready_start(nodes, around.types, seat)?;
    Ok(found)
}

/// That the variable with a number, of a kind, has an initial value.
#[tactic(auto, using(crate::proofs::Asking::initial_is))]
pub(crate) fn initial_of<'a>(
    alloc: Global,
    callees: Callees<'_, 'a>,
    nodes: &mut ReadyNodes<'_>,
    around: Around<'_, 'a>,
    number: usize,
    kind: Kind<'a>,
    value: &ExpView<'a>,
) -> Result<Option<usize>, OutOfMemory>
    requires callees { AreCallees callees }
    requires held { IsHeld nodes.old }
    requires types { around.types.now ≡ layouts_of around.scope.now.top.now }
    ensures statement { IfOk result (λ found. seen_statement nodes.new found ≡ initial_ready (around_of callees.entry) (seen_scope around.entry.scope.now) (seen_seats around.entry.seats.now) number (seen_kind kind.entry) value.now) }
    ensures within { IfOk result (IsNodeIn nodes.new) }
    ensures grows { OnOk result (Grows nodes.old nodes.new) }
{
    let seat = seat_numbered(callees, number)?;
    let found = ready_initial(alloc, nodes, around, callees.tables, seat, kind, value)?;
    Ok(found)
}

/// An assignment of a value to a target.
#[tactic(auto, using(crate::proofs::Asking::assignment_is))]
pub(crate) fn assignment_of<'a>(
    alloc: Global,
    callees: Callees<'_, 'a>,
    nodes: &mut ReadyNodes<'_>,
    around: Around<'_, 'a>,
    target: &ExpView<'a>,
    value: &ExpView<'a>,
) -> Result<Option<usize>, OutOfMemory>
    requires callees { AreCallees callees }
    requires held { IsHeld nodes.old }
    requires types { around.types.now ≡ layouts_of around.scope.now.top.now }
    ensures statement { IfOk result (λ found. seen_statement nodes.new found ≡ assignment_ready (around_of callees.entry) (seen_scope around.entry.scope.now) (seen_seats around.entry.seats.now) target.now value.now) }
    ensures within { IfOk result (IsNodeIn nodes.new) }
    ensures grows { OnOk result (Grows nodes.old nodes.new) }
{
    let found = ready_assignment(alloc, nodes, around, callees.tables, target, value)?;
    Ok(found)
}
