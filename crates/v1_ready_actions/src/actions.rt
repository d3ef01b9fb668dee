// Calls of actions (P4_16 1.2, "Invoking actions").
ghost use Rattle.std.specs.Prelude.{◌≡◌, option_map, option_and_then, IfOk, OnOk};
ghost use Rattle.p416_syntax.specs.Declarations.{layouts_of};
ghost use Rattle.p416_syntax.specs.Uses.{arguments_of};
ghost use Rattle.p416_scopes.specs.Seen.{seen_scope};
ghost use Rattle.v1_ready_blocks.specs.Statements.{call};
ghost use Rattle.v1_ready_program.specs.Seen.{seen_seats};
ghost use Rattle.v1_ready_nodes.specs.Held.{IsHeld, Grows};
ghost use Rattle.v1_ready_statements.specs.Around.{action_found};
ghost use Rattle.v1_ready_statements.specs.Given.{any_applies, all_incoming, all_outgoing};
ghost use Rattle.v1_ready_statements.specs.Called.{with_both, action_call};
ghost use Rattle.v1_ready_operands.specs.SeenStatements.{seen_statement, IsStatementIn};
ghost use Rattle.v1_ready_operands.specs.Callees.{seen_found, around_of, AreCallees};
ghost use Rattle.v1_ready_operands.specs.Seen.{seen_incoming, seen_outgoing, ArePassedIn};

use crate::applies::any_applies;
use crate::incoming::all_incoming;
use crate::outgoing::all_outgoing;
use p4x_bits::OutOfMemory;
use p416_syntax::ExpView;
use std::alloc::Global;
use v1_ready_blocks::StatementNode;
use v1_ready_nodes::ReadyNodes;
use v1_ready_operands::{Callees, FoundAction, OwnAction, action_called, passed_to, put_statement};
use v1_ready_program::Around;
use v1_ready_tests::arguments_in;

/// The call of the action with a number, where what its parameters start with and which of them go back are some.
fn put_call(
    nodes: &mut ReadyNodes<'_>,
    number: u32,
    apart: bool,
    incoming: Option<usize>,
    outgoing: Option<usize>,
) -> Result<Option<usize>, OutOfMemory>
    requires held { IsHeld nodes.old }
    ensures statement { IfOk result (λ found. seen_statement nodes.new found ≡ with_both (call number apart) (seen_incoming nodes.old incoming) (seen_outgoing nodes.old outgoing)) }
    ensures within { IfOk result (IsStatementIn nodes.new) }
    ensures grows { OnOk result (Grows nodes.old nodes.new) }
{
    match (incoming, outgoing) {
        (Some(incoming), Some(outgoing)) => {
            let node = StatementNode::Call(number, apart, incoming, outgoing);
            let statement = put_statement(nodes, node)?;
            Ok(Some(statement))
        }
        _ => Ok(None),
    }
}

/// What the parameters of an action with these arguments start with.
fn incoming_given<'a>(
    alloc: Global,
    nodes: &mut ReadyNodes<'_>,
    around: Around<'_, 'a>,
    callees: Callees<'_, 'a>,
    own: OwnAction<'a>,
    given: &ExpView<'a>,
) -> Result<Option<usize>, OutOfMemory>
    requires held { IsHeld nodes.old }
    requires types { around.types.now ≡ layouts_of around.scope.now.top.now }
    requires callees { AreCallees callees }
    ensures incoming { IfOk result (λ found. seen_incoming nodes.new found ≡ all_incoming (around_of callees.entry) (seen_scope around.entry.scope.now) (seen_seats around.entry.seats.now) own.entry.first own.entry.action.now.parameters (arguments_of given.now)) }
    ensures within { IfOk result (ArePassedIn nodes.new) }
    ensures grows { OnOk result (Grows nodes.old nodes.new) }
{
    let arguments = arguments_in(alloc, given)?;
    let parameters = own.action.parameters.as_slice();
    let passed = passed_to(alloc, own.first, parameters, arguments)?;
    let found = all_incoming(alloc, nodes, around, callees, passed)?;
    Ok(found)
}

/// Which parameters of an action with these arguments go back.
fn outgoing_given<'a>(
    alloc: Global,
    nodes: &mut ReadyNodes<'_>,
    around: Around<'_, 'a>,
    callees: Callees<'_, 'a>,
    own: OwnAction<'a>,
    given: &ExpView<'a>,
) -> Result<Option<usize>, OutOfMemory>
    requires held { IsHeld nodes.old }
    requires types { around.types.now ≡ layouts_of around.scope.now.top.now }
    requires callees { AreCallees callees }
    ensures outgoing { IfOk result (λ found. seen_outgoing nodes.new found ≡ all_outgoing (around_of callees.entry) (seen_scope around.entry.scope.now) (seen_seats around.entry.seats.now) own.entry.first own.entry.action.now.parameters (arguments_of given.now)) }
    ensures within { IfOk result (ArePassedIn nodes.new) }
    ensures grows { OnOk result (Grows nodes.old nodes.new) }
{
    let arguments = arguments_in(alloc, given)?;
    let parameters = own.action.parameters.as_slice();
    let passed = passed_to(alloc, own.first, parameters, arguments)?;
    let found = all_outgoing(alloc, nodes, around, callees, passed)?;
    Ok(found)
}

/// Whether a table is applied in one of these arguments.
fn given_apply<'a>(
    alloc: Global,
    around: Around<'_, 'a>,
    given: &ExpView<'a>,
) -> Result<bool, OutOfMemory>
    ensures { IfOk result (λ found. found ≡ any_applies (seen_scope around.entry.scope.now) (arguments_of given.now)) }
{
    let arguments = arguments_in(alloc, given)?;
    let found = any_applies(alloc, around.scope, arguments)?;
    Ok(found)
}

/// The call of an action that is found.
fn call_found<'a>(
    alloc: Global,
    nodes: &mut ReadyNodes<'_>,
    around: Around<'_, 'a>,
    callees: Callees<'_, 'a>,
    found: FoundAction<'a>,
    given: &ExpView<'a>,
) -> Result<Option<usize>, OutOfMemory>
    requires held { IsHeld nodes.old }
    requires types { around.types.now ≡ layouts_of around.scope.now.top.now }
    requires callees { AreCallees callees }
    ensures statement { IfOk result (λ statement. seen_statement nodes.new statement ≡ action_call (around_of callees.entry) (seen_scope around.entry.scope.now) (seen_seats around.entry.seats.now) (arguments_of given.now) (seen_found found.entry)) }
    ensures within { IfOk result (IsStatementIn nodes.new) }
    ensures grows { OnOk result (Grows nodes.old nodes.new) }
{
    let apart = given_apply(alloc, around, given)?;
    let incoming = incoming_given(alloc, nodes, around, callees, found.own, given)?;
    let outgoing = outgoing_given(alloc, nodes, around, callees, found.own, given)?;
    let statement = put_call(nodes, found.number, apart, incoming, outgoing)?;
    Ok(statement)
}

/// The call of an action that is found; none where none is.
fn call_if_found<'a>(
    alloc: Global,
    nodes: &mut ReadyNodes<'_>,
    around: Around<'_, 'a>,
    callees: Callees<'_, 'a>,
    found: Option<FoundAction<'a>>,
    given: &ExpView<'a>,
) -> Result<Option<usize>, OutOfMemory>
    requires held { IsHeld nodes.old }
    requires types { around.types.now ≡ layouts_of around.scope.now.top.now }
    requires callees { AreCallees callees }
    ensures statement { IfOk result (λ statement. seen_statement nodes.new statement ≡ option_and_then (action_call (around_of callees.entry) (seen_scope around.entry.scope.now) (seen_seats around.entry.seats.now) (arguments_of given.now)) (option_map seen_found found.entry)) }
    ensures within { IfOk result (IsStatementIn nodes.new) }
    ensures grows { OnOk result (Grows nodes.old nodes.new) }
{
    match found {
        Some(found) => call_found(alloc, nodes, around, callees, found, given),
        None => Ok(None),
    }
}

/// The call of the action of this name with these arguments: the place of the statement, which is put behind the others; none exactly
/// where the block has no such action, or an argument is none of what its parameter asks for. Errors as those of `ready_test`, and for
/// more or fewer arguments than parameters.
pub fn ready_action<'a>(
    alloc: Global,
    nodes: &mut ReadyNodes<'_>,
    around: Around<'_, 'a>,
    callees: Callees<'_, 'a>,
    name: &[u8],
    given: &ExpView<'a>,
) -> Result<Option<usize>, OutOfMemory>
    requires held { IsHeld nodes.old }
    requires types { around.types.now ≡ layouts_of around.scope.now.top.now }
    requires callees { AreCallees callees }
    ensures statement { IfOk result (λ found. seen_statement nodes.new found ≡ option_and_then (action_call (around_of callees.entry) (seen_scope around.entry.scope.now) (seen_seats around.entry.seats.now) (arguments_of given.now)) (action_found (around_of callees.entry) name.now)) }
    ensures within { IfOk result (IsStatementIn nodes.new) }
    ensures grows { OnOk result (Grows nodes.old nodes.new) }
{
    let found = action_called(callees, name);
    let statement = call_if_found(alloc, nodes, around, callees, found, given)?;
    Ok(statement)
}
