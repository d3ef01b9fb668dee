// The functions of `v1model.p4` by their names.
ghost use Rattle.std.specs.Prelude.{◌≡◌, option_map, IfOk, OnOk};
ghost use Rattle.p416_syntax.specs.Declarations.{layouts_of};
ghost use Rattle.p416_syntax.specs.Uses.{arguments_of};
ghost use Rattle.p416_scopes.specs.Seen.{seen_scope};
ghost use Rattle.v1_ready_blocks.specs.Statements.{does};
ghost use Rattle.v1_ready_program.specs.Seen.{seen_seats};
ghost use Rattle.v1_ready_nodes.specs.Held.{IsHeld, Grows};
ghost use Rattle.v1_ready_statements.specs.Called.{hashes, verified, updated, clones, function_deed};
ghost use Rattle.v1_ready_operands.specs.SeenStatements.{seen_statement, IsStatementIn};
ghost use Rattle.v1_ready_operands.specs.Callees.{around_of, AreCallees};
ghost use Rattle.v1_ready_operands.specs.internal.Passes.{drop_deed, request_deed, later_deed, checked_deed};

use crate::drop::ready_drop;
use crate::function_statements::{
    ready_clone, ready_hash, ready_request, ready_update, ready_verify,
};
use fabric::RequestKind;
use p4x_bits::OutOfMemory;
use p416_syntax::ExpView;
use std::alloc::Global;
use v1_ready_nodes::ReadyNodes;
use v1_ready_operands::{Callees, next_argument};
use v1_ready_program::Around;
use v1_ready_tests::arguments_in;

const MARK_TO_DROP: &[u8] = b"mark_to_drop";

const HASH: &[u8] = b"hash";

const VERIFY: &[u8] = b"verify_checksum";

const VERIFY_WITH_PAYLOAD: &[u8] = b"verify_checksum_with_payload";

const UPDATE: &[u8] = b"update_checksum";

const UPDATE_WITH_PAYLOAD: &[u8] = b"update_checksum_with_payload";

const CLONE: &[u8] = b"clone_preserving_field_list";

const RESUBMIT: &[u8] = b"resubmit_preserving_field_list";

const RECIRCULATE: &[u8] = b"recirculate_preserving_field_list";

/// `mark_to_drop` with these arguments.
fn call_drop<'a>(
    alloc: Global,
    nodes: &mut ReadyNodes<'_>,
    around: Around<'_, 'a>,
    given: &ExpView<'a>,
) -> Result<Option<usize>, OutOfMemory>
    requires held { IsHeld nodes.old }
    requires types { around.types.now ≡ layouts_of around.scope.now.top.now }
    ensures statement { IfOk result (λ found. seen_statement nodes.new found ≡ option_map does (drop_deed (seen_scope around.entry.scope.now) (seen_seats around.entry.seats.now) (arguments_of given.now))) }
    ensures within { IfOk result (IsStatementIn nodes.new) }
    ensures grows { OnOk result (Grows nodes.old nodes.new) }
{
    let mut arguments = arguments_in(alloc, given)?;
    let standard = next_argument(&mut arguments)?;
    let statement = ready_drop(alloc, nodes, around, &standard)?;
    Ok(statement)
}

/// `hash` with these arguments.
fn call_hash<'a>(
    alloc: Global,
    nodes: &mut ReadyNodes<'_>,
    around: Around<'_, 'a>,
    callees: Callees<'_, 'a>,
    given: &ExpView<'a>,
) -> Result<Option<usize>, OutOfMemory>
    requires held { IsHeld nodes.old }
    requires types { around.types.now ≡ layouts_of around.scope.now.top.now }
    requires callees { AreCallees callees }
    ensures statement { IfOk result (λ found. seen_statement nodes.new found ≡ option_map does (hashes (around_of callees.entry) (seen_scope around.entry.scope.now) (seen_seats around.entry.seats.now) (arguments_of given.now))) }
    ensures within { IfOk result (IsStatementIn nodes.new) }
    ensures grows { OnOk result (Grows nodes.old nodes.new) }
{
    let statement = ready_hash(alloc, nodes, around, callees.tables, given)?;
    Ok(statement)
}

/// `verify_checksum`, or that with the payload, with these arguments.
fn call_verify<'a>(
    alloc: Global,
    nodes: &mut ReadyNodes<'_>,
    around: Around<'_, 'a>,
    callees: Callees<'_, 'a>,
    payload: bool,
    given: &ExpView<'a>,
) -> Result<Option<usize>, OutOfMemory>
    requires held { IsHeld nodes.old }
    requires types { around.types.now ≡ layouts_of around.scope.now.top.now }
    requires callees { AreCallees callees }
    ensures statement { IfOk result (λ found. seen_statement nodes.new found ≡ option_map does (verified (around_of callees.entry) (seen_scope around.entry.scope.now) (seen_seats around.entry.seats.now) payload (arguments_of given.now))) }
    ensures within { IfOk result (IsStatementIn nodes.new) }
    ensures grows { OnOk result (Grows nodes.old nodes.new) }
{
    let slot = callees.checksum_error;
    let statement = ready_verify(alloc, nodes, around, callees.tables, slot, payload, given)?;
    Ok(statement)
}

/// `update_checksum`, or that with the payload, with these arguments.
fn call_update<'a>(
    alloc: Global,
    nodes: &mut ReadyNodes<'_>,
    around: Around<'_, 'a>,
    callees: Callees<'_, 'a>,
    payload: bool,
    given: &ExpView<'a>,
) -> Result<Option<usize>, OutOfMemory>
    requires held { IsHeld nodes.old }
    requires types { around.types.now ≡ layouts_of around.scope.now.top.now }
    requires callees { AreCallees callees }
    ensures statement { IfOk result (λ found. seen_statement nodes.new found ≡ option_map does (updated (around_of callees.entry) (seen_scope around.entry.scope.now) (seen_seats around.entry.seats.now) payload (arguments_of given.now))) }
    ensures within { IfOk result (IsStatementIn nodes.new) }
    ensures grows { OnOk result (Grows nodes.old nodes.new) }
{
    let statement = ready_update(alloc, nodes, around, callees.tables, payload, given)?;
    Ok(statement)
}

/// `clone_preserving_field_list` with these arguments.
fn call_clone<'a>(
    alloc: Global,
    nodes: &mut ReadyNodes<'_>,
    around: Around<'_, 'a>,
    callees: Callees<'_, 'a>,
    given: &ExpView<'a>,
) -> Result<Option<usize>, OutOfMemory>
    requires held { IsHeld nodes.old }
    requires types { around.types.now ≡ layouts_of around.scope.now.top.now }
    requires callees { AreCallees callees }
    ensures statement { IfOk result (λ found. seen_statement nodes.new found ≡ option_map does (clones (around_of callees.entry) (seen_scope around.entry.scope.now) (seen_seats around.entry.seats.now) (arguments_of given.now))) }
    ensures within { IfOk result (IsStatementIn nodes.new) }
    ensures grows { OnOk result (Grows nodes.old nodes.new) }
{
    let statement = ready_clone(alloc, nodes, around, callees.tables, given)?;
    Ok(statement)
}

/// `resubmit_preserving_field_list` or `recirculate_preserving_field_list`, by its name.
fn call_request(
    alloc: Global,
    nodes: &mut ReadyNodes<'_>,
    name: &[u8],
    given: &ExpView<'_>,
) -> Result<Option<usize>, OutOfMemory>
    requires held { IsHeld nodes.old }
    ensures statement { IfOk result (λ found. seen_statement nodes.new found ≡ option_map does (request_deed name.now (arguments_of given.now))) }
    ensures within { IfOk result (IsStatementIn nodes.new) }
    ensures grows { OnOk result (Grows nodes.old nodes.new) }
{
    if name == RESUBMIT {
        ready_request(alloc, nodes, RequestKind::Resubmit, given)
    } else if name == RECIRCULATE {
        ready_request(alloc, nodes, RequestKind::Recirculate, given)
    } else {
        Ok(None)
    }
}

/// A function but for those that are told first, by its name.
fn call_later<'a>(
    alloc: Global,
    nodes: &mut ReadyNodes<'_>,
    around: Around<'_, 'a>,
    callees: Callees<'_, 'a>,
    name: &[u8],
    given: &ExpView<'a>,
) -> Result<Option<usize>, OutOfMemory>
    requires held { IsHeld nodes.old }
    requires types { around.types.now ≡ layouts_of around.scope.now.top.now }
    requires callees { AreCallees callees }
    ensures statement { IfOk result (λ found. seen_statement nodes.new found ≡ option_map does (later_deed (around_of callees.entry) (seen_scope around.entry.scope.now) (seen_seats around.entry.seats.now) name.now (arguments_of given.now))) }
    ensures within { IfOk result (IsStatementIn nodes.new) }
    ensures grows { OnOk result (Grows nodes.old nodes.new) }
{
    if name == UPDATE {
        call_update(alloc, nodes, around, callees, false, given)
    } else if name == UPDATE_WITH_PAYLOAD {
        call_update(alloc, nodes, around, callees, true, given)
    } else if name == CLONE {
        call_clone(alloc, nodes, around, callees, given)
    } else {
        call_request(alloc, nodes, name, given)
    }
}

/// A function that checks sums, or one of those above, by its name.
fn call_checked<'a>(
    alloc: Global,
    nodes: &mut ReadyNodes<'_>,
    around: Around<'_, 'a>,
    callees: Callees<'_, 'a>,
    name: &[u8],
    given: &ExpView<'a>,
) -> Result<Option<usize>, OutOfMemory>
    requires held { IsHeld nodes.old }
    requires types { around.types.now ≡ layouts_of around.scope.now.top.now }
    requires callees { AreCallees callees }
    ensures statement { IfOk result (λ found. seen_statement nodes.new found ≡ option_map does (checked_deed (around_of callees.entry) (seen_scope around.entry.scope.now) (seen_seats around.entry.seats.now) name.now (arguments_of given.now))) }
    ensures within { IfOk result (IsStatementIn nodes.new) }
    ensures grows { OnOk result (Grows nodes.old nodes.new) }
{
    if name == VERIFY {
        call_verify(alloc, nodes, around, callees, false, given)
    } else if name == VERIFY_WITH_PAYLOAD {
        call_verify(alloc, nodes, around, callees, true, given)
    } else {
        call_later(alloc, nodes, around, callees, name, given)
    }
}

/// The call of the function of this name with these arguments: the place of the statement, which is put behind the others; none exactly
/// where there is no such function, or an argument is none of what its place asks for. Errors as those of `ready_test`, and for too few
/// arguments.
pub fn ready_function<'a>(
    alloc: Global,
    nodes: &mut ReadyNodes<'_>,
    around: Around<'_, 'a>,
    callees: Callees<'_, 'a>,
    name: &[u8],
    given: &ExpView<'a>,
) -> Result<Option<usize>, OutOfMemory>
    requires held { IsHeld nodes.old }
    requires types { around.types.now ≡ layouts_of around.scope.now.top.now }
    requires callees { AreCallees callees }
    ensures statement { IfOk result (λ found. seen_statement nodes.new found ≡ option_map does (function_deed (around_of callees.entry) (seen_scope around.entry.scope.now) (seen_seats around.entry.seats.now) name.now (arguments_of given.now))) }
    ensures within { IfOk result (IsStatementIn nodes.new) }
    ensures grows { OnOk result (Grows nodes.old nodes.new) }
{
    if name == MARK_TO_DROP {
        call_drop(alloc, nodes, around, given)
    } else if name == HASH {
        call_hash(alloc, nodes, around, callees, given)
    } else {
        call_checked(alloc, nodes, around, callees, name, given)
    }
}
