// The functions of `v1model.p4`, but for `mark_to_drop`.
ghost use Rattle.std.specs.Prelude.{◌≡◌, if◌then◌else◌, [], ◌∷◌, option_map, codes, IfOk, OnOk};
ghost use Rattle.std.specs.Str.{bytes_eq};
ghost use Rattle.name_numbers.specs.Names.{find_name};
ghost use Rattle.fabric.specs.declared.items.RequestKind.TheVariants.{CloneI2E, CloneE2E};
ghost use Rattle.p416_syntax.specs.Calls.{any_bits};
ghost use Rattle.p416_syntax.specs.Declarations.{layouts_of};
ghost use Rattle.p416_syntax.specs.Uses.{arguments_of};
ghost use Rattle.p416_calls.specs.Seen.{seen_place};
ghost use Rattle.p416_scopes.specs.Seen.{seen_scope};
ghost use Rattle.v1_ready_blocks.specs.declared.externs.Extern.TheVariants as extern;
ghost use Rattle.v1_ready_blocks.specs.Statements.{does};
ghost use Rattle.v1_ready_program.specs.Seen.{seen_seats};
ghost use Rattle.v1_ready_nodes.specs.Held.{IsHeld, Grows};
ghost use Rattle.v1_ready_statements.specs.Given.{join_option};
ghost use Rattle.v1_ready_statements.specs.Called.{with_algorithm, with_slot, member_word, number_given};
ghost use Rattle.v1_ready_operands.specs.SeenStatements.{seen_statement, IsStatementIn};
ghost use Rattle.v1_ready_tests.specs.Items.{list_by};
ghost use Rattle.v1_ready_tests.specs.Seen.{seen_arguments, AreArgumentsIn};
ghost use Rattle.v1_ready_operands.specs.Functions.{value_by, hash_by, verify_by, update_by, clone_by, request_by};

use fabric::RequestKind;
use name_numbers::Numbering;
use p4x_bits::OutOfMemory;
use p416_calls::Place;
use p416_names::Kind;
use p416_syntax::{ExpView, HashAlgorithm};
use std::alloc::Global;
use v1_ready_blocks::{Extern, Target};
use v1_ready_nodes::ReadyNodes;
use v1_ready_operands::{
    algorithm_given, member_word, next_argument, number_given, one_list, one_value, put_execute,
    target_given,
};
use v1_ready_program::Around;
use v1_ready_tests::{arguments_in, list_before, no_arguments, value_before};

/// A value at a place, a list, and a value of bits.
fn value_list_value<'a>(
    alloc: Global,
    nodes: &mut ReadyNodes<'_>,
    around: Around<'_, 'a>,
    tables: &Numbering<'_>,
    place: Place<'a>,
    first: &ExpView<'a>,
    list: &ExpView<'a>,
    last: &ExpView<'a>,
) -> Result<Option<usize>, OutOfMemory>
    requires held { IsHeld nodes.old }
    requires types { around.types.now ≡ layouts_of around.scope.now.top.now }
    ensures arguments { IfOk result (λ found. seen_arguments nodes.new found ≡ join_option (value_by (seen_scope around.entry.scope.now) (seen_seats around.entry.seats.now) (find_name tables.now) (seen_place place.entry) first.now) (join_option (list_by (seen_scope around.entry.scope.now) (seen_seats around.entry.seats.now) (find_name tables.now) list.now) (value_by (seen_scope around.entry.scope.now) (seen_seats around.entry.seats.now) (find_name tables.now) any_bits last.now))) }
    ensures within { IfOk result (AreArgumentsIn nodes.new) }
    ensures grows { OnOk result (Grows nodes.old nodes.new) }
{
    let end = one_value(alloc, nodes, around, tables, Place::AnyBits, last)?;
    let rest = list_before(alloc, nodes, around, tables, list, end)?;
    let found = value_before(alloc, nodes, around, tables, place, first, rest)?;
    Ok(found)
}

/// A value at a place, and a list.
fn value_list<'a>(
    alloc: Global,
    nodes: &mut ReadyNodes<'_>,
    around: Around<'_, 'a>,
    tables: &Numbering<'_>,
    place: Place<'a>,
    first: &ExpView<'a>,
    list: &ExpView<'a>,
) -> Result<Option<usize>, OutOfMemory>
    requires held { IsHeld nodes.old }
    requires types { around.types.now ≡ layouts_of around.scope.now.top.now }
    ensures arguments { IfOk result (λ found. seen_arguments nodes.new found ≡ join_option (value_by (seen_scope around.entry.scope.now) (seen_seats around.entry.seats.now) (find_name tables.now) (seen_place place.entry) first.now) (list_by (seen_scope around.entry.scope.now) (seen_seats around.entry.seats.now) (find_name tables.now) list.now)) }
    ensures within { IfOk result (AreArgumentsIn nodes.new) }
    ensures grows { OnOk result (Grows nodes.old nodes.new) }
{
    let end = one_list(alloc, nodes, around, tables, list)?;
    let found = value_before(alloc, nodes, around, tables, place, first, end)?;
    Ok(found)
}

/// A hash with this algorithm to a target, where both are some.
fn hash_to(algorithm: Option<HashAlgorithm>, to: Option<Target>) -> Option<Extern>
    ensures { result ≡ with_algorithm (λ algorithm to. extern.Hash algorithm to) algorithm to }
{
    match (algorithm, to) {
        (Some(algorithm), Some(to)) => Some(Extern::Hash(algorithm, to)),
        _ => None,
    }
}

/// `hash` with these arguments.
fn hash_of<'a>(
    alloc: Global,
    nodes: &mut ReadyNodes<'_>,
    around: Around<'_, 'a>,
    tables: &Numbering<'_>,
    to: &ExpView<'a>,
    algorithm: &ExpView<'a>,
    base: &ExpView<'a>,
    list: &ExpView<'a>,
    bound: &ExpView<'a>,
) -> Result<Option<usize>, OutOfMemory>
    requires held { IsHeld nodes.old }
    requires types { around.types.now ≡ layouts_of around.scope.now.top.now }
    ensures statement { IfOk result (λ found. seen_statement nodes.new found ≡ option_map does (hash_by (seen_scope around.entry.scope.now) (seen_seats around.entry.seats.now) (find_name tables.now) (to.now ∷ algorithm.now ∷ base.now ∷ list.now ∷ bound.now ∷ []))) }
    ensures within { IfOk result (IsStatementIn nodes.new) }
    ensures grows { OnOk result (Grows nodes.old nodes.new) }
{
    let target = target_given(alloc, around, to)?;
    let what = hash_to(algorithm_given(algorithm), target);
    let rest = value_list_value(
        alloc,
        nodes,
        around,
        tables,
        Place::AnyBits,
        base,
        list,
        bound,
    )?;
    let statement = put_execute(nodes, what, rest)?;
    Ok(statement)
}

/// `hash(r, algorithm, base, { .. }, bound)` with these arguments: the place of the statement, which is put behind the others; none
/// exactly where an argument is none of what its place asks for. Errors as those of `ready_test`, and for too few arguments.
pub fn ready_hash<'a>(
    alloc: Global,
    nodes: &mut ReadyNodes<'_>,
    around: Around<'_, 'a>,
    tables: &Numbering<'_>,
    given: &ExpView<'a>,
) -> Result<Option<usize>, OutOfMemory>
    requires held { IsHeld nodes.old }
    requires types { around.types.now ≡ layouts_of around.scope.now.top.now }
    ensures statement { IfOk result (λ found. seen_statement nodes.new found ≡ option_map does (hash_by (seen_scope around.entry.scope.now) (seen_seats around.entry.seats.now) (find_name tables.now) (arguments_of given.now))) }
    ensures within { IfOk result (IsStatementIn nodes.new) }
    ensures grows { OnOk result (Grows nodes.old nodes.new) }
{
    let mut arguments = arguments_in(alloc, given)?;
    let to = next_argument(&mut arguments)?;
    let algorithm = next_argument(&mut arguments)?;
    let base = next_argument(&mut arguments)?;
    let list = next_argument(&mut arguments)?;
    let bound = next_argument(&mut arguments)?;
    let statement = hash_of(
        alloc, nodes, around, tables, &to, &algorithm, &base, &list, &bound,
    )?;
    Ok(statement)
}

/// The check of a checksum by this algorithm, where `checksum_error` has this slot, if both are some.
fn verify_to(algorithm: Option<HashAlgorithm>, payload: bool, slot: Option<u32>) -> Option<Extern>
    ensures { result ≡ with_slot (λ algorithm at. extern.Verify algorithm payload at) algorithm slot }
{
    match (algorithm, slot) {
        (Some(algorithm), Some(slot)) => Some(Extern::Verify(algorithm, payload, slot)),
        _ => None,
    }
}

/// `verify_checksum` with these arguments.
fn verify_of<'a>(
    alloc: Global,
    nodes: &mut ReadyNodes<'_>,
    around: Around<'_, 'a>,
    tables: &Numbering<'_>,
    slot: Option<u32>,
    payload: bool,
    condition: &ExpView<'a>,
    list: &ExpView<'a>,
    field: &ExpView<'a>,
    algorithm: &ExpView<'a>,
) -> Result<Option<usize>, OutOfMemory>
    requires held { IsHeld nodes.old }
    requires types { around.types.now ≡ layouts_of around.scope.now.top.now }
    ensures statement { IfOk result (λ found. seen_statement nodes.new found ≡ option_map does (verify_by (seen_scope around.entry.scope.now) (seen_seats around.entry.seats.now) (find_name tables.now) slot payload (condition.now ∷ list.now ∷ field.now ∷ algorithm.now ∷ []))) }
    ensures within { IfOk result (IsStatementIn nodes.new) }
    ensures grows { OnOk result (Grows nodes.old nodes.new) }
{
    let what = verify_to(algorithm_given(algorithm), payload, slot);
    let place = Place::Value(Kind::Boolean);
    let rest = value_list_value(alloc, nodes, around, tables, place, condition, list, field)?;
    let statement = put_execute(nodes, what, rest)?;
    Ok(statement)
}

/// `verify_checksum(condition, { .. }, field, algorithm)`, or that with the octets that weren't parsed behind the list, where
/// `checksum_error` has this slot; as `ready_hash`.
pub fn ready_verify<'a>(
    alloc: Global,
    nodes: &mut ReadyNodes<'_>,
    around: Around<'_, 'a>,
    tables: &Numbering<'_>,
    slot: Option<u32>,
    payload: bool,
    given: &ExpView<'a>,
) -> Result<Option<usize>, OutOfMemory>
    requires held { IsHeld nodes.old }
    requires types { around.types.now ≡ layouts_of around.scope.now.top.now }
    ensures statement { IfOk result (λ found. seen_statement nodes.new found ≡ option_map does (verify_by (seen_scope around.entry.scope.now) (seen_seats around.entry.seats.now) (find_name tables.now) slot payload (arguments_of given.now))) }
    ensures within { IfOk result (IsStatementIn nodes.new) }
    ensures grows { OnOk result (Grows nodes.old nodes.new) }
{
    let mut arguments = arguments_in(alloc, given)?;
    let condition = next_argument(&mut arguments)?;
    let list = next_argument(&mut arguments)?;
    let field = next_argument(&mut arguments)?;
    let algorithm = next_argument(&mut arguments)?;
    let statement = verify_of(
        alloc, nodes, around, tables, slot, payload, &condition, &list, &field, &algorithm,
    )?;
    Ok(statement)
}

/// The update of a checksum by this algorithm at a target, where both are some.
fn update_to(algorithm: Option<HashAlgorithm>, payload: bool, to: Option<Target>) -> Option<Extern>
    ensures { result ≡ with_algorithm (λ algorithm to. extern.Update algorithm payload to) algorithm to }
{
    match (algorithm, to) {
        (Some(algorithm), Some(to)) => Some(Extern::Update(algorithm, payload, to)),
        _ => None,
    }
}

/// `update_checksum` with these arguments.
fn update_of<'a>(
    alloc: Global,
    nodes: &mut ReadyNodes<'_>,
    around: Around<'_, 'a>,
    tables: &Numbering<'_>,
    payload: bool,
    condition: &ExpView<'a>,
    list: &ExpView<'a>,
    field: &ExpView<'a>,
    algorithm: &ExpView<'a>,
) -> Result<Option<usize>, OutOfMemory>
    requires held { IsHeld nodes.old }
    requires types { around.types.now ≡ layouts_of around.scope.now.top.now }
    ensures statement { IfOk result (λ found. seen_statement nodes.new found ≡ option_map does (update_by (seen_scope around.entry.scope.now) (seen_seats around.entry.seats.now) (find_name tables.now) payload (condition.now ∷ list.now ∷ field.now ∷ algorithm.now ∷ []))) }
    ensures within { IfOk result (IsStatementIn nodes.new) }
    ensures grows { OnOk result (Grows nodes.old nodes.new) }
{
    let target = target_given(alloc, around, field)?;
    let what = update_to(algorithm_given(algorithm), payload, target);
    let place = Place::Value(Kind::Boolean);
    let rest = value_list(alloc, nodes, around, tables, place, condition, list)?;
    let statement = put_execute(nodes, what, rest)?;
    Ok(statement)
}

/// `update_checksum(condition, { .. }, field, algorithm)`, or that with the octets that weren't parsed behind the list; as `ready_hash`.
pub fn ready_update<'a>(
    alloc: Global,
    nodes: &mut ReadyNodes<'_>,
    around: Around<'_, 'a>,
    tables: &Numbering<'_>,
    payload: bool,
    given: &ExpView<'a>,
) -> Result<Option<usize>, OutOfMemory>
    requires held { IsHeld nodes.old }
    requires types { around.types.now ≡ layouts_of around.scope.now.top.now }
    ensures statement { IfOk result (λ found. seen_statement nodes.new found ≡ option_map does (update_by (seen_scope around.entry.scope.now) (seen_seats around.entry.seats.now) (find_name tables.now) payload (arguments_of given.now))) }
    ensures within { IfOk result (IsStatementIn nodes.new) }
    ensures grows { OnOk result (Grows nodes.old nodes.new) }
{
    let mut arguments = arguments_in(alloc, given)?;
    let condition = next_argument(&mut arguments)?;
    let list = next_argument(&mut arguments)?;
    let field = next_argument(&mut arguments)?;
    let algorithm = next_argument(&mut arguments)?;
    let statement = update_of(
        alloc, nodes, around, tables, payload, &condition, &list, &field, &algorithm,
    )?;
    Ok(statement)
}

const INGRESS_CLONE: &[u8] = b"I2E";

/// The kind of clone that a member of `CloneType` is.
fn clone_kind(view: &ExpView<'_>) -> RequestKind
    ensures { result ≡ (if bytes_eq (member_word view.now) (codes "I2E") then CloneI2E else CloneE2E) }
{
    if member_word(view) == INGRESS_CLONE {
        RequestKind::CloneI2E
    } else {
        RequestKind::CloneE2E
    }
}

/// The number of a field list. One of more than 8 bits counts as want of memory.
fn list_number(view: &ExpView<'_>) -> Result<u8, OutOfMemory>
    ensures { IfOk result (λ n. n ≡ number_given view.now) }
{
    let number = number_given(view)?;
    if number <= u32::from(u8::MAX) {
        Ok(number as u8)
    } else {
        Err(OutOfMemory)
    }
}

/// A clone with these arguments.
fn clone_of<'a>(
    alloc: Global,
    nodes: &mut ReadyNodes<'_>,
    around: Around<'_, 'a>,
    tables: &Numbering<'_>,
    kind: &ExpView<'a>,
    session: &ExpView<'a>,
    list: &ExpView<'a>,
) -> Result<Option<usize>, OutOfMemory>
    requires held { IsHeld nodes.old }
    requires types { around.types.now ≡ layouts_of around.scope.now.top.now }
    ensures statement { IfOk result (λ found. seen_statement nodes.new found ≡ option_map does (clone_by (seen_scope around.entry.scope.now) (seen_seats around.entry.seats.now) (find_name tables.now) (kind.now ∷ session.now ∷ list.now ∷ []))) }
    ensures within { IfOk result (IsStatementIn nodes.new) }
    ensures grows { OnOk result (Grows nodes.old nodes.new) }
{
    let what = Extern::Clone(clone_kind(kind), list_number(list)?);
    let place = Place::Value(Kind::Bits(32));
    let rest = one_value(alloc, nodes, around, tables, place, session)?;
    let statement = put_execute(nodes, Some(what), rest)?;
    Ok(statement)
}

/// `clone_preserving_field_list(CloneType.X, session, list)`; as `ready_hash`.
pub fn ready_clone<'a>(
    alloc: Global,
    nodes: &mut ReadyNodes<'_>,
    around: Around<'_, 'a>,
    tables: &Numbering<'_>,
    given: &ExpView<'a>,
) -> Result<Option<usize>, OutOfMemory>
    requires held { IsHeld nodes.old }
    requires types { around.types.now ≡ layouts_of around.scope.now.top.now }
    ensures statement { IfOk result (λ found. seen_statement nodes.new found ≡ option_map does (clone_by (seen_scope around.entry.scope.now) (seen_seats around.entry.seats.now) (find_name tables.now) (arguments_of given.now))) }
    ensures within { IfOk result (IsStatementIn nodes.new) }
    ensures grows { OnOk result (Grows nodes.old nodes.new) }
{
    let mut arguments = arguments_in(alloc, given)?;
    let kind = next_argument(&mut arguments)?;
    let session = next_argument(&mut arguments)?;
    let list = next_argument(&mut arguments)?;
    let statement = clone_of(alloc, nodes, around, tables, &kind, &session, &list)?;
    Ok(statement)
}

/// `resubmit_preserving_field_list(list)` or `recirculate_preserving_field_list(list)`, by its kind; as `ready_hash`.
pub fn ready_request(
    alloc: Global,
    nodes: &mut ReadyNodes<'_>,
    kind: RequestKind,
    given: &ExpView<'_>,
) -> Result<Option<usize>, OutOfMemory>
    requires held { IsHeld nodes.old }
    ensures statement { IfOk result (λ found. seen_statement nodes.new found ≡ option_map does (request_by kind (arguments_of given.now))) }
    ensures within { IfOk result (IsStatementIn nodes.new) }
    ensures grows { OnOk result (Grows nodes.old nodes.new) }
{
    let mut arguments = arguments_in(alloc, given)?;
    let list = next_argument(&mut arguments)?;
    let what = Extern::Request(kind, list_number(&list)?);
    let none = no_arguments(nodes)?;
    let statement = put_execute(nodes, Some(what), none)?;
    Ok(statement)
}
