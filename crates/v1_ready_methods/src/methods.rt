// Methods by what they are of and by their names.
ghost use Rattle.std.specs.Prelude.{◌≡◌, option_map, IfOk, OnOk};
ghost use Rattle.p416_syntax.specs.Tree as tree;
ghost use Rattle.p416_syntax.specs.Declarations.{layouts_of};
ghost use Rattle.p416_syntax.specs.Expressions.{kind_of};
ghost use Rattle.p416_syntax.specs.Uses.{arguments_of};
ghost use Rattle.p416_syntax.specs.Kinds.{counter, register, meter};
ghost use Rattle.p416_names.specs.SeenKinds.{seen_kind, seen_object};
ghost use Rattle.p416_scopes.specs.Seen.{seen_scope};
ghost use Rattle.v1_ready_blocks.specs.Statements.{does};
ghost use Rattle.v1_ready_program.specs.Seen.{seen_seats};
ghost use Rattle.v1_ready_nodes.specs.Held.{IsHeld, Grows};
ghost use Rattle.v1_ready_statements.specs.Around.{object_found};
ghost use Rattle.v1_ready_statements.specs.Called.{header_deed, stack_deed, object_deed, method_deed};
ghost use Rattle.v1_ready_operands.specs.SeenStatements.{seen_statement, IsStatementIn};
ghost use Rattle.v1_ready_operands.specs.Callees.{around_of, AreCallees};
ghost use Rattle.v1_ready_operands.specs.internal.Passes.{IsHeaderOf, IsCallOf, count_deed, direct_deed, read_deed, write_deed, meter_deed, valid_deed, extract_deed, emit_deed, apply_deed};

use crate::method_statements::{
    ready_apply, ready_emit, ready_extract, ready_header, ready_let_go, ready_stack,
};
use crate::objects::{ready_count, ready_count_entry, ready_meter, ready_read, ready_write};
use p4x_bits::OutOfMemory;
use p416_calls::Place;
use p416_names::{Kind, ObjectKind};
use p416_syntax::ExpView;
use std::alloc::Global;
use v1_ready_nodes::ReadyNodes;
use v1_ready_operands::{Callees, name_in, next_argument, object_called};
use v1_ready_program::Around;
use v1_ready_tests::arguments_in;

const SET_VALID: &[u8] = b"setValid";

const SET_INVALID: &[u8] = b"setInvalid";

const IS_VALID: &[u8] = b"isValid";

const EXTRACT: &[u8] = b"extract";

const EMIT: &[u8] = b"emit";

const APPLY: &[u8] = b"apply";

const COUNT: &[u8] = b"count";

const READ: &[u8] = b"read";

const WRITE: &[u8] = b"write";

const EXECUTE_METER: &[u8] = b"execute_meter";

/// This call of `isValid` of a header, which the contract names; its value is let go.
fn call_valid<'a>(
    alloc: Global,
    nodes: &mut ReadyNodes<'_>,
    around: Around<'_, 'a>,
    callees: Callees<'_, 'a>,
    call: &ExpView<'a>,
    owner: &ExpView<'a>,
) -> Result<Option<usize>, OutOfMemory>
    requires held { IsHeld nodes.old }
    requires types { around.types.now ≡ layouts_of around.scope.now.top.now }
    requires callees { AreCallees callees }
    requires whole { IsCallOf call.now owner.now }
    requires kind { IsHeaderOf (seen_scope around.scope.now) owner.now }
    ensures statement { IfOk result (λ found. seen_statement nodes.new found ≡ option_map does (valid_deed (around_of callees.entry) (seen_scope around.entry.scope.now) (seen_seats around.entry.seats.now) owner.now)) }
    ensures within { IfOk result (IsStatementIn nodes.new) }
    ensures grows { OnOk result (Grows nodes.old nodes.new) }
{
    let place = Place::Statement;
    let statement = ready_let_go(alloc, nodes, around, callees.tables, place, call)?;
    Ok(statement)
}

/// A method of a header.
fn call_header<'a>(
    alloc: Global,
    nodes: &mut ReadyNodes<'_>,
    around: Around<'_, 'a>,
    callees: Callees<'_, 'a>,
    call: &ExpView<'a>,
    owner: &ExpView<'a>,
    word: &[u8],
) -> Result<Option<usize>, OutOfMemory>
    requires held { IsHeld nodes.old }
    requires types { around.types.now ≡ layouts_of around.scope.now.top.now }
    requires callees { AreCallees callees }
    requires whole { IsCallOf call.now owner.now }
    requires kind { IsHeaderOf (seen_scope around.scope.now) owner.now }
    ensures statement { IfOk result (λ found. seen_statement nodes.new found ≡ option_map does (header_deed (around_of callees.entry) (seen_scope around.entry.scope.now) (seen_seats around.entry.seats.now) owner.now word.now)) }
    ensures within { IfOk result (IsStatementIn nodes.new) }
    ensures grows { OnOk result (Grows nodes.old nodes.new) }
{
    if word == SET_VALID {
        ready_header(alloc, nodes, around, owner, true)
    } else if word == SET_INVALID {
        ready_header(alloc, nodes, around, owner, false)
    } else if word == IS_VALID {
        call_valid(alloc, nodes, around, callees, call, owner)
    } else {
        Ok(None)
    }
}

/// A method of a stack.
fn call_stack<'a>(
    alloc: Global,
    nodes: &mut ReadyNodes<'_>,
    around: Around<'_, 'a>,
    owner: &ExpView<'a>,
    word: &[u8],
    given: &ExpView<'a>,
) -> Result<Option<usize>, OutOfMemory>
    requires held { IsHeld nodes.old }
    requires types { around.types.now ≡ layouts_of around.scope.now.top.now }
    ensures statement { IfOk result (λ found. seen_statement nodes.new found ≡ option_map does (stack_deed (seen_scope around.entry.scope.now) (seen_seats around.entry.seats.now) owner.now word.now (arguments_of given.now))) }
    ensures within { IfOk result (IsStatementIn nodes.new) }
    ensures grows { OnOk result (Grows nodes.old nodes.new) }
{
    let mut arguments = arguments_in(alloc, given)?;
    let count = next_argument(&mut arguments)?;
    let statement = ready_stack(alloc, nodes, around, owner, word, &count)?;
    Ok(statement)
}

/// `extract` with these arguments.
fn extract_given<'a>(
    alloc: Global,
    nodes: &mut ReadyNodes<'_>,
    around: Around<'_, 'a>,
    given: &ExpView<'a>,
) -> Result<Option<usize>, OutOfMemory>
    requires held { IsHeld nodes.old }
    requires types { around.types.now ≡ layouts_of around.scope.now.top.now }
    ensures statement { IfOk result (λ found. seen_statement nodes.new found ≡ option_map does (extract_deed (seen_scope around.entry.scope.now) (seen_seats around.entry.seats.now) (arguments_of given.now))) }
    ensures within { IfOk result (IsStatementIn nodes.new) }
    ensures grows { OnOk result (Grows nodes.old nodes.new) }
{
    let mut arguments = arguments_in(alloc, given)?;
    let header = next_argument(&mut arguments)?;
    let statement = ready_extract(alloc, nodes, around, &header)?;
    Ok(statement)
}

/// `emit` with these arguments.
fn emit_given<'a>(
    alloc: Global,
    nodes: &mut ReadyNodes<'_>,
    around: Around<'_, 'a>,
    callees: Callees<'_, 'a>,
    given: &ExpView<'a>,
) -> Result<Option<usize>, OutOfMemory>
    requires held { IsHeld nodes.old }
    requires types { around.types.now ≡ layouts_of around.scope.now.top.now }
    requires callees { AreCallees callees }
    ensures statement { IfOk result (λ found. seen_statement nodes.new found ≡ option_map does (emit_deed (around_of callees.entry) (seen_scope around.entry.scope.now) (seen_seats around.entry.seats.now) (arguments_of given.now))) }
    ensures within { IfOk result (IsStatementIn nodes.new) }
    ensures grows { OnOk result (Grows nodes.old nodes.new) }
{
    let mut arguments = arguments_in(alloc, given)?;
    let headers = next_argument(&mut arguments)?;
    let statement = ready_emit(alloc, nodes, around, callees.tables, &headers)?;
    Ok(statement)
}

/// The application of the table that an expression names.
fn apply_named(
    nodes: &mut ReadyNodes<'_>,
    callees: Callees<'_, '_>,
    named: &ExpView<'_>,
) -> Result<Option<usize>, OutOfMemory>
    requires held { IsHeld nodes.old }
    requires callees { AreCallees callees }
    ensures statement { IfOk result (λ found. seen_statement nodes.new found ≡ option_map does (apply_deed (around_of callees.entry) named.now)) }
    ensures within { IfOk result (IsStatementIn nodes.new) }
    ensures grows { OnOk result (Grows nodes.old nodes.new) }
{
    let name = name_in(named);
    let table = callees.tables.find(name);
    let statement = ready_apply(nodes, table)?;
    Ok(statement)
}

/// `count` of the counter with this number.
fn count_given<'a>(
    alloc: Global,
    nodes: &mut ReadyNodes<'_>,
    around: Around<'_, 'a>,
    callees: Callees<'_, 'a>,
    object: u32,
    given: &ExpView<'a>,
) -> Result<Option<usize>, OutOfMemory>
    requires held { IsHeld nodes.old }
    requires types { around.types.now ≡ layouts_of around.scope.now.top.now }
    requires callees { AreCallees callees }
    ensures statement { IfOk result (λ found. seen_statement nodes.new found ≡ option_map does (count_deed (around_of callees.entry) (seen_scope around.entry.scope.now) (seen_seats around.entry.seats.now) object (arguments_of given.now))) }
    ensures within { IfOk result (IsStatementIn nodes.new) }
    ensures grows { OnOk result (Grows nodes.old nodes.new) }
{
    let tables = callees.tables;
    let slot = callees.packet_length;
    let statement = ready_count(alloc, nodes, around, tables, slot, object, given)?;
    Ok(statement)
}

/// `read` of the register with this number.
fn read_given<'a>(
    alloc: Global,
    nodes: &mut ReadyNodes<'_>,
    around: Around<'_, 'a>,
    callees: Callees<'_, 'a>,
    object: u32,
    given: &ExpView<'a>,
) -> Result<Option<usize>, OutOfMemory>
    requires held { IsHeld nodes.old }
    requires types { around.types.now ≡ layouts_of around.scope.now.top.now }
    requires callees { AreCallees callees }
    ensures statement { IfOk result (λ found. seen_statement nodes.new found ≡ option_map does (read_deed (around_of callees.entry) (seen_scope around.entry.scope.now) (seen_seats around.entry.seats.now) object (arguments_of given.now))) }
    ensures within { IfOk result (IsStatementIn nodes.new) }
    ensures grows { OnOk result (Grows nodes.old nodes.new) }
{
    let statement = ready_read(alloc, nodes, around, callees.tables, object, given)?;
    Ok(statement)
}

/// `write` of the register with this number.
fn write_given<'a>(
    alloc: Global,
    nodes: &mut ReadyNodes<'_>,
    around: Around<'_, 'a>,
    callees: Callees<'_, 'a>,
    object: u32,
    given: &ExpView<'a>,
) -> Result<Option<usize>, OutOfMemory>
    requires held { IsHeld nodes.old }
    requires types { around.types.now ≡ layouts_of around.scope.now.top.now }
    requires callees { AreCallees callees }
    ensures statement { IfOk result (λ found. seen_statement nodes.new found ≡ option_map does (write_deed (around_of callees.entry) (seen_scope around.entry.scope.now) (seen_seats around.entry.seats.now) object (arguments_of given.now))) }
    ensures within { IfOk result (IsStatementIn nodes.new) }
    ensures grows { OnOk result (Grows nodes.old nodes.new) }
{
    let statement = ready_write(alloc, nodes, around, callees.tables, object, given)?;
    Ok(statement)
}

/// `execute_meter` of the meter with this number.
fn meter_given<'a>(
    alloc: Global,
    nodes: &mut ReadyNodes<'_>,
    around: Around<'_, 'a>,
    callees: Callees<'_, 'a>,
    object: u32,
    given: &ExpView<'a>,
) -> Result<Option<usize>, OutOfMemory>
    requires held { IsHeld nodes.old }
    requires types { around.types.now ≡ layouts_of around.scope.now.top.now }
    requires callees { AreCallees callees }
    ensures statement { IfOk result (λ found. seen_statement nodes.new found ≡ option_map does (meter_deed (around_of callees.entry) (seen_scope around.entry.scope.now) (seen_seats around.entry.seats.now) object (arguments_of given.now))) }
    ensures within { IfOk result (IsStatementIn nodes.new) }
    ensures grows { OnOk result (Grows nodes.old nodes.new) }
{
    let statement = ready_meter(alloc, nodes, around, callees.tables, object, given)?;
    Ok(statement)
}

/// A method of the counter with this number.
fn call_counter<'a>(
    alloc: Global,
    nodes: &mut ReadyNodes<'_>,
    around: Around<'_, 'a>,
    callees: Callees<'_, 'a>,
    object: u32,
    word: &[u8],
    given: &ExpView<'a>,
) -> Result<Option<usize>, OutOfMemory>
    requires held { IsHeld nodes.old }
    requires types { around.types.now ≡ layouts_of around.scope.now.top.now }
    requires callees { AreCallees callees }
    ensures statement { IfOk result (λ found. seen_statement nodes.new found ≡ option_map does (object_deed (around_of callees.entry) (seen_scope around.entry.scope.now) (seen_seats around.entry.seats.now) counter word.now object (arguments_of given.now))) }
    ensures within { IfOk result (IsStatementIn nodes.new) }
    ensures grows { OnOk result (Grows nodes.old nodes.new) }
{
    if word == COUNT {
        count_given(alloc, nodes, around, callees, object, given)
    } else {
        Ok(None)
    }
}

/// A method of the direct counter with this number.
fn call_direct_counter(
    nodes: &mut ReadyNodes<'_>,
    callees: Callees<'_, '_>,
    object: u32,
    word: &[u8],
) -> Result<Option<usize>, OutOfMemory>
    requires held { IsHeld nodes.old }
    requires callees { AreCallees callees }
    ensures statement { IfOk result (λ found. seen_statement nodes.new found ≡ option_map does (direct_deed (around_of callees.entry) word.now object)) }
    ensures within { IfOk result (IsStatementIn nodes.new) }
    ensures grows { OnOk result (Grows nodes.old nodes.new) }
{
    if word == COUNT {
        ready_count_entry(nodes, callees.packet_length, object)
    } else {
        Ok(None)
    }
}

/// A method of the register with this number.
fn call_register<'a>(
    alloc: Global,
    nodes: &mut ReadyNodes<'_>,
    around: Around<'_, 'a>,
    callees: Callees<'_, 'a>,
    object: u32,
    word: &[u8],
    given: &ExpView<'a>,
) -> Result<Option<usize>, OutOfMemory>
    requires held { IsHeld nodes.old }
    requires types { around.types.now ≡ layouts_of around.scope.now.top.now }
    requires callees { AreCallees callees }
    ensures statement { IfOk result (λ found. seen_statement nodes.new found ≡ option_map does (object_deed (around_of callees.entry) (seen_scope around.entry.scope.now) (seen_seats around.entry.seats.now) register word.now object (arguments_of given.now))) }
    ensures within { IfOk result (IsStatementIn nodes.new) }
    ensures grows { OnOk result (Grows nodes.old nodes.new) }
{
    if word == READ {
        read_given(alloc, nodes, around, callees, object, given)
    } else if word == WRITE {
        write_given(alloc, nodes, around, callees, object, given)
    } else {
        Ok(None)
    }
}

/// A method of the meter with this number.
fn call_meter<'a>(
    alloc: Global,
    nodes: &mut ReadyNodes<'_>,
    around: Around<'_, 'a>,
    callees: Callees<'_, 'a>,
    object: u32,
    word: &[u8],
    given: &ExpView<'a>,
) -> Result<Option<usize>, OutOfMemory>
    requires held { IsHeld nodes.old }
    requires types { around.types.now ≡ layouts_of around.scope.now.top.now }
    requires callees { AreCallees callees }
    ensures statement { IfOk result (λ found. seen_statement nodes.new found ≡ option_map does (object_deed (around_of callees.entry) (seen_scope around.entry.scope.now) (seen_seats around.entry.seats.now) meter word.now object (arguments_of given.now))) }
    ensures within { IfOk result (IsStatementIn nodes.new) }
    ensures grows { OnOk result (Grows nodes.old nodes.new) }
{
    if word == EXECUTE_METER {
        meter_given(alloc, nodes, around, callees, object, given)
    } else {
        Ok(None)
    }
}

/// A method of the object of this kind with this number.
fn call_numbered<'a>(
    alloc: Global,
    nodes: &mut ReadyNodes<'_>,
    around: Around<'_, 'a>,
    callees: Callees<'_, 'a>,
    kind: ObjectKind,
    object: u32,
    word: &[u8],
    given: &ExpView<'a>,
) -> Result<Option<usize>, OutOfMemory>
    requires held { IsHeld nodes.old }
    requires types { around.types.now ≡ layouts_of around.scope.now.top.now }
    requires callees { AreCallees callees }
    ensures statement { IfOk result (λ found. seen_statement nodes.new found ≡ option_map does (object_deed (around_of callees.entry) (seen_scope around.entry.scope.now) (seen_seats around.entry.seats.now) (seen_object kind) word.now object (arguments_of given.now))) }
    ensures within { IfOk result (IsStatementIn nodes.new) }
    ensures grows { OnOk result (Grows nodes.old nodes.new) }
{
    match kind {
        ObjectKind::Counter => call_counter(alloc, nodes, around, callees, object, word, given),
        ObjectKind::DirectCounter => call_direct_counter(nodes, callees, object, word),
        ObjectKind::Register => call_register(alloc, nodes, around, callees, object, word, given),
        ObjectKind::Meter => call_meter(alloc, nodes, around, callees, object, word, given),
    }
}

/// A method of an object of this kind, which an expression names.
fn call_object<'a>(
    alloc: Global,
    nodes: &mut ReadyNodes<'_>,
    around: Around<'_, 'a>,
    callees: Callees<'_, 'a>,
    kind: ObjectKind,
    owner: &ExpView<'a>,
    word: &[u8],
    given: &ExpView<'a>,
) -> Result<Option<usize>, OutOfMemory>
    requires held { IsHeld nodes.old }
    requires types { around.types.now ≡ layouts_of around.scope.now.top.now }
    requires callees { AreCallees callees }
    ensures statement { IfOk result (λ found. seen_statement nodes.new found ≡ option_map does (object_deed (around_of callees.entry) (seen_scope around.entry.scope.now) (seen_seats around.entry.seats.now) (seen_object kind) word.now (object_found (around_of callees.entry) owner.now) (arguments_of given.now))) }
    ensures within { IfOk result (IsStatementIn nodes.new) }
    ensures grows { OnOk result (Grows nodes.old nodes.new) }
{
    let object = object_called(callees, owner)?;
    let statement = call_numbered(alloc, nodes, around, callees, kind, object, word, given)?;
    Ok(statement)
}

/// The call of a method with this name of an expression of a kind: the place of the statement, which is put behind the others; none
/// exactly where what is of this kind has no such method, or an argument is none of what its place asks for. Errors as those of
/// `ready_test`, and for too few arguments.
pub fn ready_method<'a>(
    alloc: Global,
    nodes: &mut ReadyNodes<'_>,
    around: Around<'_, 'a>,
    callees: Callees<'_, 'a>,
    kind: Kind<'a>,
    call: &ExpView<'a>,
    owner: &ExpView<'a>,
    word: &[u8],
    given: &ExpView<'a>,
) -> Result<Option<usize>, OutOfMemory>
    requires held { IsHeld nodes.old }
    requires types { around.types.now ≡ layouts_of around.scope.now.top.now }
    requires callees { AreCallees callees }
    requires whole { call.now ≡ tree.call (tree.member owner.now word.now) given.now }
    requires kind { seen_kind kind ≡ kind_of (seen_scope around.scope.now) owner.now }
    ensures statement { IfOk result (λ found. seen_statement nodes.new found ≡ option_map does (method_deed (around_of callees.entry) (seen_scope around.entry.scope.now) (seen_seats around.entry.seats.now) (seen_kind kind.entry) owner.now word.now (arguments_of given.now))) }
    ensures within { IfOk result (IsStatementIn nodes.new) }
    ensures grows { OnOk result (Grows nodes.old nodes.new) }
{
    match kind {
        Kind::Header(_) => call_header(alloc, nodes, around, callees, call, owner, word),
        Kind::Stack(_, _) => call_stack(alloc, nodes, around, owner, word, given),
        Kind::PacketIn => {
            if word == EXTRACT {
                extract_given(alloc, nodes, around, given)
            } else {
                Ok(None)
            }
        }
        Kind::PacketOut => {
            if word == EMIT {
                emit_given(alloc, nodes, around, callees, given)
            } else {
                Ok(None)
            }
        }
        Kind::Table => {
            if word == APPLY {
                apply_named(nodes, callees, owner)
            } else {
                Ok(None)
            }
        }
        Kind::Object(of) => call_object(alloc, nodes, around, callees, of, owner, word, given),
        _ => Ok(None),
    }
}
