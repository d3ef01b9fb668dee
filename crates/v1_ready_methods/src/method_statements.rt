// Calls of methods (P4_16 1.2, "Operations on headers", "Operations on header stacks", "Data extraction", "Deparsing",
// "Match-action unit invocation").
ghost use Rattle.std.specs.Prelude.{◌≡◌, [], ◌∷◌, option_map, IfOk, OnOk};
ghost use Rattle.name_numbers.specs.Names.{find_name};
ghost use Rattle.p416_syntax.specs.Declarations.{layouts_of};
ghost use Rattle.p416_calls.specs.Seen.{seen_place};
ghost use Rattle.p416_scopes.specs.Seen.{seen_scope};
ghost use Rattle.v1_ready_blocks.specs.Statements.{does, set_valid, push_front, extract_header, emit_headers, apply, let_go};
ghost use Rattle.v1_ready_program.specs.Seen.{seen_seats};
ghost use Rattle.v1_ready_nodes.specs.Held.{IsHeld, Grows};
ghost use Rattle.v1_ready_operands.specs.SeenStatements.{seen_statement, IsStatementIn};
ghost use Rattle.v1_ready_statements.specs.Targets.{range_given};
ghost use Rattle.v1_ready_statements.specs.Tested.{ready_test, ready_source};
ghost use Rattle.v1_ready_statements.specs.Called.{stack_deed};

use name_numbers::Numbering;
use p4x_bits::OutOfMemory;
use p416_calls::Place;
use p416_syntax::ExpView;
use std::alloc::Global;
use v1_ready_blocks::StatementNode;
use v1_ready_nodes::ReadyNodes;
use v1_ready_operands::{number_given, put_statement, range_given, ready_source};
use v1_ready_places::fixed_range;
use v1_ready_program::Around;
use v1_ready_tests::ready_test;

/// `setValid`, or `setInvalid`, of a header: the place of the statement, which is put behind the others; none exactly where that is no
/// l-value of a header, a stack or a struct.
pub fn ready_header<'a>(
    alloc: Global,
    nodes: &mut ReadyNodes<'_>,
    around: Around<'_, 'a>,
    header: &ExpView<'a>,
    on: bool,
) -> Result<Option<usize>, OutOfMemory>
    requires held { IsHeld nodes.old }
    requires types { around.types.now ≡ layouts_of around.scope.now.top.now }
    ensures statement { IfOk result (λ found. seen_statement nodes.new found ≡ option_map does (option_map (λ r. set_valid r on) (range_given (seen_scope around.entry.scope.now) (seen_seats around.entry.seats.now) header.now))) }
    ensures within { IfOk result (IsStatementIn nodes.new) }
    ensures grows { OnOk result (Grows nodes.old nodes.new) }
{
    match range_given(alloc, around, header)? {
        Some(range) => {
            let statement = put_statement(nodes, StatementNode::SetValid(range, on))?;
            Ok(Some(statement))
        }
        None => Ok(None),
    }
}

const PUSH_FRONT: &[u8] = b"push_front";

const POP_FRONT: &[u8] = b"pop_front";

/// `push_front` or `pop_front`, by its name, of a stack by as many elements as a literal says; as `ready_header`, and none for any
/// other name. A number of more than 32 bits counts as want of memory.
pub fn ready_stack<'a>(
    alloc: Global,
    nodes: &mut ReadyNodes<'_>,
    around: Around<'_, 'a>,
    stack: &ExpView<'a>,
    word: &[u8],
    count: &ExpView<'_>,
) -> Result<Option<usize>, OutOfMemory>
    requires held { IsHeld nodes.old }
    requires types { around.types.now ≡ layouts_of around.scope.now.top.now }
    ensures statement { IfOk result (λ found. seen_statement nodes.new found ≡ option_map does (stack_deed (seen_scope around.entry.scope.now) (seen_seats around.entry.seats.now) stack.now word.now (count.now ∷ []))) }
    ensures within { IfOk result (IsStatementIn nodes.new) }
    ensures grows { OnOk result (Grows nodes.old nodes.new) }
{
    let count = number_given(count)?;
    let Some(place) = range_given(alloc, around, stack)? else {
        return Ok(None);
    };
    let Some(range) = fixed_range(place) else {
        return Ok(None);
    };
    if word == PUSH_FRONT {
        let statement = put_statement(nodes, StatementNode::PushFront(range, count))?;
        Ok(Some(statement))
    } else if word == POP_FRONT {
        let statement = put_statement(nodes, StatementNode::PopFront(range, count))?;
        Ok(Some(statement))
    } else {
        Ok(None)
    }
}

/// `p.extract(e)`; as `ready_header`.
pub fn ready_extract<'a>(
    alloc: Global,
    nodes: &mut ReadyNodes<'_>,
    around: Around<'_, 'a>,
    header: &ExpView<'a>,
) -> Result<Option<usize>, OutOfMemory>
    requires held { IsHeld nodes.old }
    requires types { around.types.now ≡ layouts_of around.scope.now.top.now }
    ensures statement { IfOk result (λ found. seen_statement nodes.new found ≡ option_map does (option_map extract_header (range_given (seen_scope around.entry.scope.now) (seen_seats around.entry.seats.now) header.now))) }
    ensures within { IfOk result (IsStatementIn nodes.new) }
    ensures grows { OnOk result (Grows nodes.old nodes.new) }
{
    match range_given(alloc, around, header)? {
        Some(range) => {
            let statement = put_statement(nodes, StatementNode::Extract(range))?;
            Ok(Some(statement))
        }
        None => Ok(None),
    }
}

/// `p.emit(e)`; none exactly where that is no header, stack or struct.
pub fn ready_emit<'a>(
    alloc: Global,
    nodes: &mut ReadyNodes<'_>,
    around: Around<'_, 'a>,
    tables: &Numbering<'_>,
    headers: &ExpView<'a>,
) -> Result<Option<usize>, OutOfMemory>
    requires held { IsHeld nodes.old }
    requires types { around.types.now ≡ layouts_of around.scope.now.top.now }
    ensures statement { IfOk result (λ found. seen_statement nodes.new found ≡ option_map does (option_map emit_headers (ready_source (seen_scope around.entry.scope.now) (seen_seats around.entry.seats.now) (find_name tables.now) headers.now))) }
    ensures within { IfOk result (IsStatementIn nodes.new) }
    ensures grows { OnOk result (Grows nodes.old nodes.new) }
{
    match ready_source(alloc, nodes, around, tables, headers)? {
        Some(source) => {
            let statement = put_statement(nodes, StatementNode::Emit(source))?;
            Ok(Some(statement))
        }
        None => Ok(None),
    }
}

/// A call whose value is let go; none exactly where that is no single value.
pub fn ready_let_go<'a>(
    alloc: Global,
    nodes: &mut ReadyNodes<'_>,
    around: Around<'_, 'a>,
    tables: &Numbering<'_>,
    place: Place<'a>,
    call: &ExpView<'a>,
) -> Result<Option<usize>, OutOfMemory>
    requires held { IsHeld nodes.old }
    requires types { around.types.now ≡ layouts_of around.scope.now.top.now }
    ensures statement { IfOk result (λ found. seen_statement nodes.new found ≡ option_map does (option_map let_go (ready_test (seen_scope around.entry.scope.now) (seen_seats around.entry.seats.now) (find_name tables.now) (seen_place place.entry) call.now))) }
    ensures within { IfOk result (IsStatementIn nodes.new) }
    ensures grows { OnOk result (Grows nodes.old nodes.new) }
{
    match ready_test(alloc, nodes, around, tables, place, call)? {
        Some(test) => {
            let statement = put_statement(nodes, StatementNode::LetGo(test))?;
            Ok(Some(statement))
        }
        None => Ok(None),
    }
}

/// The application of a table with a number, where it has one.
pub fn ready_apply(
    nodes: &mut ReadyNodes<'_>,
    table: Option<u32>,
) -> Result<Option<usize>, OutOfMemory>
    requires held { IsHeld nodes.old }
    ensures statement { IfOk result (λ found. seen_statement nodes.new found ≡ option_map does (option_map apply table)) }
    ensures within { IfOk result (IsStatementIn nodes.new) }
    ensures grows { OnOk result (Grows nodes.old nodes.new) }
{
    match table {
        Some(table) => {
            let statement = put_statement(nodes, StatementNode::Apply(table))?;
            Ok(Some(statement))
        }
        None => Ok(None),
    }
}
