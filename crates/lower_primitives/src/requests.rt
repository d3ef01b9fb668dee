// Requests, with the marks of the lists whose fields are preserved.
ghost use Rattle.std.specs.Prelude.{◌≡◌, ◌<◌, length, codes, unwrap_or, IfOk};
ghost use Rattle.p414_ready_actions.specs.Running.{shown_source};
ghost use Rattle.agreement_of_meanings.specs.Agrees.{mark_of};
ghost use Rattle.lower_laws_actions.specs.Mirror.{clone_stmt, function_stmt, mark_exp, mark_number, one_argument, request_stmt};
ghost use Rattle.lower_expressions.specs.Table.{at_in, words_in};
ghost use Rattle.lower_rows.specs.Named.{marked_lists};
ghost use Rattle.lower_expressions.specs.Has.{SourceHas};
ghost use Rattle.lower_expressions.specs.Making.{MakesExp, MakesStmt};

use fabric::RequestKind;
use lower_expressions::{
    ReadAt, WordsTable, function_call, literal, member_of_name, one_argument, source_expression,
    two_arguments,
};
use p4x_bits::OutOfMemory;
use p414_ready_actions::ReadySource;
use p416_syntax::{ExpNode, Nodes};
use std::alloc::Global;

/// The mark of a list, or 0.
#[tactic(auto, using(crate::proofs::Marking::mark_there, crate::proofs::Marking::mark_none))]
fn mark_of(marks: &[Option<u8>], list: u32) -> u8
    ensures { result ≡ unwrap_or (mark_of (marked_lists 0 marks.now) list) 0 }
{
    match marks.get(list as usize) {
        Some(mark) => mark.unwrap_or(0),
        None => 0,
    }
}

/// The mark of a list that is preserved, or 0.
fn mark_number(table: &WordsTable<'_>, list: Option<u32>) -> u8
    ensures { result ≡ mark_number (words_in table.now) list }
{
    match list {
        Some(list) => mark_of(table.marks, list),
        None => 0,
    }
}

/// The mark, as an argument.
fn mark_expression(
    nodes: &mut Nodes,
    table: &WordsTable<'_>,
    list: Option<u32>,
) -> Result<usize, OutOfMemory>
    ensures { IfOk result (λ place. MakesExp nodes.old nodes.new place (mark_exp (words_in table.now) list)) }
{
    literal(nodes, 8, mark_number(table, list) as u128)
}

/// A clone.
fn clone_call(
    alloc: Global,
    nodes: &mut Nodes,
    table: &WordsTable<'_>,
    at: ReadAt,
    word: &[u8],
    session: ReadySource,
    list: Option<u32>,
) -> Result<usize, OutOfMemory>
    requires { SourceHas (words_in table.now) (shown_source session) }
    ensures { IfOk result (λ place. MakesStmt nodes.old nodes.new place (clone_stmt (words_in table.now) (at_in at) word.now (shown_source session) list)) }
{
    let kind = member_of_name(alloc, nodes, b"CloneType", word)?;
    let session = source_expression(alloc, nodes, table, at, 32, session)?;
    let mark = mark_expression(nodes, table, list)?;
    let two = two_arguments(nodes, kind, session)?;
    let given = nodes.expression(ExpNode::Argument(two, mark))?;
    let place = function_call(alloc, nodes, b"clone_preserving_field_list", given)?;
    Ok(place)
}

/// The packet goes through again.
fn repeat_call(
    alloc: Global,
    nodes: &mut Nodes,
    table: &WordsTable<'_>,
    text: &[u8],
    list: Option<u32>,
) -> Result<usize, OutOfMemory>
    ensures { IfOk result (λ place. MakesStmt nodes.old nodes.new place (function_stmt text.now (one_argument (mark_exp (words_in table.now) list)))) }
{
    let mark = mark_expression(nodes, table, list)?;
    let given = one_argument(nodes, mark)?;
    let place = function_call(alloc, nodes, text, given)?;
    Ok(place)
}

/// A request.
pub fn request(
    alloc: Global,
    nodes: &mut Nodes,
    table: &WordsTable<'_>,
    at: ReadAt,
    kind: RequestKind,
    session: ReadySource,
    list: Option<u32>,
) -> Result<usize, OutOfMemory>
    requires { SourceHas (words_in table.now) (shown_source session) }
    ensures { IfOk result (λ place. MakesStmt nodes.old nodes.new place (request_stmt (words_in table.now) (at_in at) kind (shown_source session) list)) }
{
    match kind {
        RequestKind::CloneI2E => clone_call(alloc, nodes, table, at, b"I2E", session, list),
        RequestKind::CloneE2E => clone_call(alloc, nodes, table, at, b"E2E", session, list),
        RequestKind::Resubmit => {
            repeat_call(alloc, nodes, table, b"resubmit_preserving_field_list", list)
        }
        RequestKind::Recirculate => {
            repeat_call(
                alloc,
                nodes,
                table,
                b"recirculate_preserving_field_list",
                list,
            )
        }
    }
}
