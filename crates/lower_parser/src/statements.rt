// Statements of parser states.
ghost use Rattle.std.specs.Prelude.{◌≡◌, ◌<◌, length, None, codes, IfOk};
ghost use Rattle.p414_slots.specs.Shown.{slot_in};
ghost use Rattle.p414_ready_parser.specs.declared.rows.ReadyStatement.TheVariants as ready_statement;
ghost use Rattle.p416_syntax.specs.Tree.{exp_at, no_statements};
ghost use Rattle.lower_expressions.specs.Has.{SlotHas};
ghost use Rattle.lower_expressions.specs.Making.{MakesStmt};
ghost use Rattle.lower_expressions.specs.Table.{words_in};
ghost use Rattle.lower_parser.specs.Has.{StatementHas, StatementsHave, ValueHas};
ghost use Rattle.lower_parser.specs.Rows.{element_behind, element_of, extraction, row_part, row_stmt, rows_behind};

use crate::values::{part, value};
use lower_expressions::{ReadAt, WordsTable, member_of, named, one_argument, slot_expression};
use p4x_bits::OutOfMemory;
use p414_ready_parser::{ReadyStatement, ReadyValue};
use p414_slots::FieldSlot;
use p416_syntax::{ExpNode, Nodes, StmtNode};
use std::alloc::Global;

/// An extract of this.
fn extracted(alloc: Global, nodes: &mut Nodes, e: usize) -> Result<usize, OutOfMemory>
    requires { e < length nodes.old.exps }
    ensures { IfOk result (λ place. MakesStmt nodes.old nodes.new place (extraction (exp_at nodes.old.exps e))) }
{
    let packet = named(alloc, nodes, b"packet")?;
    let callee = member_of(alloc, nodes, packet, b"extract")?;
    let given = one_argument(nodes, e)?;
    let call = nodes.expression(ExpNode::Call(callee, given))?;
    let place = nodes.statement(StmtNode::Expression(call))?;
    Ok(place)
}

/// The next bits become the fields of an element.
fn extract(
    alloc: Global,
    nodes: &mut Nodes,
    table: &WordsTable<'_>,
    instance: u32,
    fixed: Option<u32>,
) -> Result<usize, OutOfMemory>
    requires { instance < length (words_in table.now).names.instances }
    ensures { IfOk result (λ place. MakesStmt nodes.old nodes.new place (extraction (row_part (words_in table.now) (codes "next") instance fixed))) }
{
    let e = part(alloc, nodes, table, b"next", instance, fixed)?;
    let place = extracted(alloc, nodes, e)?;
    Ok(place)
}

/// A field gets a value.
fn set(
    alloc: Global,
    nodes: &mut Nodes,
    table: &WordsTable<'_>,
    element: Option<u32>,
    slot: FieldSlot,
    width: u8,
    from: ReadyValue,
) -> Result<usize, OutOfMemory>
    requires slot { SlotHas (words_in table.now) (slot_in slot) }
    requires from { ValueHas (words_in table.now) from }
    ensures { IfOk result (λ place. MakesStmt nodes.old nodes.new place (row_stmt (words_in table.now) element (ready_statement.Set slot width from))) }
{
    let field = slot_expression(alloc, nodes, table, ReadAt::Now, slot)?;
    let from = value(alloc, nodes, table, element, width, from)?;
    let place = nodes.statement(StmtNode::Assign(field, from))?;
    Ok(place)
}

/// A statement, where `element` was extracted last.
fn statement(
    alloc: Global,
    nodes: &mut Nodes,
    table: &WordsTable<'_>,
    element: Option<u32>,
    row: ReadyStatement,
) -> Result<usize, OutOfMemory>
    requires { StatementHas (words_in table.now) row }
    ensures { IfOk result (λ place. MakesStmt nodes.old nodes.new place (row_stmt (words_in table.now) element row)) }
{
    match row {
        ReadyStatement::Extract {
            instance,
            element: fixed,
            bits: _,
        } => extract(alloc, nodes, table, instance, fixed),
        ReadyStatement::Set { slot, width, value } => {
            set(alloc, nodes, table, element, slot, width, value)
        }
    }
}

/// The element that was extracted last, behind a statement.
fn behind(element: Option<u32>, row: ReadyStatement) -> Option<u32>
    ensures { result ≡ element_behind element row }
{
    match row {
        ReadyStatement::Extract {
            instance: _,
            element: fixed,
            bits: _,
        } => fixed,
        ReadyStatement::Set {
            slot: _,
            width: _,
            value: _,
        } => element,
    }
}

/// The element that was extracted last, behind all statements of a state.
pub fn last_element(rows: &[ReadyStatement]) -> Option<u32>
    ensures { result ≡ element_of None rows.now }
{
    let mut element = None;
    for row in rows {
        element = behind(element, *row);
    }
    element
}

/// The statements of a state.
pub fn statements(
    alloc: Global,
    nodes: &mut Nodes,
    table: &WordsTable<'_>,
    rows: &[ReadyStatement],
) -> Result<usize, OutOfMemory>
    requires { StatementsHave (words_in table.now) rows.now }
    ensures { IfOk result (λ place. MakesStmt nodes.old nodes.new place (rows_behind (words_in table.now) None no_statements rows.now)) }
{
    let mut element = None;
    let mut done = nodes.statement(StmtNode::NoStatements)?;
    for row in rows {
        let next = statement(alloc, nodes, table, element, *row)?;
        done = nodes.statement(StmtNode::Then(done, next))?;
        element = behind(element, *row);
    }
    Ok(done)
}
