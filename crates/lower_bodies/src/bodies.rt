// The bodies of actions.
ghost use Rattle.std.specs.Prelude.{◌≡◌, ◌<◌, List, length, IfOk};
ghost use Rattle.p414_syntax.specs.declared.syntax.Decl.{Decl};
ghost use Rattle.p414_sem.specs.Operations.{Primitive};
ghost use Rattle.p416_syntax.specs.Tree as tree;
ghost use Rattle.p416_syntax.specs.Tree.{stmt_at};
ghost use Rattle.lower_laws_base.specs.Mirror.{copies_stmt};
ghost use Rattle.lower_laws_actions.specs.Mirror.{behind_stmts, body_stmt, counts_first};
ghost use Rattle.lower_expressions.specs.Table.{at_in, words_in};
ghost use Rattle.lower_primitives.specs.Has.{CounterHas, RowHas, RowsHave};
ghost use Rattle.lower_primitives.specs.Rows.{row_front, row_rest, row_stmts};
ghost use Rattle.lower_bodies.specs.Bodies.{rows_at_once, rows_body, rows_by, rows_in_order};
ghost use Rattle.lower_bodies.specs.Reading.{AreRead, rows_need};
ghost use Rattle.lower_primitives.specs.Kept.{AreKept};
ghost use Rattle.lower_expressions.specs.Making.{MakesStmt};

use crate::apart::are_rows_apart;
use lower_expressions::{ReadAt, WordsTable, named, object_call};
use lower_primitives::{front, rest};
use lower_rows::Form;
use name_numbers::narrow;
use p4x_bits::OutOfMemory;
use p414_ready_actions::ReadyPrimitive;
use p414_slots::FieldSlot;
use p414_syntax::Rule14;
use p416_syntax::{ExpNode, Nodes, StmtNode};
use std::alloc::Global;

/// All that a primitive does, behind other statements.
#[tactic(auto, using(lower_expressions::proofs::Turning::behind_append))]
fn whole_row(
    alloc: Global,
    nodes: &mut Nodes,
    table: &WordsTable<'_>,
    at: ReadAt,
    number: u32,
    row: ReadyPrimitive,
    done: usize,
) -> Result<usize, OutOfMemory>
    requires has { RowHas table.now row }
    requires behind { done < length nodes.old.stmts }
    ensures { IfOk result (λ place. MakesStmt nodes.old nodes.new place (behind_stmts (stmt_at nodes.old.stmts done) (row_stmts table.now (at_in at) number row))) }
{
    let done = front(alloc, nodes, table, at, number, row, done)?;
    let place = rest(alloc, nodes, table, at, number, row, done)?;
    Ok(place)
}

/// Primitives one after another, behind other statements.
fn in_order(
    alloc: Global,
    nodes: &mut Nodes,
    table: &WordsTable<'_>,
    rows: &[ReadyPrimitive],
    done: usize,
) -> Result<usize, OutOfMemory>
    requires have { RowsHave table.now rows.now }
    requires behind { done < length nodes.old.stmts }
    ensures { IfOk result (λ place. MakesStmt nodes.old nodes.new place (rows_in_order table.now (stmt_at nodes.old.stmts done) rows.now)) }
{
    let mut done = done;
    let mut number = 0;
    for row in rows {
        let place = narrow(number)?;
        done = whole_row(alloc, nodes, table, ReadAt::Now, place, *row, done)?;
        number += 1;
    }
    Ok(done)
}

/// The fronts of primitives, which read at the entry.
fn fronts(
    alloc: Global,
    nodes: &mut Nodes,
    table: &WordsTable<'_>,
    rows: &[ReadyPrimitive],
    done: usize,
) -> Result<usize, OutOfMemory>
    requires have { RowsHave table.now rows.now }
    requires behind { done < length nodes.old.stmts }
    ensures { IfOk result (λ place. MakesStmt nodes.old nodes.new place (behind_stmts (stmt_at nodes.old.stmts done) (rows_by (row_front table.now (at_in ReadAt.Entry)) 0 rows.now))) }
{
    let mut done = done;
    let mut number = 0;
    for row in rows {
        let place = narrow(number)?;
        done = front(alloc, nodes, table, ReadAt::Entry, place, *row, done)?;
        number += 1;
    }
    Ok(done)
}

/// What primitives do behind their fronts, where operands are read at the entry.
fn rests(
    alloc: Global,
    nodes: &mut Nodes,
    table: &WordsTable<'_>,
    rows: &[ReadyPrimitive],
    done: usize,
) -> Result<usize, OutOfMemory>
    requires have { RowsHave table.now rows.now }
    requires behind { done < length nodes.old.stmts }
    ensures { IfOk result (λ place. MakesStmt nodes.old nodes.new place (behind_stmts (stmt_at nodes.old.stmts done) (rows_by (row_rest table.now (at_in ReadAt.Entry)) 0 rows.now))) }
{
    let mut done = done;
    let mut number = 0;
    for row in rows {
        let place = narrow(number)?;
        done = rest(alloc, nodes, table, ReadAt::Entry, place, *row, done)?;
        number += 1;
    }
    Ok(done)
}

/// A variable gets a parameter of the block, behind other statements.
fn copied(
    alloc: Global,
    nodes: &mut Nodes,
    to: &[u8],
    from: &[u8],
    done: usize,
) -> Result<usize, OutOfMemory>
    requires { done < length nodes.old.stmts }
    ensures { IfOk result (λ place. MakesStmt nodes.old nodes.new place ((tree.then) (stmt_at nodes.old.stmts done) (tree.assign (tree.name to.now) (tree.name from.now)))) }
{
    let to = named(alloc, nodes, to)?;
    let from = named(alloc, nodes, from)?;
    let copied = nodes.statement(StmtNode::Assign(to, from))?;
    let place = nodes.statement(StmtNode::Then(done, copied))?;
    Ok(place)
}

/// The parameters of the block, copied whole behind other statements.
fn copies(
    alloc: Global,
    nodes: &mut Nodes,
    table: &WordsTable<'_>,
    done: usize,
) -> Result<usize, OutOfMemory>
    requires { done < length nodes.old.stmts }
    ensures { IfOk result (λ place. MakesStmt nodes.old nodes.new place (copies_stmt (words_in table.now) (stmt_at nodes.old.stmts done))) }
{
    let to = table.root(ReadAt::Entry, Form::Header);
    let done = copied(
        alloc,
        nodes,
        to,
        table.root(ReadAt::Now, Form::Header),
        done,
    )?;
    let to = table.root(ReadAt::Entry, Form::Metadata);
    let done = copied(
        alloc,
        nodes,
        to,
        table.root(ReadAt::Now, Form::Metadata),
        done,
    )?;
    let to = table.standard_root(ReadAt::Entry);
    let place = copied(alloc, nodes, to, table.standard_root(ReadAt::Now), done)?;
    Ok(place)
}

/// Primitives at once: first all registers are read.
fn at_once(
    alloc: Global,
    nodes: &mut Nodes,
    table: &WordsTable<'_>,
    rows: &[ReadyPrimitive],
    done: usize,
) -> Result<usize, OutOfMemory>
    requires have { RowsHave table.now rows.now }
    requires behind { done < length nodes.old.stmts }
    ensures { IfOk result (λ place. MakesStmt nodes.old nodes.new place (rows_at_once table.now (stmt_at nodes.old.stmts done) rows.now)) }
{
    let done = copies(alloc, nodes, table, done)?;
    let done = fronts(alloc, nodes, table, rows, done)?;
    let place = rests(alloc, nodes, table, rows, done)?;
    Ok(place)
}

/// What the copy of an action for a table with a direct counter does first.
fn begun(
    alloc: Global,
    nodes: &mut Nodes,
    table: &WordsTable<'_>,
    counter: Option<u32>,
) -> Result<usize, OutOfMemory>
    requires { CounterHas table.now counter }
    ensures { IfOk result (λ place. MakesStmt nodes.old nodes.new place (counts_first (words_in table.now) counter)) }
{
    let none = nodes.statement(StmtNode::NoStatements)?;
    match counter {
        None => Ok(none),
        Some(object) => {
            let given = nodes.expression(ExpNode::NoArguments)?;
            let counted = object_call(alloc, nodes, table, object, b"count", given)?;
            let place = nodes.statement(StmtNode::Then(none, counted))?;
            Ok(place)
        }
    }
}

/// Whether operands are to be read at copies: under the parallel rule, unless the rows are apart.
pub fn copies_needed(
    alloc: Global,
    rule: Rule14,
    read: &[Vec<FieldSlot>],
    rows: &[ReadyPrimitive],
) -> Result<bool, OutOfMemory>
    ensures { IfOk result (λ needed. needed ≡ rows_need read.now rule rows.now) }
{
    match rule {
        Rule14::Sequential => Ok(false),
        Rule14::Parallel => {
            let apart = are_rows_apart(alloc, rows, read)?;
            Ok(!apart)
        }
    }
}

/// The list of the statements of an action's body, by its rows.
pub fn rows_body(
    alloc: Global,
    nodes: &mut Nodes,
    table: &WordsTable<'_>,
    copies: bool,
    counter: Option<u32>,
    rows: &[ReadyPrimitive],
) -> Result<usize, OutOfMemory>
    requires have { RowsHave table.now rows.now }
    requires counter { CounterHas table.now counter }
    ensures { IfOk result (λ place. MakesStmt nodes.old nodes.new place (rows_body table.now copies counter rows.now)) }
{
    let done = begun(alloc, nodes, table, counter)?;
    if copies {
        at_once(alloc, nodes, table, rows, done)
    } else {
        in_order(alloc, nodes, table, rows, done)
    }
}

/// The list of the statements of an action's body: the mirror's, for whatever primitives the rows are kept of. What
/// calculations read is `fields_read`'s.
pub fn body(
    alloc: Global,
    nodes: &mut Nodes,
    table: &WordsTable<'_>,
    read: &[Vec<FieldSlot>],
    rule: Rule14,
    counter: Option<u32>,
    rows: &[ReadyPrimitive],
) -> Result<usize, OutOfMemory>
    requires have { RowsHave table.now rows.now }
    requires read { AreRead table.now read.now }
    requires counter { CounterHas table.now counter }
    ensures { IfOk result (λ place. (ds : List Decl) (ps : List Primitive) → AreKept ds table.now ps rows.now → MakesStmt nodes.old nodes.new place (body_stmt ds (words_in table.now) rule counter ps)) }
{
    let copies = copies_needed(alloc, rule, read, rows)?;
    let place = rows_body(alloc, nodes, table, copies, counter, rows)?;
    Ok(place)
}
