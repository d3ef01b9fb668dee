// The fronts of primitives: what is read of a register, or a hash, goes to a variable of the primitive's own.
ghost use Rattle.std.specs.Prelude.{◌≡◌, ◌<◌, [], length, codes, IfOk};
ghost use Rattle.p414_sem.specs.Operations.{cell};
ghost use Rattle.p414_ready_actions.specs.Running.{shown_source, shown_term};
ghost use Rattle.p416_syntax.specs.Tree.{stmt_at};
ghost use Rattle.lower_laws_actions.specs.Mirror.{behind_stmts, read_front};
ghost use Rattle.lower_expressions.specs.Table.{at_in, words_in};
ghost use Rattle.lower_expressions.specs.Has.{ObjectHas, SourceHas};
ghost use Rattle.lower_primitives.specs.Has.{RowHas, TermHas};
ghost use Rattle.lower_primitives.specs.Rows.{row_front};
ghost use Rattle.lower_expressions.specs.Making.{MakesStmt};

use crate::hashes::hash_front;
use crate::spares::{Spare, spare_declared, spare_named};
use lower_expressions::{ReadAt, WordsTable, object_call, source_expression, two_arguments};
use p4x_bits::OutOfMemory;
use p414_ready_actions::{ReadyPrimitive, ReadySource, ReadyTerm};
use p416_syntax::{Nodes, StmtNode};
use std::alloc::Global;

/// A register's cell, read into a variable.
fn cell_front(
    alloc: Global,
    nodes: &mut Nodes,
    table: &WordsTable<'_>,
    at: ReadAt,
    number: u32,
    object: u32,
    index: ReadySource,
    done: usize,
) -> Result<usize, OutOfMemory>
    requires object { ObjectHas (words_in table.now) object }
    requires index { SourceHas (words_in table.now) (shown_source index) }
    requires behind { done < length nodes.old.stmts }
    ensures { IfOk result (λ place. MakesStmt nodes.old nodes.new place (behind_stmts (stmt_at nodes.old.stmts done) (read_front [] (words_in table.now) (at_in at) number 0 (cell object (shown_source index))))) }
{
    let width = table.object(object).width as u32;
    let done = spare_declared(alloc, nodes, table, number, Spare::Got, width, done)?;
    let to = spare_named(alloc, nodes, table, number, Spare::Got)?;
    let index = source_expression(alloc, nodes, table, at, 32, index)?;
    let given = two_arguments(nodes, to, index)?;
    let read = object_call(alloc, nodes, table, object, b"read", given)?;
    let place = nodes.statement(StmtNode::Then(done, read))?;
    Ok(place)
}

/// The front of a term.
fn term_front(
    alloc: Global,
    nodes: &mut Nodes,
    table: &WordsTable<'_>,
    at: ReadAt,
    number: u32,
    width: u8,
    term: ReadyTerm,
    done: usize,
) -> Result<usize, OutOfMemory>
    requires has { TermHas (words_in table.now) (shown_term term) }
    requires behind { done < length nodes.old.stmts }
    ensures { IfOk result (λ place. MakesStmt nodes.old nodes.new place (behind_stmts (stmt_at nodes.old.stmts done) (read_front [] (words_in table.now) (at_in at) number width (shown_term term)))) }
{
    match term {
        ReadyTerm::Cell { object, index } => {
            cell_front(alloc, nodes, table, at, number, object, index, done)
        }
        _ => Ok(done),
    }
}

/// The front of a primitive, behind other statements.
pub fn front(
    alloc: Global,
    nodes: &mut Nodes,
    table: &WordsTable<'_>,
    at: ReadAt,
    number: u32,
    row: ReadyPrimitive,
    done: usize,
) -> Result<usize, OutOfMemory>
    requires has { RowHas table.now row }
    requires behind { done < length nodes.old.stmts }
    ensures { IfOk result (λ place. MakesStmt nodes.old nodes.new place (behind_stmts (stmt_at nodes.old.stmts done) (row_front table.now (at_in at) number row))) }
{
    match row {
        ReadyPrimitive::Write { target, term } => {
            term_front(alloc, nodes, table, at, number, target.width, term, done)
        }
        ReadyPrimitive::Hash {
            target,
            base,
            calculation,
            bound,
        } => {
            let width = target.width;
            hash_front(
                alloc,
                nodes,
                table,
                at,
                number,
                width,
                base,
                calculation,
                bound,
                done,
            )
        }
        _ => Ok(done),
    }
}
