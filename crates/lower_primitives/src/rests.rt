// What primitives do behind their fronts.
ghost use Rattle.std.specs.Prelude.{◌≡◌, ◌<◌, true, length, codes, IfOk};
ghost use Rattle.p414_sem.specs.Operations as operation;
ghost use Rattle.p414_slots.specs.Shown.{slot_in};
ghost use Rattle.p414_ready_actions.specs.Running.{shown_element, shown_source, shown_target, shown_term};
ghost use Rattle.p416_syntax.specs.Tree as tree;
ghost use Rattle.p416_syntax.specs.Tree.{exp_at, stmt_at};
ghost use Rattle.lower_laws_base.specs.Context.{object_at};
ghost use Rattle.lower_laws_base.specs.Mirror.{guarded, part_exp, slot_exp, source_exp};
ghost use Rattle.lower_laws_actions.specs.Mirror.{behind_stmts, meter_stmts, object_stmt, one_argument, rest, two_arguments, write_guarded};
ghost use Rattle.lower_expressions.specs.Table.{at_in, words_in};
ghost use Rattle.lower_expressions.specs.Has.{IsInstance, ObjectHas, SlotHas, SourceHas, TargetHas};
ghost use Rattle.lower_primitives.specs.Has.{RowHas, TermHas};
ghost use Rattle.lower_primitives.specs.Rows.{row_rest, single_stmt};
ghost use Rattle.lower_expressions.specs.Making.{MakesStmt};

use crate::drops::{dropped, drops};
use crate::requests::request;
use crate::spares::{Spare, spare_declared, spare_named};
use crate::stacks::{pop, push};
use crate::sums::write_expression;
use crate::terms::spare_expression;
use lower_expressions::{
    ReadAt, WordsTable, add_header, guarded_write, method_of, object_call, one_argument,
    part_expression, slot_expression, source_expression, two_arguments,
};
use p4x_bits::OutOfMemory;
use p414_ready_actions::{ReadyElement, ReadyPrimitive, ReadySource, ReadyTarget, ReadyTerm};
use p414_slots::FieldSlot;
use p416_syntax::{Nodes, StmtNode};
use std::alloc::Global;

/// A field gets a value, behind other statements; under the parallel rule where its header was valid at the entry.
fn field_written(
    alloc: Global,
    nodes: &mut Nodes,
    table: &WordsTable<'_>,
    at: ReadAt,
    slot: FieldSlot,
    value: usize,
    done: usize,
) -> Result<usize, OutOfMemory>
    requires has { SlotHas (words_in table.now) (slot_in slot) }
    requires value { value < length nodes.old.exps }
    requires behind { done < length nodes.old.stmts }
    ensures { IfOk result (λ place. MakesStmt nodes.old nodes.new place ((tree.then) (stmt_at nodes.old.stmts done) (guarded (words_in table.now) (at_in at) (slot_in slot) (tree.assign (slot_exp (words_in table.now) (at_in ReadAt.Now) (slot_in slot)) (exp_at nodes.old.exps value))))) }
{
    let field = slot_expression(alloc, nodes, table, ReadAt::Now, slot)?;
    let assigned = nodes.statement(StmtNode::Assign(field, value))?;
    let next = guarded_write(alloc, nodes, table, at, slot, assigned)?;
    let place = nodes.statement(StmtNode::Then(done, next))?;
    Ok(place)
}

/// A field gets a term that drops nothing.
fn plainly_written(
    alloc: Global,
    nodes: &mut Nodes,
    table: &WordsTable<'_>,
    at: ReadAt,
    number: u32,
    target: ReadyTarget,
    term: ReadyTerm,
    done: usize,
) -> Result<usize, OutOfMemory>
    requires own { TargetHas (words_in table.now) (shown_target target) }
    requires has { TermHas (words_in table.now) (shown_term term) }
    requires behind { done < length nodes.old.stmts }
    ensures { IfOk result (λ place. MakesStmt nodes.old nodes.new place ((tree.then) (stmt_at nodes.old.stmts done) (write_guarded (words_in table.now) (at_in at) number true (shown_target target) (shown_term term)))) }
{
    let value = write_expression(alloc, nodes, table, at, number, target, term)?;
    let place = field_written(alloc, nodes, table, at, target.slot, value, done)?;
    Ok(place)
}

/// A field gets a term, or the packet is dropped.
fn term_written(
    alloc: Global,
    nodes: &mut Nodes,
    table: &WordsTable<'_>,
    at: ReadAt,
    number: u32,
    target: ReadyTarget,
    term: ReadyTerm,
    done: usize,
) -> Result<usize, OutOfMemory>
    requires own { TargetHas (words_in table.now) (shown_target target) }
    requires has { TermHas (words_in table.now) (shown_term term) }
    requires behind { done < length nodes.old.stmts }
    ensures { IfOk result (λ place. MakesStmt nodes.old nodes.new place (behind_stmts (stmt_at nodes.old.stmts done) (rest (words_in table.now) (at_in at) number (operation.write true (shown_target target) (shown_term term))))) }
{
    if drops(target.slot, term) {
        let next = dropped(alloc, nodes, table)?;
        let place = nodes.statement(StmtNode::Then(done, next))?;
        Ok(place)
    } else {
        plainly_written(alloc, nodes, table, at, number, target, term, done)
    }
}

/// A field gets a hash.
fn hash_written(
    alloc: Global,
    nodes: &mut Nodes,
    table: &WordsTable<'_>,
    at: ReadAt,
    number: u32,
    slot: FieldSlot,
    done: usize,
) -> Result<usize, OutOfMemory>
    requires has { SlotHas (words_in table.now) (slot_in slot) }
    requires behind { done < length nodes.old.stmts }
    ensures { IfOk result (λ place. MakesStmt nodes.old nodes.new place ((tree.then) (stmt_at nodes.old.stmts done) (guarded (words_in table.now) (at_in at) (slot_in slot) (tree.assign (slot_exp (words_in table.now) (at_in ReadAt.Now) (slot_in slot)) (tree.name ((words_in table.now).spare number 0)))))) }
{
    let value = spare_named(alloc, nodes, table, number, Spare::Got)?;
    let place = field_written(alloc, nodes, table, at, slot, value, done)?;
    Ok(place)
}

/// A header becomes what another one is.
fn header_copied(
    alloc: Global,
    nodes: &mut Nodes,
    table: &WordsTable<'_>,
    at: ReadAt,
    to: ReadyElement,
    from: ReadyElement,
) -> Result<usize, OutOfMemory>
    requires to { IsInstance (words_in table.now) to.instance }
    requires from { IsInstance (words_in table.now) from.instance }
    ensures { IfOk result (λ place. MakesStmt nodes.old nodes.new place (tree.assign (part_exp (words_in table.now) (at_in ReadAt.Now) (shown_element to)) (part_exp (words_in table.now) (at_in at) (shown_element from)))) }
{
    let to = part_expression(alloc, nodes, table, ReadAt::Now, to)?;
    let from = part_expression(alloc, nodes, table, at, from)?;
    let place = nodes.statement(StmtNode::Assign(to, from))?;
    Ok(place)
}

/// A counter's cell counts.
fn counted(
    alloc: Global,
    nodes: &mut Nodes,
    table: &WordsTable<'_>,
    at: ReadAt,
    object: u32,
    index: ReadySource,
) -> Result<usize, OutOfMemory>
    requires object { ObjectHas (words_in table.now) object }
    requires index { SourceHas (words_in table.now) (shown_source index) }
    ensures { IfOk result (λ place. MakesStmt nodes.old nodes.new place (object_stmt (words_in table.now) object (codes "count") (one_argument (source_exp (words_in table.now) (at_in at) 32 (shown_source index))))) }
{
    let index = source_expression(alloc, nodes, table, at, 32, index)?;
    let given = one_argument(nodes, index)?;
    let place = object_call(alloc, nodes, table, object, b"count", given)?;
    Ok(place)
}

/// A register's cell gets a number.
fn cell_written(
    alloc: Global,
    nodes: &mut Nodes,
    table: &WordsTable<'_>,
    at: ReadAt,
    object: u32,
    index: ReadySource,
    value: ReadySource,
) -> Result<usize, OutOfMemory>
    requires object { ObjectHas (words_in table.now) object }
    requires index { SourceHas (words_in table.now) (shown_source index) }
    requires value { SourceHas (words_in table.now) (shown_source value) }
    ensures { IfOk result (λ place. MakesStmt nodes.old nodes.new place (object_stmt (words_in table.now) object (codes "write") (two_arguments (source_exp (words_in table.now) (at_in at) 32 (shown_source index)) (source_exp (words_in table.now) (at_in at) (object_at (words_in table.now).objects object).width (shown_source value))))) }
{
    let index = source_expression(alloc, nodes, table, at, 32, index)?;
    let width = table.object(object).width;
    let value = source_expression(alloc, nodes, table, at, width, value)?;
    let given = two_arguments(nodes, index, value)?;
    let place = object_call(alloc, nodes, table, object, b"write", given)?;
    Ok(place)
}

/// A meter gives its next colour to a variable.
fn metered(
    alloc: Global,
    nodes: &mut Nodes,
    table: &WordsTable<'_>,
    at: ReadAt,
    number: u32,
    object: u32,
    index: ReadySource,
) -> Result<usize, OutOfMemory>
    requires object { ObjectHas (words_in table.now) object }
    requires index { SourceHas (words_in table.now) (shown_source index) }
    ensures { IfOk result (λ place. MakesStmt nodes.old nodes.new place (object_stmt (words_in table.now) object (codes "execute_meter") (two_arguments (source_exp (words_in table.now) (at_in at) 32 (shown_source index)) (tree.name ((words_in table.now).spare number 2))))) }
{
    let index = source_expression(alloc, nodes, table, at, 32, index)?;
    let hue = spare_named(alloc, nodes, table, number, Spare::Colour)?;
    let given = two_arguments(nodes, index, hue)?;
    let place = object_call(alloc, nodes, table, object, b"execute_meter", given)?;
    Ok(place)
}

/// A meter gives its next colour to a field.
fn meter_executed(
    alloc: Global,
    nodes: &mut Nodes,
    table: &WordsTable<'_>,
    at: ReadAt,
    number: u32,
    object: u32,
    index: ReadySource,
    target: ReadyTarget,
    done: usize,
) -> Result<usize, OutOfMemory>
    requires object { ObjectHas (words_in table.now) object }
    requires index { SourceHas (words_in table.now) (shown_source index) }
    requires own { TargetHas (words_in table.now) (shown_target target) }
    requires behind { done < length nodes.old.stmts }
    ensures { IfOk result (λ place. MakesStmt nodes.old nodes.new place (behind_stmts (stmt_at nodes.old.stmts done) (meter_stmts (words_in table.now) (at_in at) number object (shown_source index) (shown_target target)))) }
{
    let done = spare_declared(alloc, nodes, table, number, Spare::Colour, 8, done)?;
    let call = metered(alloc, nodes, table, at, number, object, index)?;
    let done = nodes.statement(StmtNode::Then(done, call))?;
    let value = spare_expression(alloc, nodes, table, number, Spare::Colour, 8, target.width)?;
    let place = field_written(alloc, nodes, table, at, target.slot, value, done)?;
    Ok(place)
}

/// What a primitive of one statement does.
fn single(
    alloc: Global,
    nodes: &mut Nodes,
    table: &WordsTable<'_>,
    at: ReadAt,
    row: ReadyPrimitive,
) -> Result<usize, OutOfMemory>
    requires has { RowHas table.now row }
    ensures { IfOk result (λ place. MakesStmt nodes.old nodes.new place (single_stmt table.now (at_in at) row)) }
{
    match row {
        ReadyPrimitive::AddHeader(part) => add_header(alloc, nodes, table, at, part),
        ReadyPrimitive::RemoveHeader(part) => method_of(alloc, nodes, table, part, b"setInvalid"),
        ReadyPrimitive::CopyHeader(to, from) => header_copied(alloc, nodes, table, at, to, from),
        ReadyPrimitive::Count { object, index } => {
            counted(alloc, nodes, table, at, object, index)
        }
        ReadyPrimitive::WriteCell {
            object,
            index,
            value,
        } => cell_written(alloc, nodes, table, at, object, index, value),
        ReadyPrimitive::Ask {
            kind,
            session,
            list,
        } => request(alloc, nodes, table, at, kind, session, list),
        _ => Ok(nodes.statement(StmtNode::NoStatements)?),
    }
}

/// What a primitive does behind its front, behind other statements.
pub fn rest(
    alloc: Global,
    nodes: &mut Nodes,
    table: &WordsTable<'_>,
    at: ReadAt,
    number: u32,
    row: ReadyPrimitive,
    done: usize,
) -> Result<usize, OutOfMemory>
    requires has { RowHas table.now row }
    requires behind { done < length nodes.old.stmts }
    ensures { IfOk result (λ place. MakesStmt nodes.old nodes.new place (behind_stmts (stmt_at nodes.old.stmts done) (row_rest table.now (at_in at) number row))) }
{
    match row {
        ReadyPrimitive::Write { target, term } => {
            term_written(alloc, nodes, table, at, number, target, term, done)
        }
        ReadyPrimitive::Hash {
            target,
            base: _,
            calculation: _,
            bound: _,
        } => hash_written(alloc, nodes, table, at, number, target.slot, done),
        ReadyPrimitive::Push { stack, count } => {
            push(alloc, nodes, table, at, stack, count, done)
        }
        ReadyPrimitive::Pop { stack, count } => pop(alloc, nodes, table, at, stack, count, done),
        ReadyPrimitive::ExecuteMeter {
            object,
            index,
            target,
        } => meter_executed(alloc, nodes, table, at, number, object, index, target, done),
        ReadyPrimitive::Nothing => Ok(done),
        _ => {
            let next = single(alloc, nodes, table, at, row)?;
            let place = nodes.statement(StmtNode::Then(done, next))?;
            Ok(place)
        }
    }
}
