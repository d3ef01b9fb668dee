// Headers and elements of stacks: where they stand, whether they are valid, and what is done with them.
ghost use Rattle.std.specs.Prelude.{◌≡◌, ◌<◌, length, codes, IfOk};
ghost use Rattle.p414_slots.specs.Shown.{slot_in};
ghost use Rattle.p414_ready_actions.specs.Running.{shown_element};
ghost use Rattle.p416_syntax.specs.Tree.{stmt_at};
ghost use Rattle.agreement_of_meanings.specs.Shown.{shown_at};
ghost use Rattle.lower_laws_base.specs.Mirror.{guarded, guarded_part, method_stmt, part_exp};
ghost use Rattle.lower_laws_actions.specs.Mirror.{add_stmt, anew_stmts};
ghost use Rattle.lower_expressions.specs.Table.{at_in, words_in};
ghost use Rattle.lower_expressions.specs.Has.{SlotHas};
ghost use Rattle.lower_expressions.specs.Making.{MakesExp, MakesStmt};

use crate::calls::{method, valid};
use crate::expressions::element_expression;
use crate::table::{ReadAt, WordsTable};
use lower_rows::Form;
use p4x_bits::OutOfMemory;
use p414_ready_actions::ReadyElement;
use p414_slots::FieldSlot;
use p416_syntax::{ExpNode, Nodes, StmtNode, UnaryOperator};
use std::alloc::Global;

/// A header or an element.
pub fn part_expression(
    alloc: Global,
    nodes: &mut Nodes,
    table: &WordsTable<'_>,
    at: ReadAt,
    part: ReadyElement,
) -> Result<usize, OutOfMemory>
    requires { part.instance < length (words_in table.now).names.instances }
    ensures { IfOk result (λ place. MakesExp nodes.old nodes.new place (part_exp (words_in table.now) (at_in at) (shown_element part))) }
{
    let instance = table.instance(part.instance);
    element_expression(alloc, nodes, table, at, instance, part.element)
}

/// A call of a method of a header or an element.
pub fn method_of(
    alloc: Global,
    nodes: &mut Nodes,
    table: &WordsTable<'_>,
    part: ReadyElement,
    word: &[u8],
) -> Result<usize, OutOfMemory>
    requires { part.instance < length (words_in table.now).names.instances }
    ensures { IfOk result (λ place. MakesStmt nodes.old nodes.new place (method_stmt (part_exp (words_in table.now) (at_in ReadAt.Now) (shown_element part)) word.now)) }
{
    let of = part_expression(alloc, nodes, table, ReadAt::Now, part)?;
    let place = method(alloc, nodes, of, word)?;
    Ok(place)
}

/// A statement that happens, under the parallel rule, where the header of an element was valid at the entry.
fn guarded_element(
    alloc: Global,
    nodes: &mut Nodes,
    table: &WordsTable<'_>,
    instance: u32,
    element: u32,
    y: usize,
) -> Result<usize, OutOfMemory>
    requires there { instance < length (words_in table.now).names.instances }
    requires given { y < length nodes.old.stmts }
    ensures { IfOk result (λ place. MakesStmt nodes.old nodes.new place (guarded_part (words_in table.now) (at_in ReadAt.Entry) (shown_at (words_in table.now).names.instances instance) element (stmt_at nodes.old.stmts y))) }
{
    let instance = table.instance(instance);
    if let Form::Metadata = instance.form {
        return Ok(y);
    }
    let of = element_expression(alloc, nodes, table, ReadAt::Entry, instance, element)?;
    let valid = valid(alloc, nodes, of)?;
    let place = nodes.statement(StmtNode::If(valid, y))?;
    Ok(place)
}

/// A statement that writes a field, which under the parallel rule happens where the field's header was valid at the entry.
pub fn guarded_write(
    alloc: Global,
    nodes: &mut Nodes,
    table: &WordsTable<'_>,
    at: ReadAt,
    slot: FieldSlot,
    y: usize,
) -> Result<usize, OutOfMemory>
    requires has { SlotHas (words_in table.now) (slot_in slot) }
    requires given { y < length nodes.old.stmts }
    ensures { IfOk result (λ place. MakesStmt nodes.old nodes.new place (guarded (words_in table.now) (at_in at) (slot_in slot) (stmt_at nodes.old.stmts y))) }
{
    match slot {
        FieldSlot::Standard(_) => Ok(y),
        FieldSlot::Declared {
            instance,
            element,
            field: _,
        } => match at {
            ReadAt::Now => Ok(y),
            ReadAt::Entry => guarded_element(alloc, nodes, table, instance, element, y),
        },
    }
}

/// Two calls of methods of a header or an element, one after the other, as a list.
fn anew(
    alloc: Global,
    nodes: &mut Nodes,
    table: &WordsTable<'_>,
    part: ReadyElement,
) -> Result<usize, OutOfMemory>
    requires { part.instance < length (words_in table.now).names.instances }
    ensures { IfOk result (λ place. MakesStmt nodes.old nodes.new place (anew_stmts (words_in table.now) (shown_element part))) }
{
    let none = nodes.statement(StmtNode::NoStatements)?;
    let first = method_of(alloc, nodes, table, part, b"setInvalid")?;
    let done = nodes.statement(StmtNode::Then(none, first))?;
    let second = method_of(alloc, nodes, table, part, b"setValid")?;
    let place = nodes.statement(StmtNode::Then(done, second))?;
    Ok(place)
}

/// A header becomes valid; under the parallel rule one that wasn't valid at the entry becomes valid anew, in braces.
pub fn add_header(
    alloc: Global,
    nodes: &mut Nodes,
    table: &WordsTable<'_>,
    at: ReadAt,
    part: ReadyElement,
) -> Result<usize, OutOfMemory>
    requires { part.instance < length (words_in table.now).names.instances }
    ensures { IfOk result (λ place. MakesStmt nodes.old nodes.new place (add_stmt (words_in table.now) (at_in at) (shown_element part))) }
{
    match at {
        ReadAt::Now => method_of(alloc, nodes, table, part, b"setValid"),
        ReadAt::Entry => {
            let of = part_expression(alloc, nodes, table, ReadAt::Entry, part)?;
            let valid = valid(alloc, nodes, of)?;
            let invalid = nodes.expression(ExpNode::Unary(UnaryOperator::Not, valid))?;
            let calls = anew(alloc, nodes, table, part)?;
            let anew = nodes.statement(StmtNode::Block(calls))?;
            let place = nodes.statement(StmtNode::If(invalid, anew))?;
            Ok(place)
        }
    }
}
