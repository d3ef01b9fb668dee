// Stacks.
ghost use Rattle.std.specs.Prelude.{◌≡◌, ◌<◌, min, length, codes, IfOk};
ghost use Rattle.p416_syntax.specs.Tree.{stmt_at};
ghost use Rattle.lower_laws_actions.specs.Mirror.{behind_stmts, elements_set, pop_stmts, push_stmts, stack_copied, stack_stmt};
ghost use Rattle.lower_expressions.specs.Table.{at_in, words_in};
ghost use Rattle.lower_expressions.specs.Making.{MakesStmt};

use lower_expressions::{
    ReadAt, WordsTable, instance_expression, literal, member_of, method_of, one_argument,
};
use p4x_bits::OutOfMemory;
use p414_ready_actions::ReadyElement;
use p416_syntax::{ExpNode, Nodes, StmtNode};
use std::alloc::Global;

/// How many elements an instance has.
#[tactic(auto, using(lower_expressions::proofs::Numbered::size_is))]
fn size_of(table: &WordsTable<'_>, instance: u32) -> u32
    requires { instance < length (words_in table.now).names.instances }
    ensures { result ≡ (words_in table.now).size_of instance }
{
    table.instances[instance as usize].size
}

/// How many elements become valid where a stack moves up.
fn elements_new(table: &WordsTable<'_>, instance: u32, count: u32) -> u32
    requires { instance < length (words_in table.now).names.instances }
    ensures { result ≡ min count ((words_in table.now).size_of instance) }
{
    count.min(size_of(table, instance))
}

/// The elements of a stack move.
fn stack_call(
    alloc: Global,
    nodes: &mut Nodes,
    table: &WordsTable<'_>,
    stack: u32,
    word: &[u8],
    count: u32,
) -> Result<usize, OutOfMemory>
    requires { stack < length (words_in table.now).names.instances }
    ensures { IfOk result (λ place. MakesStmt nodes.old nodes.new place (stack_stmt (words_in table.now) stack word.now count)) }
{
    let instance = table.instance(stack);
    let of = instance_expression(alloc, nodes, table, ReadAt::Now, instance)?;
    let callee = member_of(alloc, nodes, of, word)?;
    let count = literal(nodes, 32, count as u128)?;
    let given = one_argument(nodes, count)?;
    let call = nodes.expression(ExpNode::Call(callee, given))?;
    let place = nodes.statement(StmtNode::Expression(call))?;
    Ok(place)
}

/// Under the parallel rule a stack is first the one of the entry.
fn copied(
    alloc: Global,
    nodes: &mut Nodes,
    table: &WordsTable<'_>,
    at: ReadAt,
    stack: u32,
    done: usize,
) -> Result<usize, OutOfMemory>
    requires there { stack < length (words_in table.now).names.instances }
    requires behind { done < length nodes.old.stmts }
    ensures { IfOk result (λ place. MakesStmt nodes.old nodes.new place (behind_stmts (stmt_at nodes.old.stmts done) (stack_copied (words_in table.now) (at_in at) stack))) }
{
    match at {
        ReadAt::Now => Ok(done),
        ReadAt::Entry => {
            let instance = table.instance(stack);
            let to = instance_expression(alloc, nodes, table, ReadAt::Now, instance)?;
            let from = instance_expression(alloc, nodes, table, ReadAt::Entry, instance)?;
            let assigned = nodes.statement(StmtNode::Assign(to, from))?;
            let place = nodes.statement(StmtNode::Then(done, assigned))?;
            Ok(place)
        }
    }
}

/// The first elements become valid.
fn elements_set(
    alloc: Global,
    nodes: &mut Nodes,
    table: &WordsTable<'_>,
    stack: u32,
    count: u32,
    done: usize,
) -> Result<usize, OutOfMemory>
    requires there { stack < length (words_in table.now).names.instances }
    requires behind { done < length nodes.old.stmts }
    ensures { IfOk result (λ place. MakesStmt nodes.old nodes.new place (behind_stmts (stmt_at nodes.old.stmts done) (elements_set (words_in table.now) stack 0 count))) }
{
    let mut done = done;
    for element in 0..count {
        let part = ReadyElement {
            instance: stack,
            element,
        };
        let next = method_of(alloc, nodes, table, part, b"setValid")?;
        done = nodes.statement(StmtNode::Then(done, next))?;
    }
    Ok(done)
}

/// The elements of a stack move up.
pub fn push(
    alloc: Global,
    nodes: &mut Nodes,
    table: &WordsTable<'_>,
    at: ReadAt,
    stack: u32,
    count: u32,
    done: usize,
) -> Result<usize, OutOfMemory>
    requires there { stack < length (words_in table.now).names.instances }
    requires behind { done < length nodes.old.stmts }
    ensures { IfOk result (λ place. MakesStmt nodes.old nodes.new place (behind_stmts (stmt_at nodes.old.stmts done) (push_stmts (words_in table.now) (at_in at) stack count))) }
{
    let done = copied(alloc, nodes, table, at, stack, done)?;
    let moved = stack_call(alloc, nodes, table, stack, b"push_front", count)?;
    let done = nodes.statement(StmtNode::Then(done, moved))?;
    let new = elements_new(table, stack, count);
    let place = elements_set(alloc, nodes, table, stack, new, done)?;
    Ok(place)
}

/// The elements of a stack move down.
#[tactic(auto, using(lower_expressions::proofs::Turning::behind_append))]
pub fn pop(
    alloc: Global,
    nodes: &mut Nodes,
    table: &WordsTable<'_>,
    at: ReadAt,
    stack: u32,
    count: u32,
    done: usize,
) -> Result<usize, OutOfMemory>
    requires there { stack < length (words_in table.now).names.instances }
    requires behind { done < length nodes.old.stmts }
    ensures { IfOk result (λ place. MakesStmt nodes.old nodes.new place (behind_stmts (stmt_at nodes.old.stmts done) (pop_stmts (words_in table.now) (at_in at) stack count))) }
{
    let done = copied(alloc, nodes, table, at, stack, done)?;
    let moved = stack_call(alloc, nodes, table, stack, b"pop_front", count)?;
    let place = nodes.statement(StmtNode::Then(done, moved))?;
    Ok(place)
}
