// Expressions and statements of the form, over earlier ones.
ghost use Rattle.std.specs.Prelude.{◌<◌, length, IfOk};
ghost use Rattle.p416_syntax.specs.Tree as tree;
ghost use Rattle.p416_syntax.specs.Tree.{call, no_arguments, block, exp_at, stmt_at};
ghost use Rattle.one_table_text.specs.Programs as programs;
ghost use Rattle.one_table_text.specs.internal.Making.{MakesExp, MakesStmt};

use p4x_bits::{OutOfMemory, Text};
use p416_syntax::{BinaryOperator, ExpNode, Nodes, StmtNode};
use std::alloc::Global;

/// A member of a name: `OF.WORD`.
pub(crate) fn member_of(
    alloc: Global,
    nodes: &mut Nodes,
    of: &[u8],
    word: &[u8],
) -> Result<usize, OutOfMemory>
    ensures { IfOk result (λ place. MakesExp nodes.old nodes.new place (programs.member_of of.now word.now)) }
{
    let of = nodes.expression(ExpNode::Name(Text::from_slice(alloc, of)?))?;
    let word = Text::from_slice(alloc, word)?;
    let place = nodes.expression(ExpNode::Member(of, word))?;
    Ok(place)
}

/// A call with one argument: `CALLEE(ONLY)`.
pub(crate) fn call_with(nodes: &mut Nodes, callee: usize, only: usize) -> Result<usize, OutOfMemory>
    requires callee { callee < length nodes.old.exps }
    requires only { only < length nodes.old.exps }
    ensures { IfOk result (λ place. MakesExp nodes.old nodes.new place (programs.call_with (exp_at nodes.old.exps callee) (exp_at nodes.old.exps only))) }
{
    let none = nodes.expression(ExpNode::NoArguments)?;
    let given = nodes.expression(ExpNode::Argument(none, only))?;
    let place = nodes.expression(ExpNode::Call(callee, given))?;
    Ok(place)
}

/// A call without arguments: `CALLEE()`.
fn call_of(nodes: &mut Nodes, callee: usize) -> Result<usize, OutOfMemory>
    requires { callee < length nodes.old.exps }
    ensures { IfOk result (λ place. MakesExp nodes.old nodes.new place (call (exp_at nodes.old.exps callee) no_arguments)) }
{
    let none = nodes.expression(ExpNode::NoArguments)?;
    let place = nodes.expression(ExpNode::Call(callee, none))?;
    Ok(place)
}

/// `sm.parser_error == error.NoError`.
pub(crate) fn no_error(alloc: Global, nodes: &mut Nodes) -> Result<usize, OutOfMemory>
    ensures { IfOk result (λ place. MakesExp nodes.old nodes.new place programs.no_error) }
{
    let met = member_of(alloc, nodes, b"sm", b"parser_error")?;
    let errors = nodes.expression(ExpNode::Error)?;
    let word = Text::from_slice(alloc, b"NoError")?;
    let none = nodes.expression(ExpNode::Member(errors, word))?;
    let place = nodes.expression(ExpNode::Binary(BinaryOperator::Equal, met, none))?;
    Ok(place)
}

/// The list of this statement alone.
pub(crate) fn only_statement(nodes: &mut Nodes, statement: usize) -> Result<usize, OutOfMemory>
    requires { statement < length nodes.old.stmts }
    ensures { IfOk result (λ place. MakesStmt nodes.old nodes.new place (programs.only_statement (stmt_at nodes.old.stmts statement))) }
{
    let none = nodes.statement(StmtNode::NoStatements)?;
    let place = nodes.statement(StmtNode::Then(none, statement))?;
    Ok(place)
}

/// `{ EXPRESSION; }`.
fn block_of(nodes: &mut Nodes, expression: usize) -> Result<usize, OutOfMemory>
    requires { expression < length nodes.old.exps }
    ensures { IfOk result (λ place. MakesStmt nodes.old nodes.new place (block (programs.only_statement (tree.expression (exp_at nodes.old.exps expression))))) }
{
    let statement = nodes.statement(StmtNode::Expression(expression))?;
    let only = only_statement(nodes, statement)?;
    let place = nodes.statement(StmtNode::Block(only))?;
    Ok(place)
}

/// `{ t.apply(); }`.
pub(crate) fn table_applied(alloc: Global, nodes: &mut Nodes) -> Result<usize, OutOfMemory>
    ensures { IfOk result (λ place. MakesStmt nodes.old nodes.new place (block (programs.only_statement programs.table_applied))) }
{
    let callee = member_of(alloc, nodes, b"t", b"apply")?;
    let call = call_of(nodes, callee)?;
    let place = block_of(nodes, call)?;
    Ok(place)
}

/// `{ mark_to_drop(sm); }`.
pub(crate) fn packet_dropped(alloc: Global, nodes: &mut Nodes) -> Result<usize, OutOfMemory>
    ensures { IfOk result (λ place. MakesStmt nodes.old nodes.new place (block (programs.only_statement programs.packet_dropped))) }
{
    let callee = nodes.expression(ExpNode::Name(Text::from_slice(alloc, b"mark_to_drop")?))?;
    let standard = nodes.expression(ExpNode::Name(Text::from_slice(alloc, b"sm")?))?;
    let call = call_with(nodes, callee, standard)?;
    let place = block_of(nodes, call)?;
    Ok(place)
}
