// Arguments, and calls as statements.
ghost use Rattle.std.specs.Prelude.{◌≡◌, ◌<◌, length, codes, IfOk};
ghost use Rattle.p416_syntax.specs.Tree.{exp_at};
ghost use Rattle.lower_laws_base.specs.Mirror.{method_stmt, valid_exp};
ghost use Rattle.lower_laws_actions.specs.Mirror.{function_stmt, object_stmt, one_argument, two_arguments};
ghost use Rattle.lower_expressions.specs.Table.{words_in};
ghost use Rattle.lower_expressions.specs.Making.{MakesExp, MakesStmt};

use crate::expressions::{member_of, named};
use crate::table::WordsTable;
use p4x_bits::OutOfMemory;
use p416_syntax::{ExpNode, Nodes, StmtNode};
use std::alloc::Global;

/// One argument.
pub fn one_argument(nodes: &mut Nodes, e: usize) -> Result<usize, OutOfMemory>
    requires { e < length nodes.old.exps }
    ensures { IfOk result (λ place. MakesExp nodes.old nodes.new place (one_argument (exp_at nodes.old.exps e))) }
{
    let none = nodes.expression(ExpNode::NoArguments)?;
    let place = nodes.expression(ExpNode::Argument(none, e))?;
    Ok(place)
}

/// Two arguments.
pub fn two_arguments(nodes: &mut Nodes, e: usize, f: usize) -> Result<usize, OutOfMemory>
    requires first { e < length nodes.old.exps }
    requires second { f < length nodes.old.exps }
    ensures { IfOk result (λ place. MakesExp nodes.old nodes.new place (two_arguments (exp_at nodes.old.exps e) (exp_at nodes.old.exps f))) }
{
    let one = one_argument(nodes, e)?;
    let place = nodes.expression(ExpNode::Argument(one, f))?;
    Ok(place)
}

/// A call of a method without arguments.
pub fn method(
    alloc: Global,
    nodes: &mut Nodes,
    of: usize,
    word: &[u8],
) -> Result<usize, OutOfMemory>
    requires { of < length nodes.old.exps }
    ensures { IfOk result (λ place. MakesStmt nodes.old nodes.new place (method_stmt (exp_at nodes.old.exps of) word.now)) }
{
    let callee = member_of(alloc, nodes, of, word)?;
    let none = nodes.expression(ExpNode::NoArguments)?;
    let call = nodes.expression(ExpNode::Call(callee, none))?;
    let place = nodes.statement(StmtNode::Expression(call))?;
    Ok(place)
}

/// Whether a header is valid.
pub fn valid(alloc: Global, nodes: &mut Nodes, of: usize) -> Result<usize, OutOfMemory>
    requires { of < length nodes.old.exps }
    ensures { IfOk result (λ place. MakesExp nodes.old nodes.new place (valid_exp (exp_at nodes.old.exps of))) }
{
    let callee = member_of(alloc, nodes, of, b"isValid")?;
    let none = nodes.expression(ExpNode::NoArguments)?;
    let place = nodes.expression(ExpNode::Call(callee, none))?;
    Ok(place)
}

/// A call of a function.
pub fn function_call(
    alloc: Global,
    nodes: &mut Nodes,
    text: &[u8],
    given: usize,
) -> Result<usize, OutOfMemory>
    requires { given < length nodes.old.exps }
    ensures { IfOk result (λ place. MakesStmt nodes.old nodes.new place (function_stmt text.now (exp_at nodes.old.exps given))) }
{
    let callee = named(alloc, nodes, text)?;
    let call = nodes.expression(ExpNode::Call(callee, given))?;
    let place = nodes.statement(StmtNode::Expression(call))?;
    Ok(place)
}

/// A call of a method of an object.
pub fn object_call(
    alloc: Global,
    nodes: &mut Nodes,
    table: &WordsTable<'_>,
    object: u32,
    word: &[u8],
    given: usize,
) -> Result<usize, OutOfMemory>
    requires there { object < length (words_in table.now).objects }
    requires given { given < length nodes.old.exps }
    ensures { IfOk result (λ place. MakesStmt nodes.old nodes.new place (object_stmt (words_in table.now) object word.now (exp_at nodes.old.exps given))) }
{
    let of = named(alloc, nodes, table.object(object).called.as_slice())?;
    let callee = member_of(alloc, nodes, of, word)?;
    let call = nodes.expression(ExpNode::Call(callee, given))?;
    let place = nodes.statement(StmtNode::Expression(call))?;
    Ok(place)
}
