// The statements of each block of the form.
ghost use Rattle.std.specs.Prelude.{◌≡◌, ◌<◌, length, IfOk};
ghost use Rattle.p416_syntax.specs.Tree.{no_statements, stmt_at};
ghost use Rattle.one_table_text.specs.Programs as programs;

use crate::expressions::{
    call_with, member_of, no_error, only_statement, packet_dropped, table_applied,
};
use p4x_bits::OutOfMemory;
use p416_syntax::{Block16, ExpNode, Literal16, Nodes, StmtNode};
use std::alloc::Global;

/// `{ }`.
pub(crate) fn empty_body(alloc: Global) -> Result<Block16, OutOfMemory>
    ensures { IfOk result (λ body. body ≡ no_statements) }
{
    let mut nodes = Nodes::new(alloc);
    let place = nodes.statement(StmtNode::NoStatements)?;
    Ok(Block16::new(nodes, place))
}

/// The block of one statement.
fn body_of(mut nodes: Nodes, statement: usize) -> Result<Block16, OutOfMemory>
    requires { statement < length nodes.stmts }
    ensures { IfOk result (λ body. body ≡ programs.only_statement (stmt_at nodes.stmts statement)) }
{
    let place = only_statement(&mut nodes, statement)?;
    Ok(Block16::new(nodes, place))
}

/// `{ p.METHOD(hdr.h); }`.
pub(crate) fn header_body(alloc: Global, method: &[u8]) -> Result<Block16, OutOfMemory>
    ensures { IfOk result (λ body. body ≡ programs.header_body method.now) }
{
    let mut nodes = Nodes::new(alloc);
    let callee = member_of(alloc, &mut nodes, b"p", method)?;
    let header = member_of(alloc, &mut nodes, b"hdr", b"h")?;
    let call = call_with(&mut nodes, callee, header)?;
    let statement = nodes.statement(StmtNode::Expression(call))?;
    body_of(nodes, statement)
}

/// `{ sm.egress_spec = 9wPORT; }`.
pub(crate) fn port_body(alloc: Global, port: u64) -> Result<Block16, OutOfMemory>
    ensures { IfOk result (λ body. body ≡ programs.port_body port) }
{
    let mut nodes = Nodes::new(alloc);
    let target = member_of(alloc, &mut nodes, b"sm", b"egress_spec")?;
    let number = Literal16 {
        width: Some(9),
        value: u128::from(port),
    };
    let value = nodes.expression(ExpNode::Literal(number))?;
    let statement = nodes.statement(StmtNode::Assign(target, value))?;
    body_of(nodes, statement)
}

/// What ingress does: the table, or the packet is dropped where the parser met an error.
pub(crate) fn apply_or_drop(alloc: Global) -> Result<Block16, OutOfMemory>
    ensures { IfOk result (λ body. body ≡ programs.apply_or_drop) }
{
    let mut nodes = Nodes::new(alloc);
    let condition = no_error(alloc, &mut nodes)?;
    let applied = table_applied(alloc, &mut nodes)?;
    let dropped = packet_dropped(alloc, &mut nodes)?;
    let statement = nodes.statement(StmtNode::IfElse(condition, applied, dropped))?;
    body_of(nodes, statement)
}
