// A control that is put together: its nodes come back as they were put.
ghost use Rattle.std.specs.Prelude.{◌≡◌, ℕ, length, suc, IfOk};

use p4x_bits::{OutOfMemory, Text};
use p414_syntax::{BinaryOperator, Control, ControlParts, ExprNode, Literal, Nodes, StmtNode};
use std::alloc::Global;

/// Puts a number, a truth value and their sum.
fn put_sum(nodes: &mut Nodes) -> Result<(), OutOfMemory>
    ensures { IfOk result (λ _. length nodes.new.stmts ≡ length nodes.old.stmts) }
{
    let number = Literal {
        width: None,
        value: 1,
    };
    let one = nodes.expression(ExprNode::Number(number))?;
    let truth = nodes.expression(ExprNode::Truth(true))?;
    let _sum = nodes.expression(ExprNode::Binary(BinaryOperator::Add, one, truth))?;
    Ok(())
}

/// Puts a block of one statement, and gives its place.
fn put_block(alloc: Global, nodes: &mut Nodes) -> Result<usize, OutOfMemory>
    ensures { IfOk result (λ place. suc place ≡ length nodes.new.stmts) }
{
    let nothing = nodes.statement(StmtNode::NoStatements)?;
    let apply = nodes.statement(StmtNode::Apply(Text::new(alloc)))?;
    nodes.statement(StmtNode::Then(nothing, apply))
}

/// The control `ingress` of such nodes.
fn control(alloc: Global) -> Result<Control, OutOfMemory> {
    let name = Text::from_slice(alloc, b"ingress")?;
    let mut nodes = Nodes::new(alloc);
    put_sum(&mut nodes)?;
    let body = put_block(alloc, &mut nodes)?;
    Ok(Control::new(name, nodes, body))
}

/// Whether these are the nodes of a sum and of a block of one statement.
fn are_sum_and_block(nodes: &Nodes) -> bool {
    nodes.exprs_len() == 3
        && nodes.statements_len() == 3
        && matches!(
            nodes.expr_node(2),
            ExprNode::Binary(BinaryOperator::Add, 0, 1)
        )
        && matches!(nodes.statement_node(2), StmtNode::Then(0, 1))
}

/// Whether these are the parts of that control.
fn are_parts(parts: ControlParts<'_>) -> bool {
    parts.name.as_slice() == b"ingress".as_slice()
        && parts.body == 2
        && are_sum_and_block(parts.nodes)
}

/// Whether a control gives back what was put, and new nodes are none.
pub fn nodes_give_back(alloc: Global) -> bool {
    let none = Nodes::new(alloc);
    let is_empty = none.exprs_len() == 0 && none.statements_len() == 0;
    match &control(alloc) {
        Ok(control) => is_empty && are_parts(control.parts()),
        Err(_) => false,
    }
}
