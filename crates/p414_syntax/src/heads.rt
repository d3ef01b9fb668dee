// Expressions and statements that are looked at where they lie, and their outermost constructor with views of its parts.
ghost use Rattle.std.specs.Prelude.{◌≡◌, ◌<◌, length};
ghost use Rattle.p414_syntax.specs.Tree.{expr_at, stmt_at};
ghost use Rattle.p414_syntax.specs.Heads.{of_expr_head, of_head};
ghost use Rattle.p414_syntax.specs.Subtrees.{condition_of};

use crate::lexeme::Literal;
use crate::node::{BinaryOperator, ExprNode, Label, StmtNode, UnaryOperator};
use crate::nodes::Nodes;
use crate::parts::{Inst, Ref};
use p4x_bits::Text;
use std::marker::Model;

/// An expression, borrowed. Contracts see its tree.
#[derive(Drop)]
pub struct ExprView<'a> {
    nodes: &'a Nodes,
    place: usize,
}

impl<'a> Model for ExprView<'a> {
    ghost use Rattle.p414_syntax.specs.Tree.{Expr};
    ghost use Rattle.p414_syntax.specs.Code.{coded_expr};

    ghost Value = { Expr };

    ghost coded = { coded_expr };

    ghost use Rattle.std.specs.Prelude.{◌<◌, length};
    ghost use Rattle.p414_syntax.specs.Tree.{expr_at};

    ghost view = { λ s. expr_at s.nodes.now.exprs s.place };

    ghost invariant = { λ s. s.place < length s.nodes.now.exprs };
}

/// A statement, a list of statements, what stands behind an `if` block, or a list of branches, borrowed. Contracts see
/// its tree.
#[derive(Drop)]
pub struct StmtView<'a> {
    nodes: &'a Nodes,
    place: usize,
}

impl<'a> Model for StmtView<'a> {
    ghost use Rattle.p414_syntax.specs.Tree.{Stmt};
    ghost use Rattle.p414_syntax.specs.Code.{coded_stmt};

    ghost Value = { Stmt };

    ghost coded = { coded_stmt };

    ghost use Rattle.std.specs.Prelude.{◌<◌, length};
    ghost use Rattle.p414_syntax.specs.Tree.{stmt_at};

    ghost view = { λ s. stmt_at s.nodes.now.stmts s.place };

    ghost invariant = { λ s. s.place < length s.nodes.now.stmts };
}

/// The outermost constructor of an expression with its parts.
#[derive(Drop)]
pub enum ExprHead<'a> {
    /// `valid(INSTANCE)`.
    Valid(&'a Inst),
    /// `true` or `false`.
    Truth(bool),
    /// A field.
    Field(&'a Ref),
    /// A number.
    Number(&'a Literal),
    /// An expression in parentheses.
    Parenthesized(ExprView<'a>),
    /// An operator and its operand.
    Unary(UnaryOperator, ExprView<'a>),
    /// An operator with its left and its right operand.
    Binary(BinaryOperator, ExprView<'a>, ExprView<'a>),
}

/// The outermost constructor of a statement with its parts.
#[derive(Drop)]
pub enum StmtHead<'a> {
    /// The list without statements.
    NoStatements,
    /// A list of statements, and one more statement at its end.
    Then(StmtView<'a>, StmtView<'a>),
    /// `apply(TABLE);`.
    Apply(&'a Text),
    /// `apply(TABLE) { BRANCH .. }` with the list of the branches.
    ApplyBranches(&'a Text, StmtView<'a>),
    /// `if (CONDITION) { STATEMENT .. }` with the list of statements and what stands behind the block.
    If(ExprView<'a>, StmtView<'a>, StmtView<'a>),
    /// `NAME();`: a call of a control.
    Call(&'a Text),
    /// Nothing behind an `if` block.
    NoElse,
    /// `else { STATEMENT .. }`.
    ElseBlock(StmtView<'a>),
    /// `else` and an `if` statement.
    ElseIf(StmtView<'a>),
    /// The list without branches.
    NoBranches,
    /// A list of branches, and one more at its end: `LABEL { STATEMENT .. }`.
    Branch(StmtView<'a>, &'a Label, StmtView<'a>),
}

/// The expression at a place.
pub(crate) fn expr_view(nodes: &Nodes, place: usize) -> ExprView<'_>
    requires { place < length nodes.now.exprs }
    ensures { result ≡ expr_at nodes.now.exprs place }
{
    ExprView { nodes, place }
}

/// The statement at a place.
pub(crate) fn stmt_view(nodes: &Nodes, place: usize) -> StmtView<'_>
    requires { place < length nodes.now.stmts }
    ensures { result ≡ stmt_at nodes.now.stmts place }
{
    StmtView { nodes, place }
}

/// The outermost constructor of the expression at a place.
fn expr_head_at(nodes: &Nodes, place: usize) -> ExprHead<'_>
    requires { place < length nodes.now.exprs }
    ensures { expr_at nodes.now.exprs place ≡ of_expr_head result }
{
    match nodes.expr_node(place) {
        ExprNode::Valid(instance) => ExprHead::Valid(instance),
        ExprNode::Truth(value) => ExprHead::Truth(*value),
        ExprNode::Field(field) => ExprHead::Field(field),
        ExprNode::Number(literal) => ExprHead::Number(literal),
        ExprNode::Parenthesized(a) => ExprHead::Parenthesized(expr_view(nodes, *a)),
        ExprNode::Unary(operator, a) => ExprHead::Unary(*operator, expr_view(nodes, *a)),
        ExprNode::Binary(operator, a, b) => {
            ExprHead::Binary(*operator, expr_view(nodes, *a), expr_view(nodes, *b))
        }
    }
}

/// The outermost constructor of the statement at a place.
fn head_at(nodes: &Nodes, place: usize) -> StmtHead<'_>
    requires { place < length nodes.now.stmts }
    ensures { stmt_at nodes.now.stmts place ≡ of_head result }
{
    match nodes.statement_node(place) {
        StmtNode::NoStatements => StmtHead::NoStatements,
        StmtNode::Then(a, b) => StmtHead::Then(stmt_view(nodes, *a), stmt_view(nodes, *b)),
        StmtNode::Apply(table) => StmtHead::Apply(table),
        StmtNode::ApplyBranches(table, a) => StmtHead::ApplyBranches(table, stmt_view(nodes, *a)),
        StmtNode::If(c, a, b) => StmtHead::If(
            expr_view(nodes, *c),
            stmt_view(nodes, *a),
            stmt_view(nodes, *b),
        ),
        StmtNode::Call(control) => StmtHead::Call(control),
        StmtNode::NoElse => StmtHead::NoElse,
        StmtNode::ElseBlock(a) => StmtHead::ElseBlock(stmt_view(nodes, *a)),
        StmtNode::ElseIf(a) => StmtHead::ElseIf(stmt_view(nodes, *a)),
        StmtNode::NoBranches => StmtHead::NoBranches,
        StmtNode::Branch(a, label, b) => {
            StmtHead::Branch(stmt_view(nodes, *a), label, stmt_view(nodes, *b))
        }
    }
}

impl<'a> ExprView<'a> {
    /// The outermost constructor with its parts. It takes no memory and the same time for each expression.
    pub fn head(&self) -> ExprHead<'a>
        ensures { self.now ≡ of_expr_head result }
    {
        expr_head_at(self.nodes, self.place)
    }

    /// The same expression once more. It takes no memory.
    pub fn again(&self) -> ExprView<'a>
        ensures { result ≡ self.now }
    {
        expr_view(self.nodes, self.place)
    }
}

impl<'a> StmtView<'a> {
    /// The outermost constructor with its parts. It takes no memory and the same time for each statement.
    pub fn head(&self) -> StmtHead<'a>
        ensures { self.now ≡ of_head result }
    {
        head_at(self.nodes, self.place)
    }

    /// The condition of an `if` statement.
    pub fn condition(&self) -> Option<ExprView<'a>>
        ensures { result ≡ condition_of self.now }
    {
        match self.head() {
            StmtHead::If(condition, _, _) => Some(condition),
            _ => None,
        }
    }

    /// The same statement once more. It takes no memory.
    pub fn again(&self) -> StmtView<'a>
        ensures { result ≡ self.now }
    {
        stmt_view(self.nodes, self.place)
    }
}
