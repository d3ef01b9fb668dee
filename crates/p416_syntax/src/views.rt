// Expressions and statements that are looked at where they lie, and their outermost constructor with views of its parts.
ghost use Rattle.std.specs.Prelude.{◌≡◌, ◌<◌, length};
ghost use Rattle.p416_syntax.specs.Tree.{exp_at, stmt_at};
ghost use Rattle.p416_syntax.specs.Heads.{of_exp_head, of_head};

use crate::lexeme::Literal16;
use crate::node::{BinaryOperator, CaseLabel, CastType, ExpNode, StmtNode, UnaryOperator};
use crate::nodes::Nodes;
use crate::parts::Type16;
use p4x_bits::Text;
use std::marker::Model;

/// An expression, or an argument list, borrowed. Contracts see its tree.
#[derive(Drop)]
pub struct ExpView<'a> {
    nodes: &'a Nodes,
    place: usize,
}

impl<'a> Model for ExpView<'a> {
    ghost use Rattle.p416_syntax.specs.Tree.{Exp16};
    ghost use Rattle.p416_syntax.specs.Code.{coded_exp};

    ghost Value = { Exp16 };

    ghost coded = { coded_exp };

    ghost use Rattle.std.specs.Prelude.{◌<◌, length};
    ghost use Rattle.p416_syntax.specs.Tree.{exp_at};

    ghost view = { λ s. exp_at s.nodes.now.exps s.place };

    ghost invariant = { λ s. s.place < length s.nodes.now.exps };
}

/// A statement, a list of statements, or a list of cases, borrowed. Contracts see its tree.
#[derive(Drop)]
pub struct StmtView<'a> {
    nodes: &'a Nodes,
    place: usize,
}

impl<'a> Model for StmtView<'a> {
    ghost use Rattle.p416_syntax.specs.Tree.{Stmt16};
    ghost use Rattle.p416_syntax.specs.Code.{coded_stmt};

    ghost Value = { Stmt16 };

    ghost coded = { coded_stmt };

    ghost use Rattle.std.specs.Prelude.{◌<◌, length};
    ghost use Rattle.p416_syntax.specs.Tree.{stmt_at};

    ghost view = { λ s. stmt_at s.nodes.now.stmts s.place };

    ghost invariant = { λ s. s.place < length s.nodes.now.stmts };
}

/// The outermost constructor of an expression or an argument list with its parts.
#[derive(Drop)]
pub enum ExpHead<'a> {
    /// A number.
    Literal(Literal16),
    /// `true` or `false`.
    Truth(bool),
    /// `error`.
    Error,
    /// A name.
    Name(&'a Text),
    /// A member by its word, as `e.word`.
    Member(ExpView<'a>, &'a Text),
    /// An element: `e[NUMBER]`.
    Index(ExpView<'a>, Literal16),
    /// A slice: `e[NUMBER:NUMBER]`.
    Slice(ExpView<'a>, Literal16, Literal16),
    /// A call: what is called, and the argument list.
    Call(ExpView<'a>, ExpView<'a>),
    /// `e.lookahead<TYPE>(..)`, with the argument list.
    Lookahead(ExpView<'a>, &'a Type16, ExpView<'a>),
    /// A cast, as `(bit<8>) e`.
    Cast(CastType, ExpView<'a>),
    /// An operator and its operand.
    Unary(UnaryOperator, ExpView<'a>),
    /// An operator with its left and its right operand.
    Binary(BinaryOperator, ExpView<'a>, ExpView<'a>),
    /// `c ? a : b`: the condition, the value where it holds, and the one where it doesn't.
    Choice(ExpView<'a>, ExpView<'a>, ExpView<'a>),
    /// The argument list without arguments.
    NoArguments,
    /// An argument list, and one more argument at its end.
    Argument(ExpView<'a>, ExpView<'a>),
    /// `{ .. }`: a list as an argument. Its items are an argument list.
    Listed(ExpView<'a>),
}

/// The outermost constructor of a statement, a list of statements or a list of cases with its parts.
#[derive(Drop)]
pub enum StmtHead<'a> {
    /// The list without statements.
    NoStatements,
    /// A list of statements, and one more statement at its end.
    Then(StmtView<'a>, StmtView<'a>),
    /// A block: `{ .. }`, with the list of its statements.
    Block(StmtView<'a>),
    /// `;`.
    Empty,
    /// A variable without an initial value: `TYPE NAME;`.
    Var(&'a Type16, &'a Text),
    /// A variable with its initial value: `TYPE NAME = VALUE;`.
    VarIs(&'a Type16, &'a Text, ExpView<'a>),
    /// An assignment: the expression written to, and its value.
    Assign(ExpView<'a>, ExpView<'a>),
    /// A call as a statement.
    Expression(ExpView<'a>),
    /// `if` without `else`: the condition, and the statement where it holds.
    If(ExpView<'a>, StmtView<'a>),
    /// `if` with `else`: the condition, the statement where it holds, and the one where it doesn't.
    IfElse(ExpView<'a>, StmtView<'a>, StmtView<'a>),
    /// `switch (TABLE.apply().action_run) { .. }`, with the list of the cases.
    Switch(&'a Text, StmtView<'a>),
    /// The list without cases.
    NoCases,
    /// A list of cases, and one more at its end: `LABEL : { .. }`, with the list of its statements.
    Case(StmtView<'a>, &'a CaseLabel, StmtView<'a>),
}

/// The expression at a place.
pub(crate) fn exp_view(nodes: &Nodes, place: usize) -> ExpView<'_>
    requires { place < length nodes.now.exps }
    ensures { result ≡ exp_at nodes.now.exps place }
{
    ExpView { nodes, place }
}

/// The statement at a place.
pub(crate) fn stmt_view(nodes: &Nodes, place: usize) -> StmtView<'_>
    requires { place < length nodes.now.stmts }
    ensures { result ≡ stmt_at nodes.now.stmts place }
{
    StmtView { nodes, place }
}

/// The outermost constructor of the expression at a place.
fn exp_head_at(nodes: &Nodes, place: usize) -> ExpHead<'_>
    requires { place < length nodes.now.exps }
    ensures { exp_at nodes.now.exps place ≡ of_exp_head result }
{
    match nodes.exp_node(place) {
        ExpNode::Literal(number) => ExpHead::Literal(*number),
        ExpNode::Truth(value) => ExpHead::Truth(*value),
        ExpNode::Error => ExpHead::Error,
        ExpNode::Name(text) => ExpHead::Name(text),
        ExpNode::Member(a, word) => ExpHead::Member(exp_view(nodes, *a), word),
        ExpNode::Index(a, at) => ExpHead::Index(exp_view(nodes, *a), *at),
        ExpNode::Slice(a, high, low) => ExpHead::Slice(exp_view(nodes, *a), *high, *low),
        ExpNode::Call(a, b) => ExpHead::Call(exp_view(nodes, *a), exp_view(nodes, *b)),
        ExpNode::Lookahead(a, of, b) => {
            ExpHead::Lookahead(exp_view(nodes, *a), of, exp_view(nodes, *b))
        }
        ExpNode::Cast(to, a) => ExpHead::Cast(*to, exp_view(nodes, *a)),
        ExpNode::Unary(operator, a) => ExpHead::Unary(*operator, exp_view(nodes, *a)),
        ExpNode::Binary(operator, a, b) => {
            ExpHead::Binary(*operator, exp_view(nodes, *a), exp_view(nodes, *b))
        }
        ExpNode::Choice(a, b, c) => ExpHead::Choice(
            exp_view(nodes, *a),
            exp_view(nodes, *b),
            exp_view(nodes, *c),
        ),
        ExpNode::NoArguments => ExpHead::NoArguments,
        ExpNode::Argument(a, b) => ExpHead::Argument(exp_view(nodes, *a), exp_view(nodes, *b)),
        ExpNode::Listed(a) => ExpHead::Listed(exp_view(nodes, *a)),
    }
}

/// The outermost constructor of the statement at a place.
fn head_at(nodes: &Nodes, place: usize) -> StmtHead<'_>
    requires { place < length nodes.now.stmts }
    ensures { stmt_at nodes.now.stmts place ≡ of_head result }
{
    match nodes.statement_node(place) {
        StmtNode::NoStatements => StmtHead::NoStatements,
        StmtNode::Then(a, b) => StmtHead::Then(stmt_view(nodes, *a), stmt_view(nodes, *b)),
        StmtNode::Block(a) => StmtHead::Block(stmt_view(nodes, *a)),
        StmtNode::Empty => StmtHead::Empty,
        StmtNode::Var(of, name) => StmtHead::Var(of, name),
        StmtNode::VarIs(of, name, e) => StmtHead::VarIs(of, name, exp_view(nodes, *e)),
        StmtNode::Assign(e, f) => StmtHead::Assign(exp_view(nodes, *e), exp_view(nodes, *f)),
        StmtNode::Expression(e) => StmtHead::Expression(exp_view(nodes, *e)),
        StmtNode::If(e, a) => StmtHead::If(exp_view(nodes, *e), stmt_view(nodes, *a)),
        StmtNode::IfElse(e, a, b) => StmtHead::IfElse(
            exp_view(nodes, *e),
            stmt_view(nodes, *a),
            stmt_view(nodes, *b),
        ),
        StmtNode::Switch(table, a) => StmtHead::Switch(table, stmt_view(nodes, *a)),
        StmtNode::NoCases => StmtHead::NoCases,
        StmtNode::Case(a, label, b) => {
            StmtHead::Case(stmt_view(nodes, *a), label, stmt_view(nodes, *b))
        }
    }
}

impl<'a> ExpView<'a> {
    /// The outermost constructor with its parts. It takes no memory and the same time for each expression.
    pub fn head(&self) -> ExpHead<'a>
        ensures { self.now ≡ of_exp_head result }
    {
        exp_head_at(self.nodes, self.place)
    }

    /// The same expression once more. It takes no memory.
    pub fn again(&self) -> ExpView<'a>
        ensures { result ≡ self.now }
    {
        exp_view(self.nodes, self.place)
    }
}

impl<'a> StmtView<'a> {
    /// The outermost constructor with its parts. It takes no memory and the same time for each statement.
    pub fn head(&self) -> StmtHead<'a>
        ensures { self.now ≡ of_head result }
    {
        head_at(self.nodes, self.place)
    }

    /// The same statement once more. It takes no memory.
    pub fn again(&self) -> StmtView<'a>
        ensures { result ≡ self.now }
    {
        stmt_view(self.nodes, self.place)
    }
}
