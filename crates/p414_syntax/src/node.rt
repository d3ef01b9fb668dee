// The nodes that expressions and statements are kept in. A child is named by its place in the list.
use crate::lexeme::Literal;
use crate::parts::{Inst, Ref};
use p4x_bits::Text;

/// An operator in front of an operand.
#[derive(Clone, Copy, PartialEq, Eq, Drop)]
pub enum UnaryOperator {
    /// `-`.
    Negate,
    /// `~`.
    Complement,
    /// `not`.
    Not,
}

/// An operator between two operands.
#[derive(Clone, Copy, PartialEq, Eq, Drop)]
pub enum BinaryOperator {
    /// `*`.
    Multiply,
    /// `+`.
    Add,
    /// `-`.
    Subtract,
    /// `<<`.
    ShiftLeft,
    /// `>>`.
    ShiftRight,
    /// `&`.
    BitAnd,
    /// `^`.
    BitXor,
    /// `|`.
    BitOr,
    /// `<`.
    Less,
    /// `<=`.
    LessEqual,
    /// `>`.
    Greater,
    /// `>=`.
    GreaterEqual,
    /// `==`.
    Equal,
    /// `!=`.
    NotEqual,
    /// `and`.
    And,
    /// `or`.
    Or,
}

/// A node of an expression. Each place is that of an earlier expression.
pub enum ExprNode {
    /// `valid(INSTANCE)`.
    Valid(Inst),
    /// `true` or `false`.
    Truth(bool),
    /// A field.
    Field(Ref),
    /// A number.
    Number(Literal),
    /// An expression in parentheses.
    Parenthesized(usize),
    /// An operator and its operand.
    Unary(UnaryOperator, usize),
    /// An operator with its left and its right operand.
    Binary(BinaryOperator, usize, usize),
}

impl Drop for ExprNode {
    fn drop(self) {
        match self {
            ExprNode::Valid(_a) => {}
            ExprNode::Truth(_a) => {}
            ExprNode::Field(_a) => {}
            ExprNode::Number(_a) => {}
            ExprNode::Parenthesized(_a) => {}
            ExprNode::Unary(_a, _b) => {}
            ExprNode::Binary(_a, _b, _c) => {}
        }
    }
}

/// The label of a branch behind `apply`.
pub enum Label {
    /// `hit`.
    Hit,
    /// `miss`.
    Miss,
    /// `default`.
    Default,
    /// The name of an action.
    Action(Text),
}

impl Drop for Label {
    fn drop(self) {
        match self {
            Label::Hit => {}
            Label::Miss => {}
            Label::Default => {}
            Label::Action(_a) => {}
        }
    }
}

/// A node of a statement, of a list of statements, of what stands behind an `if` block, and of a list of branches.
/// Each place is that of an earlier expression or statement node.
pub enum StmtNode {
    /// The list without statements.
    NoStatements,
    /// A list of statements, and one more statement at its end.
    Then(usize, usize),
    /// `apply(TABLE);`.
    Apply(Text),
    /// `apply(TABLE) { BRANCH .. }` with the list of the branches.
    ApplyBranches(Text, usize),
    /// `if (CONDITION) { STATEMENT .. }` with the list of statements and what stands behind the block.
    If(usize, usize, usize),
    /// `NAME();`: a call of a control.
    Call(Text),
    /// Nothing behind an `if` block.
    NoElse,
    /// `else { STATEMENT .. }`.
    ElseBlock(usize),
    /// `else` and an `if` statement.
    ElseIf(usize),
    /// The list without branches.
    NoBranches,
    /// A list of branches, and one more at its end: `LABEL { STATEMENT .. }`.
    Branch(usize, Label, usize),
}

impl Drop for StmtNode {
    fn drop(self) {
        match self {
            StmtNode::NoStatements => {}
            StmtNode::Then(_a, _b) => {}
            StmtNode::Apply(_a) => {}
            StmtNode::ApplyBranches(_a, _b) => {}
            StmtNode::If(_a, _b, _c) => {}
            StmtNode::Call(_a) => {}
            StmtNode::NoElse => {}
            StmtNode::ElseBlock(_a) => {}
            StmtNode::ElseIf(_a) => {}
            StmtNode::NoBranches => {}
            StmtNode::Branch(_a, _b, _c) => {}
        }
    }
}
