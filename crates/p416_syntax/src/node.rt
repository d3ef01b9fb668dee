// The nodes that expressions and statements are kept in. A child is named by its place in the list.
use crate::lexeme::Literal16;
use crate::parts::Type16;
use p4x_bits::Text;

/// An operator in front of an operand (P4_16 1.2, "Expressions").
#[derive(Clone, Copy, PartialEq, Eq, Drop)]
pub enum UnaryOperator {
    /// `!`.
    Not,
    /// `~`.
    Complement,
    /// `-`.
    Negate,
}

/// An operator between two operands (P4_16 1.2, "Expressions").
#[derive(Clone, Copy, PartialEq, Eq, Drop)]
pub enum BinaryOperator {
    /// `*`.
    Multiply,
    /// `+`.
    Add,
    /// `-`.
    Subtract,
    /// `|+|`.
    SaturatingAdd,
    /// `|-|`.
    SaturatingSubtract,
    /// `++`.
    Concatenate,
    /// `<<`.
    ShiftLeft,
    /// `>>`.
    ShiftRight,
    /// `&`.
    BitAnd,
    /// `^`.
    BitXor,
    /// `|`.
    BitOr,
    /// `<`.
    Less,
    /// `<=`.
    LessEqual,
    /// `>`.
    Greater,
    /// `>=`.
    GreaterEqual,
    /// `==`.
    Equal,
    /// `!=`.
    NotEqual,
    /// `&&`.
    And,
    /// `||`.
    Or,
}

/// What a cast makes (P4_16 1.2, "Casts").
#[derive(Clone, Copy, Drop)]
pub enum CastType {
    /// `bit<WIDTH>`, with its width in bits.
    Bit(Literal16),
    /// `bool`.
    Bool,
}

/// A node of an expression, and of an argument list. Each place is that of an earlier expression.
pub enum ExpNode {
    /// A number.
    Literal(Literal16),
    /// `true` or `false`.
    Truth(bool),
    /// `error`.
    Error,
    /// A name.
    Name(Text),
    /// A member by its word, as `e.word`.
    Member(usize, Text),
    /// An element: `e[NUMBER]`.
    Index(usize, Literal16),
    /// A slice: `e[NUMBER:NUMBER]`.
    Slice(usize, Literal16, Literal16),
    /// A call: what is called, and the argument list.
    Call(usize, usize),
    /// `e.lookahead<TYPE>(..)`, with the argument list.
    Lookahead(usize, Type16, usize),
    /// A cast, as `(bit<8>) e`.
    Cast(CastType, usize),
    /// An operator and its operand.
    Unary(UnaryOperator, usize),
    /// An operator with its left and its right operand.
    Binary(BinaryOperator, usize, usize),
    /// `c ? a : b`: the condition, the value where it holds, and the one where it doesn't.
    Choice(usize, usize, usize),
    /// The argument list without arguments.
    NoArguments,
    /// An argument list, and one more argument at its end.
    Argument(usize, usize),
    /// `{ .. }`: a list as an argument. Its items are an argument list.
    Listed(usize),
}

impl Drop for ExpNode {
    fn drop(self) {
        match self {
            ExpNode::Literal(_a) => {}
            ExpNode::Truth(_a) => {}
            ExpNode::Error => {}
            ExpNode::Name(_a) => {}
            ExpNode::Member(_a, _b) => {}
            ExpNode::Index(_a, _b) => {}
            ExpNode::Slice(_a, _b, _c) => {}
            ExpNode::Call(_a, _b) => {}
            ExpNode::Lookahead(_a, _b, _c) => {}
            ExpNode::Cast(_a, _b) => {}
            ExpNode::Unary(_a, _b) => {}
            ExpNode::Binary(_a, _b, _c) => {}
            ExpNode::Choice(_a, _b, _c) => {}
            ExpNode::NoArguments => {}
            ExpNode::Argument(_a, _b) => {}
            ExpNode::Listed(_a) => {}
        }
    }
}

/// The label of a case of a `switch` statement.
pub enum CaseLabel {
    /// `default`.
    Default,
    /// The name of an action.
    Action(Text),
}

impl Drop for CaseLabel {
    fn drop(self) {
        match self {
            CaseLabel::Default => {}
            CaseLabel::Action(_a) => {}
        }
    }
}

/// A node of a statement, of a list of statements, and of a list of cases. Each place is that of an earlier expression
/// or statement node.
pub enum StmtNode {
    /// The list without statements.
    NoStatements,
    /// A list of statements, and one more statement at its end.
    Then(usize, usize),
    /// A block: `{ .. }`, with the list of its statements.
    Block(usize),
    /// `;`.
    Empty,
    /// A variable without an initial value: `TYPE NAME;`.
    Var(Type16, Text),
    /// A variable with its initial value: `TYPE NAME = VALUE;`.
    VarIs(Type16, Text, usize),
    /// An assignment: the expression written to, and its value.
    Assign(usize, usize),
    /// A call as a statement.
    Expression(usize),
    /// `if` without `else`: the condition, and the statement where it holds.
    If(usize, usize),
    /// `if` with `else`: the condition, the statement where it holds, and the one where it doesn't.
    IfElse(usize, usize, usize),
    /// `switch (TABLE.apply().action_run) { .. }`, with the list of the cases.
    Switch(Text, usize),
    /// The list without cases.
    NoCases,
    /// A list of cases, and one more at its end: `LABEL : { .. }`, with the list of its statements.
    Case(usize, CaseLabel, usize),
}

impl Drop for StmtNode {
    fn drop(self) {
        match self {
            StmtNode::NoStatements => {}
            StmtNode::Then(_a, _b) => {}
            StmtNode::Block(_a) => {}
            StmtNode::Empty => {}
            StmtNode::Var(_a, _b) => {}
            StmtNode::VarIs(_a, _b, _c) => {}
            StmtNode::Assign(_a, _b) => {}
            StmtNode::Expression(_a) => {}
            StmtNode::If(_a, _b) => {}
            StmtNode::IfElse(_a, _b, _c) => {}
            StmtNode::Switch(_a, _b) => {}
            StmtNode::NoCases => {}
            StmtNode::Case(_a, _b, _c) => {}
        }
    }
}
