// The nodes of ready statements. What a node is made of is named by the places of earlier nodes, but for expressions, which
// stand in a list of their own.
use crate::externs::Extern;
use crate::places::{Range, RangePlace, Slice, SlotPlace, Target};
use p416_syntax::{BinaryOperator, UnaryOperator};

/// An operator on one value.
#[derive(Clone, Copy, Drop)]
pub enum Single {
    /// A slice: from which place on, and how many bits.
    Slice(u8, u8),
    /// A cast to so many bits.
    ToBits(u8),
    /// A cast to a truth value.
    ToTruth,
    /// An operator.
    Operator(UnaryOperator),
}

/// A node of an expression that may apply tables.
#[derive(Clone, Copy, Drop)]
pub enum TestNode {
    /// An expression that applies none, by its place among the expressions.
    Plain(usize),
    /// Whether a table, when it is applied, is hit.
    Hits(u32),
    /// Whether a table, when it is applied, is missed.
    Misses(u32),
    /// An operator and its operand.
    Alone(Single, usize),
    /// `&&` with its left and its right operand.
    Both(usize, usize),
    /// `||` with its left and its right operand.
    Either(usize, usize),
    /// Another operator with its left and its right operand.
    Pair(BinaryOperator, usize, usize),
    /// The condition, the value where it holds, and the one where it doesn't.
    Choice(usize, usize, usize),
}

/// A node of a header, a stack or a struct that is read whole.
#[derive(Clone, Copy, Drop)]
pub enum SourceNode {
    /// The parts.
    Parts(RangePlace),
    /// The condition, what is read where it holds, and where it doesn't.
    Chosen(usize, usize, usize),
}

/// A node of the arguments of an extern.
#[derive(Clone, Copy, Drop)]
pub enum ArgumentNode {
    /// None.
    Nothing,
    /// A value, and the arguments behind it.
    Value(usize, usize),
    /// An item of a list in braces, and the arguments behind it.
    Item(usize, usize),
}

/// A node of what the parameters of an action start with.
#[derive(Clone, Copy, Drop)]
pub enum IncomingNode {
    /// No parameters.
    Nothing,
    /// The slot of a parameter, its value, and the parameters behind it.
    Value(u32, usize, usize),
    /// The parts of a parameter, what they are read from, and the parameters behind it.
    Parts(Range, usize, usize),
    /// The parts of a parameter that start at 0, and the parameters behind it.
    Zero(Range, usize),
}

/// A node of the parameters of an action that go back to their arguments.
#[derive(Clone, Copy, Drop)]
pub enum OutgoingNode {
    /// None.
    Nothing,
    /// The slot of a parameter, where it goes, and the parameters behind it.
    Value(u32, Target, usize),
    /// The parts of a parameter, where they go, and the parameters behind it.
    Parts(Range, Range, usize),
}

/// A node of a statement.
#[derive(Clone, Copy, Drop)]
pub enum StatementNode {
    /// No statement.
    Nothing,
    /// Statements, and those behind them.
    Sequence(usize, usize),
    /// A variable without an initial value.
    Start(Range),
    /// An assignment of a single value to a slot, or to a slice of it.
    Assign(SlotPlace, Option<Slice>, usize),
    /// An assignment of a header, a stack or a struct.
    AssignParts(RangePlace, usize),
    /// `setValid` or `setInvalid` of a header.
    SetValid(RangePlace, bool),
    /// `push_front` of a stack by so many elements.
    PushFront(Range, u32),
    /// `pop_front` of a stack by so many elements.
    PopFront(Range, u32),
    /// `extract` of a header.
    Extract(RangePlace),
    /// `emit` of a header or a stack.
    Emit(usize),
    /// An extern with its arguments.
    Execute(Extern, usize),
    /// An application of a table.
    Apply(u32),
    /// A call whose value is let go.
    LetGo(usize),
    /// A call of an action: whether its arguments wait apart from the frame, what its parameters start with, and which of them
    /// go back.
    Call(u32, bool, usize, usize),
    /// The condition, the statements where it holds, and those where it doesn't.
    Branch(usize, usize, usize),
    /// `switch` over the action that a table runs, with its cases.
    Switch(u32, usize),
    /// The case of an action, and the cases behind it.
    Labelled(u32, usize, usize),
    /// The case of `default`.
    Otherwise(usize),
}

/// A node.
#[derive(Clone, Copy, Drop)]
pub enum Node {
    /// Of an expression that may apply tables.
    Test(TestNode),
    /// Of what is read whole.
    Source(SourceNode),
    /// Of arguments of an extern.
    Argument(ArgumentNode),
    /// Of what parameters start with.
    Incoming(IncomingNode),
    /// Of parameters that go back.
    Outgoing(OutgoingNode),
    /// Of a statement.
    Statement(StatementNode),
}
