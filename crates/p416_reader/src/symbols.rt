// What the rows of the grammar are made of: classes of tokens, actions and words.
use p416_syntax::{
    Annotation16, BinaryOperator, Direction, Include16, Keyword16, Mark16, Member, UnaryOperator,
};

/// A name that the grammar quotes and that isn't reserved.
#[derive(Clone, Copy, Drop)]
pub enum Known {
    /// `HashAlgorithm`.
    HashAlgorithm,
    /// `CounterType`.
    CounterType,
    /// `MeterType`.
    MeterType,
    /// `CloneType`.
    CloneType,
    /// `csum16`.
    Csum16,
    /// `crc16`.
    Crc16,
    /// `crc32`.
    Crc32,
    /// `identity`.
    Identity,
    /// `packets`.
    Packets,
    /// `bytes`.
    Bytes,
    /// `packets_and_bytes`.
    PacketsAndBytes,
    /// `I2E`.
    I2E,
    /// `E2E`.
    E2E,
    /// `lookahead`.
    Lookahead,
}

/// A class of tokens.
#[derive(Clone, Copy, Drop)]
pub enum Class {
    /// This mark.
    Mark(Mark16),
    /// This reserved word.
    Word(Keyword16),
    /// This name.
    Known(Known),
    /// Any name. It is kept.
    Name,
    /// Any name or reserved word. It is kept.
    AnyWord,
    /// Any number. It is kept.
    Number,
    /// Any string. What stands in it is kept.
    String,
    /// This annotation.
    At(Annotation16),
    /// `@name`, where it doesn't stand in the list of annotations yet.
    NewNameNote,
    /// This include line.
    Include(Include16),
    /// The `<` of `.lookahead<TYPE>(`.
    Opens,
    /// The word of a property that the table hasn't yet.
    NewProperty(Keyword16),
    /// `;`, where the newest expression is a call.
    CallEnd,
    /// Any name, where the newest expression could be a type. It is kept.
    VarName,
    /// `else`, where the newest statement doesn't end in an `if` without `else`.
    Else,
    /// An operator between operands that binds at least as tightly as the first number and at most as the second.
    Infix(u8, u8),
    /// `?`, where it binds at least as tightly as the first number and less tightly than the second.
    Question(u8, u8),
}

/// What is done with annotations, types, parameters and members.
#[derive(Clone, Copy, Drop)]
pub enum PartAction {
    /// See `put` of its group.
    TypeNamed,
    /// See `put` of its group.
    TypeBit,
    /// See `put` of its group.
    TypeBool,
    /// See `put` of its group.
    SomeLiteral,
    /// See `put` of its group.
    NoLiteral,
    /// See `put` of its group.
    NoNotes,
    /// See `put` of its group.
    AddNameNote,
    /// See `put` of its group.
    NoNumbers,
    /// See `put` of its group.
    AddNumber,
    /// See `put` of its group.
    AddListNote,
    /// See `put` of its group.
    AddParam(Option<Direction>),
    /// See `put` of its group.
    Member(Member),
    /// See `put` of its group.
    NoParams,
}

/// What is done with expressions and statements.
#[derive(Clone, Copy, Drop)]
pub enum BodyAction {
    /// See `put` of its group.
    Number,
    /// See `put` of its group.
    Truth(bool),
    /// See `put` of its group.
    Error,
    /// See `put` of its group.
    Name,
    /// See `put` of its group.
    Unary(UnaryOperator),
    /// See `put` of its group.
    CastBit,
    /// See `put` of its group.
    CastBool,
    /// See `put` of its group.
    NoArguments,
    /// See `put` of its group.
    Call,
    /// See `put` of its group.
    Member,
    /// See `put` of its group.
    Lookahead,
    /// See `put` of its group.
    MemberLookahead,
    /// See `put` of its group.
    Index,
    /// See `put` of its group.
    Slice,
    /// See `put` of its group.
    Listed,
    /// See `put` of its group.
    AddArgument,
    /// See `put` of its group.
    NoStatements,
    /// See `put` of its group.
    Block,
    /// See `put` of its group.
    Empty,
    /// See `put` of its group.
    NoCases,
    /// See `put` of its group.
    Switch,
    /// See `put` of its group.
    Then,
    /// See `put` of its group.
    Assign,
    /// See `put` of its group.
    Expression,
    /// See `put` of its group.
    TypeOfExp,
    /// See `put` of its group.
    VarIs,
    /// See `put` of its group.
    Var,
    /// See `put` of its group.
    IfElse,
    /// See `put` of its group.
    If,
    /// See `put` of its group.
    CaseAction,
    /// See `put` of its group.
    CaseDefault,
    /// See `put` of its group.
    Binary(BinaryOperator),
    /// See `put` of its group.
    Choice,
}

/// What is done with parsers and their states.
#[derive(Clone, Copy, Drop)]
pub enum StateAction {
    /// See `put` of its group.
    TargetState,
    /// See `put` of its group.
    TargetAccept,
    /// See `put` of its group.
    TargetReject,
    /// See `put` of its group.
    SimpleDefault,
    /// See `put` of its group.
    SimpleAny,
    /// See `put` of its group.
    TakeExp,
    /// See `put` of its group.
    SimpleMask,
    /// See `put` of its group.
    SimpleRange,
    /// See `put` of its group.
    SimpleValue,
    /// See `put` of its group.
    AddSimple,
    /// See `put` of its group.
    KeysetOne,
    /// See `put` of its group.
    AddCase,
    /// See `put` of its group.
    OneSimple,
    /// See `put` of its group.
    KeysetTuple,
    /// See `put` of its group.
    TupleOfOne,
    /// See `put` of its group.
    NoExps,
    /// See `put` of its group.
    AddExp,
    /// See `put` of its group.
    NoCases,
    /// See `put` of its group.
    Select,
    /// See `put` of its group.
    Go,
    /// See `put` of its group.
    AddVar,
    /// See `put` of its group.
    SomeExp,
    /// See `put` of its group.
    NoExp,
    /// See `put` of its group.
    TakeBlock,
    /// See `put` of its group.
    AddState,
    /// See `put` of its group.
    NoVars,
    /// See `put` of its group.
    NoStates,
}

/// What is done with controls.
#[derive(Clone, Copy, Drop)]
pub enum ControlAction {
    /// See `put` of its group.
    Counter,
    /// See `put` of its group.
    DirectCounter,
    /// See `put` of its group.
    Register,
    /// See `put` of its group.
    Meter,
    /// See `put` of its group.
    NoProperties,
    /// See `put` of its group.
    NoKeys,
    /// See `put` of its group.
    AddKeys,
    /// See `put` of its group.
    AddSize,
    /// See `put` of its group.
    AddCounters,
    /// See `put` of its group.
    AddDefault,
    /// See `put` of its group.
    NoNames,
    /// See `put` of its group.
    AddName,
    /// See `put` of its group.
    AddActions,
    /// See `put` of its group.
    Declared,
    /// See `put` of its group.
    NoAction,
    /// See `put` of its group.
    AddKey,
    /// See `put` of its group.
    AddObject,
    /// See `put` of its group.
    AddAction,
    /// See `put` of its group.
    AddTable,
    /// See `put` of its group.
    AddVar,
    /// See `put` of its group.
    NoLocals,
}

/// What is done with declarations.
#[derive(Clone, Copy, Drop)]
pub enum DeclAction {
    /// See `put` of its group.
    NoBitFields,
    /// See `put` of its group.
    Header,
    /// See `put` of its group.
    NoFields,
    /// See `put` of its group.
    Struct,
    /// See `put` of its group.
    Parser,
    /// See `put` of its group.
    Control,
    /// See `put` of its group.
    AddBlock,
    /// See `put` of its group.
    Object,
    /// See `put` of its group.
    AddBitField,
    /// See `put` of its group.
    AddField,
}

/// What is done between the tokens.
#[derive(Clone, Copy, Drop)]
pub enum Action {
    /// With annotations, types, parameters and members.
    Part(PartAction),
    /// With expressions and statements.
    Body(BodyAction),
    /// With parsers and their states.
    State(StateAction),
    /// With controls.
    Control(ControlAction),
    /// With declarations.
    Decl(DeclAction),
}

/// Words for annotations, types, parameters and members.
#[derive(Clone, Copy, Drop)]
pub enum PartWord {
    /// See the rows.
    TypeOf,
    /// See the rows.
    SizeOption,
    /// See the rows.
    FirstNote,
    /// See the rows.
    Notes,
    /// See the rows.
    MoreNumbers,
    /// See the rows.
    Param,
    /// See the rows.
    Params,
    /// See the rows.
    MoreParams,
    /// See the rows.
    Member,
    /// See the rows.
    HashMember,
    /// See the rows.
    CounterMember,
    /// See the rows.
    MeterMember,
    /// See the rows.
    CloneMember,
}

/// Words for expressions and statements.
#[derive(Clone, Copy, Drop)]
pub enum BodyWord {
    /// See the rows.
    Exp,
    /// See the rows.
    Operand,
    /// An operand that doesn't begin with `(`.
    PlainOperand,
    /// See the rows.
    AfterParen,
    /// See the rows.
    SomePostfix,
    /// See the rows.
    Postfix,
    /// See the rows.
    AfterDot,
    /// See the rows.
    AfterLookahead,
    /// See the rows.
    AfterNumber,
    /// See the rows.
    Args,
    /// See the rows.
    Arg,
    /// See the rows.
    MoreArgs,
    /// See the rows.
    Items,
    /// See the rows.
    MoreItems,
    /// See the rows.
    Operators(u8, u8),
    /// See the rows.
    SomeOperators,
    /// See the rows.
    PlainStmt,
    /// See the rows.
    Stmt,
    /// See the rows.
    Stmts,
    /// See the rows.
    StmtEnd,
    /// See the rows.
    NamedEnd,
    /// See the rows.
    VarEnd,
    /// See the rows.
    ElseOption,
    /// See the rows.
    Cases,
}

/// Words for parsers and their states.
#[derive(Clone, Copy, Drop)]
pub enum StateWord {
    /// See the rows.
    Target,
    /// See the rows.
    Simple,
    /// See the rows.
    SimpleEnd,
    /// See the rows.
    MoreSimples,
    /// See the rows.
    SelectCases,
    /// See the rows.
    KeysetParen,
    /// See the rows.
    KeysetParenEnd,
    /// See the rows.
    AfterKeysetParen,
    /// See the rows.
    Transition,
    /// See the rows.
    AfterTransition,
    /// See the rows.
    MoreExps,
    /// See the rows.
    Vars,
    /// See the rows.
    InitialOption,
    /// See the rows.
    States,
}

/// Words for controls.
#[derive(Clone, Copy, Drop)]
pub enum ControlWord {
    /// See the rows.
    Instance,
    /// See the rows.
    ActionDecl,
    /// See the rows.
    TableDecl,
    /// See the rows.
    Property,
    /// See the rows.
    Properties,
    /// See the rows.
    MoreProperties,
    /// See the rows.
    ActionRef,
    /// See the rows.
    ActionLines,
    /// See the rows.
    Keys,
    /// See the rows.
    Noted,
    /// See the rows.
    Locals,
}

/// Words for declarations.
#[derive(Clone, Copy, Drop)]
pub enum DeclWord {
    /// See the rows.
    Program,
    /// See the rows.
    Decls,
    /// See the rows.
    BitFields,
    /// See the rows.
    Fields,
    /// See the rows.
    MoreBlocks,
}

/// A word of the grammar.
#[derive(Clone, Copy, Drop)]
pub enum Word {
    /// For annotations, types, parameters and members.
    Part(PartWord),
    /// For expressions and statements.
    Body(BodyWord),
    /// For parsers and their states.
    State(StateWord),
    /// For controls.
    Control(ControlWord),
    /// For declarations.
    Decl(DeclWord),
}
