// What the rows of the grammar are made of: classes of tokens, actions and words.
use p414_syntax::{
    BinaryOperator, CalcUse, CounterType, Keyword, LeftOutKind, Mark, Sign, UnaryOperator,
};

/// A class of tokens.
#[derive(Clone, Copy, Drop)]
pub enum Class {
    /// This mark.
    Mark(Mark),
    /// The name that is this word.
    Word(Keyword),
    /// Any name. It is kept.
    Name,
    /// Any number. It is kept.
    Number,
    /// A name that may stand in an expression. It is kept.
    ExpressionName,
    /// The word of an attribute that the header type hasn't yet.
    NewTail(Keyword),
    /// The word of an attribute that the table hasn't yet.
    NewTableAttr(Keyword),
    /// The word of an attribute that the counter, meter or register hasn't yet.
    NewStateAttr(Keyword),
    /// A label that may stand behind those of the list of branches. It is kept.
    NewLabel,
    /// An operator between operands that binds at least as tightly as the first number and at most as the second.
    Infix(u8, u8),
    /// An operator before its operand that binds at least so tightly.
    Prefix(u8),
    /// Any token but a brace. It is kept in the group.
    GroupToken,
    /// `{`. It is kept in the group.
    GroupOpen,
    /// `}`. It is kept in the group.
    GroupClose,
}

/// What is done with names, numbers, instances and fields.
#[derive(Clone, Copy, Drop)]
pub enum PartAction {
    /// Begins a list of names.
    NoNames,
    /// Puts the newest name into the list.
    AddName,
    /// No number stands there.
    NoLiteral,
    /// The newest number stands there.
    SomeLiteral,
    /// The newest number with this sign.
    Number(Option<Sign>),
    /// No arguments stand there.
    NoArguments,
    /// Begins a list of arguments.
    EmptyArguments,
    /// Puts the newest number with its sign into the list of arguments.
    AddNumber,
    /// No index stands there.
    NoIndex,
    /// The newest number is the index.
    IndexAt,
    /// The index is `next`.
    IndexNext,
    /// The index is `last`.
    IndexLast,
    /// An instance of the newest name and index.
    Inst,
    /// An instance of this name and the newest index.
    InstOf(Keyword),
    /// A field of the newest instance.
    Ref,
    /// A field of the instance of this name.
    RefOf(Keyword),
    /// No field stands behind the instance.
    NoField,
    /// The newest name is the field.
    SomeField,
}

/// What is done in header types, header instances and metadata.
#[derive(Clone, Copy, Drop)]
pub enum HeaderAction {
    /// The width is the newest number.
    WidthBits,
    /// The width is `*`.
    WidthRest,
    /// Begins the list of fields.
    NoFields,
    /// Puts a field into the list.
    AddField,
    /// No initial values stand there.
    NoInitials,
    /// Begins a list of initial values.
    EmptyInitials,
    /// Puts an initial value into the list.
    AddInitial,
    /// Initial values stand there, with or without a `;` behind them.
    SomeInitials(bool),
}

/// What is done in field lists, calculations and calculated fields.
#[derive(Clone, Copy, Drop)]
pub enum CalculationAction {
    /// Begins the list of items.
    NoItems,
    /// Puts the newest number into the list.
    AddItemNumber,
    /// Puts the newest field, instance or the payload into the list.
    AddItem,
    /// No condition stands there.
    NoCond,
    /// The newest instance is valid.
    CondValid,
    /// The newest field is the newest number.
    CondEqual,
    /// Begins the list of entries.
    NoCalcs,
    /// Puts an entry into the list.
    AddCalc(CalcUse),
}

/// What is done in parser states.
#[derive(Clone, Copy, Drop)]
pub enum StateAction {
    /// `current` of the two newest numbers.
    ValueCurrent,
    /// The newest name is a field of `latest`.
    ValueLatest,
    /// The value is the newest field.
    ValueField,
    /// The value is the newest number with its sign.
    ValueNumber,
    /// Begins a list of values.
    NoValues,
    /// Puts the newest value into the list.
    AddValue,
    /// Begins the list of statements.
    NoStatements,
    /// Puts `extract` of the newest instance into the list.
    AddExtract,
    /// Puts `set_metadata` of the newest field and value into the list.
    AddSetMetadata,
    /// Begins the values of a case.
    NoMasked,
    /// Puts the newest number and mask into them.
    AddMasked,
    /// The case has the values of the list.
    CaseMasked,
    /// The case is `default`.
    CaseDefault,
    /// The case leads to the exception of the newest name.
    TargetError,
    /// The case leads to the state of the newest name.
    TargetState,
    /// The case leads to the state of this name.
    TargetStateOf(Keyword),
    /// Begins the list of cases.
    NoCases,
    /// Puts a case into the list.
    AddCase,
    /// The state ends with the newest values and cases.
    ReturnSelect,
    /// The state ends with the state of the newest name.
    ReturnState,
    /// The state ends with the state of this name.
    ReturnStateOf(Keyword),
    /// The state ends with the exception of the newest name.
    ReturnError,
}

/// What is done in actions.
#[derive(Clone, Copy, Drop)]
pub enum CallAction {
    /// Begins the list of arguments.
    NoArgs,
    /// Puts the newest number with its sign into the list.
    AddArgNumber,
    /// Puts the newest field or instance into the list.
    AddArg,
    /// Begins the list of calls.
    NoCalls,
    /// Puts a call into the list.
    AddCall,
}

/// What is done in tables.
#[derive(Clone, Copy, Drop)]
pub enum TableAction {
    /// Begins the list of keys.
    NoReads,
    /// Puts a key into the list.
    AddRead,
    /// Begins the list of attributes.
    NoAttrs,
    /// Puts `reads` into the list.
    AddReads,
    /// Puts `actions` into the list.
    AddActions,
    /// Puts `min_size` into the list.
    AddMinSize,
    /// Puts `max_size` into the list.
    AddMaxSize,
    /// Puts `size` into the list.
    AddSize,
    /// Puts `support_timeout` into the list.
    AddTimeout(bool),
    /// Puts `default_action` into the list.
    AddDefaultAction,
    /// Puts `action_profile` into the list.
    AddProfile,
}

/// What is done in counters, meters and registers.
#[derive(Clone, Copy, Drop)]
pub enum ObjectAction {
    /// Begins the list of attributes.
    NoAttrs,
    /// Puts `type` into the list.
    AddCounts(CounterType),
    /// Puts `direct` into the list.
    AddDirect,
    /// Puts `static` into the list.
    AddStatic,
    /// Puts `layout` into the list.
    AddLayout,
    /// Puts `result` into the list.
    AddResult,
    /// Puts `instance_count` into the list.
    AddInstanceCount,
    /// Puts `width` into the list.
    AddWidth,
    /// Puts `min_width` into the list.
    AddMinWidth,
    /// Puts `saturating` into the list.
    AddSaturating,
    /// Puts `signed` into the list.
    AddSigned,
}

/// What is done in expressions and controls.
#[derive(Clone, Copy, Drop)]
pub enum BodyAction {
    /// The newest number.
    Number,
    /// A truth value.
    Truth(bool),
    /// `valid` of the newest instance.
    Valid,
    /// The newest field.
    Field,
    /// Parentheses around the newest expression.
    Parenthesized,
    /// An operator before the newest expression.
    Unary(UnaryOperator),
    /// An operator between the two newest expressions.
    Binary(BinaryOperator),
    /// Begins the list of `length` and `max_length`.
    NoTails,
    /// Puts `length` into the list.
    AddLength,
    /// Puts `max_length` into the list.
    AddMaxLength,
    /// Begins a list of statements.
    NoStatements,
    /// Puts the call of the control of the newest name into the list.
    AddCall,
    /// Puts the call of the control of this name into the list.
    AddCallOf(Keyword),
    /// Puts `apply` of the newest name into the list.
    AddApply,
    /// Begins a list of branches.
    NoBranches,
    /// Puts a branch of the newest name into the list.
    AddBranch,
    /// Puts `apply` of the newest name, with the branches, into the list of statements.
    AddApplyBranches,
    /// Nothing stands behind the block.
    NoElse,
    /// Nothing stands behind the block, but then a control `else` is called.
    NoElseThenCall,
    /// The newest list of statements stands behind `else`.
    ElseBlock,
    /// An `if` statement stands behind `else`.
    ElseIf,
    /// Puts the `if` statement into the list of statements.
    AddIf,
}

/// What is done between the tokens of the grammar.
#[derive(Clone, Copy, Drop)]
pub enum Action {
    /// With names, numbers, instances and fields.
    Part(PartAction),
    /// In header types, header instances and metadata.
    Header(HeaderAction),
    /// In field lists, calculations and calculated fields.
    Calculation(CalculationAction),
    /// In parser states.
    State(StateAction),
    /// In actions.
    Call(CallAction),
    /// In tables.
    Table(TableAction),
    /// In counters, meters and registers.
    Object(ObjectAction),
    /// In expressions and controls.
    Body(BodyAction),
    /// No group of tokens stands there.
    NoGroup,
    /// Begins a group of tokens.
    EmptyGroup,
    /// A declaration ends, and is put behind the others.
    AddDecl(DeclKind),
    /// The declarations end.
    EndDecls,
}

/// The declarations that there are.
#[derive(Clone, Copy, Drop)]
pub enum DeclKind {
    /// `header_type`.
    HeaderType,
    /// `header`.
    Header,
    /// `metadata`.
    Metadata,
    /// `field_list`.
    FieldList,
    /// `field_list_calculation`.
    FieldListCalculation,
    /// `calculated_field`.
    CalculatedField,
    /// `parser`.
    Parser,
    /// `action`.
    Action,
    /// `table`.
    Table,
    /// `counter`.
    Counter,
    /// `meter`.
    Meter,
    /// `register`.
    Register,
    /// `control`.
    Control,
    /// One that is left out.
    LeftOut(LeftOutKind),
}

/// The words for names, numbers, instances and fields.
#[derive(Clone, Copy, Drop)]
pub enum PartWord {
    /// Further names, each behind a comma.
    MoreNames,
    /// Further names, each before a `;`.
    NameLines,
    /// `[INDEX]`, or nothing.
    IndexOption,
    /// `NUMBER`, `next` or `last`.
    IndexIn,
    /// An instance.
    Inst,
    /// `.FIELD`, or nothing.
    FieldOption,
    /// A field of an instance.
    Ref,
    /// A number with or without a sign.
    Number,
    /// `(NUMBER, ..)`, or nothing.
    Arguments,
    /// Numbers with commas between them, or nothing.
    NumberList,
    /// Further numbers, each behind a comma.
    MoreNumbers,
    /// `mask NUMBER`, or nothing.
    MaskOption,
}

/// The words for header types, header instances and metadata.
#[derive(Clone, Copy, Drop)]
pub enum HeaderWord {
    /// The fields of a header type.
    Fields,
    /// The width of a field.
    Width,
    /// The attributes of a field, or nothing.
    Attributes,
    /// `length` and `max_length`.
    Tails,
    /// `[NUMBER]`, or nothing.
    Size,
    /// What stands behind the name of a metadata instance.
    MetadataEnd,
    /// Initial values.
    Initials,
    /// `;`, or nothing.
    Semicolon,
}

/// The words for field lists, calculations and calculated fields.
#[derive(Clone, Copy, Drop)]
pub enum CalculationWord {
    /// The items of a field list.
    Items,
    /// An entry of a calculated field.
    Calc,
    /// Further entries.
    Calcs,
    /// `if (CONDITION)`, or nothing.
    CalcIf,
    /// A condition.
    CalcCond,
    /// What stands behind the word `valid` in a condition.
    AfterValid,
}

/// The words for parser states.
#[derive(Clone, Copy, Drop)]
pub enum StateWord {
    /// Statements.
    Statements,
    /// A value.
    Value,
    /// A value in a `select`.
    SelectValue,
    /// What stands behind the word `current` in a value.
    AfterCurrent,
    /// What stands behind the word `latest` in a value.
    AfterLatest,
    /// Further values, each behind a comma.
    MoreValues,
    /// How a state ends.
    Return,
    /// What stands behind the word `return`.
    AfterReturn,
    /// What stands behind the words `return select`.
    AfterSelect,
    /// A case.
    Case,
    /// Further cases.
    Cases,
    /// Further values of a case, each behind a comma.
    MoreMasked,
    /// Where a case leads.
    Target,
    /// What stands behind the word `parse_error` in a target: a name, or nothing.
    AfterError,
}

/// The words for actions.
#[derive(Clone, Copy, Drop)]
pub enum CallWord {
    /// Parameters with commas between them, or nothing.
    Params,
    /// Calls.
    Calls,
    /// An argument.
    Arg,
    /// Arguments with commas between them, or nothing.
    Args,
    /// Further arguments, each behind a comma.
    MoreArgs,
}

/// The words for tables.
#[derive(Clone, Copy, Drop)]
pub enum TableWord {
    /// An attribute that the table hasn't yet, neither `actions` nor `action_profile`.
    Attr,
    /// Attributes of a table that has neither `actions` nor `action_profile` yet, up to the last.
    Attrs,
    /// Further attributes of a table that has one of these.
    MoreAttrs,
    /// `true;` or `false;`.
    Timeout,
    /// The keys.
    Reads,
}

/// The words for counters, meters and registers.
#[derive(Clone, Copy, Drop)]
pub enum ObjectWord {
    /// An attribute that the object hasn't yet, none of `type`, `width` and `layout`.
    Attr,
    /// Attributes of a counter or meter that has no `type` yet, up to the last.
    CounterAttrs,
    /// Attributes of a register that has neither `width` nor `layout` yet, up to the last.
    RegisterAttrs,
    /// Further attributes.
    MoreAttrs,
    /// What is counted.
    CounterType,
}

/// The words for expressions and controls.
#[derive(Clone, Copy, Drop)]
pub enum BodyWord {
    /// An expression whose operators bind at least so tightly.
    Expr(u8),
    /// What stands behind an operand: operators that bind at least as tightly as the first number and at most as the
    /// second, with their operands.
    Operators(u8, u8),
    /// An instance in an expression.
    ExprInst,
    /// Statements.
    Statements,
    /// What stands behind `apply (`.
    AfterApply,
    /// What stands behind `apply (TABLE)`.
    ApplyEnd,
    /// What stands behind `if (`.
    AfterIf,
    /// What stands behind the block of an `if`, or nothing.
    ElseOption,
    /// What stands behind the word `else`.
    AfterElse,
    /// Branches.
    Branches,
}

/// The words of the grammar, as its rows go on with them.
#[derive(Clone, Copy, Drop)]
pub enum Word {
    /// For names, numbers, instances and fields.
    Part(PartWord),
    /// For header types, header instances and metadata.
    Header(HeaderWord),
    /// For field lists, calculations and calculated fields.
    Calculation(CalculationWord),
    /// For parser states.
    State(StateWord),
    /// For actions.
    Call(CallWord),
    /// For tables.
    Table(TableWord),
    /// For counters, meters and registers.
    Object(ObjectWord),
    /// For expressions and controls.
    Body(BodyWord),
    /// What stands behind the name of a declaration that is left out.
    LeftOutEnd,
    /// The tokens of a group.
    Group,
    /// Declarations.
    Decls,
}
