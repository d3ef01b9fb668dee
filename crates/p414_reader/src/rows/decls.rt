// The rows of the words for declarations.
use crate::rows::{
    A_NAME, A_NUMBER, BRACE_CLOSE, BRACE_OPEN, COLON, PAREN_CLOSE, PAREN_OPEN, Rows, SEMICOLON, Sym,
};
use crate::symbols::{
    Action, BodyAction, BodyWord, CalculationAction, CalculationWord, CallAction, CallWord, Class,
    DeclKind, HeaderAction, HeaderWord, ObjectAction, ObjectWord, PartAction, PartWord,
    StateAction, StateWord, TableAction, TableWord, Word,
};
use p414_syntax::{Keyword, LeftOutKind, Mark};
use predictive_parser::{Row, Symbol};

/// Further declarations.
const MORE_DECLS: Sym = Symbol::Word(Word::Decls);

/// Further tokens of a group.
const MORE_GROUP: Sym = Symbol::Word(Word::Group);

/// What stands behind the name of a declaration that is left out.
const LEFT_OUT_REST: Sym = Symbol::Word(Word::LeftOutEnd);

/// The rows of the word `Decls`.
pub const DECLS: Rows = &[
    row!(key!(HeaderType) => A_NAME, BRACE_OPEN, quoted!(Fields), BRACE_OPEN, put_header!(NoFields),
        header!(Fields), BRACE_CLOSE, put_body!(NoTails), header!(Tails), BRACE_CLOSE,
        decl!(HeaderType), MORE_DECLS),
    row!(key!(Header) => A_NAME, A_NAME, header!(Size), SEMICOLON, decl!(Header), MORE_DECLS),
    row!(key!(Metadata) => A_NAME, A_NAME, header!(MetadataEnd), decl!(Metadata), MORE_DECLS),
    row!(key!(FieldList) => A_NAME, BRACE_OPEN, put_calculation!(NoItems), calculation!(Items),
        BRACE_CLOSE, decl!(FieldList), MORE_DECLS),
    row!(key!(FieldListCalculation) => A_NAME, BRACE_OPEN, quoted!(Input), BRACE_OPEN,
        put_part!(NoNames), A_NAME, SEMICOLON, put_part!(AddName), part!(NameLines), BRACE_CLOSE,
        quoted!(Algorithm), COLON, A_NAME, SEMICOLON, quoted!(OutputWidth), COLON, A_NUMBER,
        SEMICOLON, BRACE_CLOSE, decl!(FieldListCalculation), MORE_DECLS),
    row!(key!(CalculatedField) => part!(Ref), BRACE_OPEN, put_calculation!(NoCalcs),
        calculation!(Calc), calculation!(Calcs), BRACE_CLOSE, decl!(CalculatedField), MORE_DECLS),
    row!(key!(Parser) => A_NAME, BRACE_OPEN, put_state!(NoStatements), state!(Statements),
        state!(Return), BRACE_CLOSE, decl!(Parser), MORE_DECLS),
    row!(key!(Action) => A_NAME, PAREN_OPEN, put_part!(NoNames), call!(Params), PAREN_CLOSE,
        BRACE_OPEN, put_call!(NoCalls), call!(Calls), BRACE_CLOSE, decl!(Action), MORE_DECLS),
    row!(key!(Table) => A_NAME, BRACE_OPEN, put_table!(NoAttrs), table!(Attrs), BRACE_CLOSE,
        decl!(Table), MORE_DECLS),
    row!(key!(Counter) => A_NAME, BRACE_OPEN, put_object!(NoAttrs), object!(CounterAttrs),
        BRACE_CLOSE, decl!(Counter), MORE_DECLS),
    row!(key!(Meter) => A_NAME, BRACE_OPEN, put_object!(NoAttrs), object!(CounterAttrs),
        BRACE_CLOSE, decl!(Meter), MORE_DECLS),
    row!(key!(Register) => A_NAME, BRACE_OPEN, put_object!(NoAttrs), object!(RegisterAttrs),
        BRACE_CLOSE, decl!(Register), MORE_DECLS),
    row!(key!(Control) => A_NAME, BRACE_OPEN, put_body!(NoStatements), body!(Statements),
        BRACE_CLOSE, decl!(Control), MORE_DECLS),
    row!(key!(ParserValueSet) => A_NAME, LEFT_OUT_REST, decl!(LeftOut(LeftOutKind::ParserValueSet)),
        MORE_DECLS),
    row!(key!(ParserException) => A_NAME, LEFT_OUT_REST,
        decl!(LeftOut(LeftOutKind::ParserException)), MORE_DECLS),
    row!(key!(ActionProfile) => A_NAME, LEFT_OUT_REST, decl!(LeftOut(LeftOutKind::ActionProfile)),
        MORE_DECLS),
    row!(key!(ActionSelector) => A_NAME, LEFT_OUT_REST, decl!(LeftOut(LeftOutKind::ActionSelector)),
        MORE_DECLS),
];

/// The rows of the word `Group`.
pub const GROUP: Rows = &[
    row!(Class::GroupToken => MORE_GROUP),
    row!(Class::GroupOpen => MORE_GROUP, Symbol::Token(Class::GroupClose), MORE_GROUP),
];

/// The rows of the word `LeftOutEnd`.
pub const LEFT_OUT_END: Rows = &[
    row!(mark!(Semicolon) => Symbol::Put(Action::NoGroup)),
    row!(mark!(BraceOpen) => Symbol::Put(Action::EmptyGroup), MORE_GROUP, BRACE_CLOSE),
];
