// The rows of the words for parsers and their states.
ghost use Rattle.std.specs.Prelude.{◌≡◌, []};
ghost use Rattle.predictive_parser.specs.Told.{told};
ghost use Rattle.p416_reader.specs.internal.Rows.{state_rows, state_otherwise};

use crate::rows::{
    A_NAME, A_NUMBER, BRACE_CLOSE, BRACE_OPEN, COLON, GREATER, LESS, PAREN_CLOSE, PAREN_OPEN, Rows,
    SEMICOLON, Told,
};
use crate::symbols::{Action, BodyAction, BodyWord, Class, PartWord, StateAction, StateWord, Word};
use p416_syntax::{Keyword16, Mark16};
use predictive_parser::{Otherwise, Row, Symbol, WordRows};

const TARGET: Rows = &[
    row!(Class::Name => put_state!(TargetState)),
    row!(key!(Accept) => put_state!(TargetAccept)),
    row!(key!(Reject) => put_state!(TargetReject)),
];

const SIMPLE: Rows = &[
    row!(key!(Default) => put_state!(SimpleDefault)),
    row!(key!(Underscore) => put_state!(SimpleAny)),
    like!(Word::Body(BodyWord::Operand) => body!(Operators(0, 11)), state!(SimpleEnd)),
];

const SIMPLE_END: Rows = &[
    row!(mark!(Mask) => put_state!(TakeExp), body!(Exp), put_state!(SimpleMask)),
    row!(mark!(DotDot) => put_state!(TakeExp), body!(Exp), put_state!(SimpleRange)),
];

const MORE_SIMPLES: Rows = &[
    row!(mark!(Comma) => state!(Simple), put_state!(AddSimple), state!(MoreSimples)),
];

const SELECT_CASES: Rows = &[
    row!(key!(Default) => put_state!(SimpleDefault), put_state!(KeysetOne), COLON, state!(Target),
        SEMICOLON, put_state!(AddCase), state!(SelectCases)),
    row!(key!(Underscore) => put_state!(SimpleAny), put_state!(KeysetOne), COLON, state!(Target),
        SEMICOLON, put_state!(AddCase), state!(SelectCases)),
    row!(mark!(ParenOpen) => state!(KeysetParen), COLON, state!(Target), SEMICOLON,
        put_state!(AddCase), state!(SelectCases)),
    like!(Word::Body(BodyWord::PlainOperand) => body!(Operators(0, 11)), state!(SimpleEnd),
        put_state!(KeysetOne), COLON, state!(Target), SEMICOLON, put_state!(AddCase),
        state!(SelectCases)),
];

const KEYSET_PAREN: Rows = &[
    row!(key!(Default) => put_state!(SimpleDefault), put_state!(OneSimple), state!(MoreSimples),
        PAREN_CLOSE, put_state!(KeysetTuple)),
    row!(key!(Underscore) => put_state!(SimpleAny), put_state!(OneSimple), state!(MoreSimples),
        PAREN_CLOSE, put_state!(KeysetTuple)),
    row!(key!(Bit) => LESS, A_NUMBER, GREATER, PAREN_CLOSE, body!(Operand), put_body!(CastBit),
        body!(Operators(0, 11)), state!(SimpleEnd), put_state!(KeysetOne)),
    row!(key!(Bool) => PAREN_CLOSE, body!(Operand), put_body!(CastBool), body!(Operators(0, 11)),
        state!(SimpleEnd), put_state!(KeysetOne)),
    like!(Word::Body(BodyWord::Operand) => body!(Operators(0, 11)), state!(KeysetParenEnd)),
];

const KEYSET_PAREN_END: Rows = &[
    row!(mark!(Mask) => put_state!(TakeExp), body!(Exp), put_state!(SimpleMask),
        put_state!(OneSimple), state!(MoreSimples), PAREN_CLOSE, put_state!(KeysetTuple)),
    row!(mark!(DotDot) => put_state!(TakeExp), body!(Exp), put_state!(SimpleRange),
        put_state!(OneSimple), state!(MoreSimples), PAREN_CLOSE, put_state!(KeysetTuple)),
    row!(mark!(Comma) => put_state!(SimpleValue), put_state!(OneSimple), state!(Simple),
        put_state!(AddSimple), state!(MoreSimples), PAREN_CLOSE, put_state!(KeysetTuple)),
    row!(mark!(ParenClose) => state!(AfterKeysetParen)),
];

const AFTER_KEYSET_PAREN: Rows = &[
    row!(mark!(Mask) => put_state!(TakeExp), body!(Exp), put_state!(SimpleMask),
        put_state!(KeysetOne)),
    row!(mark!(DotDot) => put_state!(TakeExp), body!(Exp), put_state!(SimpleRange),
        put_state!(KeysetOne)),
    like!(Word::Body(BodyWord::SomePostfix) => body!(Operators(0, 11)), state!(SimpleEnd),
        put_state!(KeysetOne)),
    like!(Word::Body(BodyWord::SomeOperators) => state!(SimpleEnd), put_state!(KeysetOne)),
];

const TRANSITION: Rows = &[row!(key!(Transition) => state!(AfterTransition))];

const AFTER_TRANSITION: Rows = &[
    row!(key!(Select) => PAREN_OPEN, put_state!(NoExps), body!(Exp), put_state!(AddExp),
        state!(MoreExps), PAREN_CLOSE, BRACE_OPEN, put_state!(NoCases), state!(SelectCases),
        BRACE_CLOSE, put_state!(Select)),
    like!(Word::State(StateWord::Target) => SEMICOLON, put_state!(Go)),
];

const MORE_EXPS: Rows = &[row!(mark!(Comma) => body!(Exp), put_state!(AddExp), state!(MoreExps))];

const VARS: Rows = &[
    like!(Word::Part(PartWord::TypeOf) => A_NAME, state!(InitialOption), SEMICOLON,
        put_state!(AddVar), state!(Vars)),
];

const INITIAL_OPTION: Rows = &[row!(mark!(Assign) => body!(Exp), put_state!(SomeExp))];

const STATES: Rows = &[
    row!(key!(State) => A_NAME, BRACE_OPEN, put_body!(NoStatements), body!(Stmts),
        put_state!(TakeBlock), state!(Transition), BRACE_CLOSE, put_state!(AddState),
        state!(States)),
];

/// The rows of a word for parsers and their states, and what it does where none of them fits.
pub fn rows_of(word: StateWord) -> Told
    ensures rows { told [] result.rows.now ≡ state_rows word }
    ensures otherwise { result.otherwise ≡ state_otherwise word }
{
    match word {
        StateWord::Target => refuse!(TARGET),
        StateWord::Simple => refuse!(SIMPLE),
        StateWord::SimpleEnd => build!(SIMPLE_END => Action::State(StateAction::SimpleValue)),
        StateWord::MoreSimples => pass!(MORE_SIMPLES),
        StateWord::SelectCases => pass!(SELECT_CASES),
        StateWord::KeysetParen => refuse!(KEYSET_PAREN),
        StateWord::KeysetParenEnd => refuse!(KEYSET_PAREN_END),
        StateWord::AfterKeysetParen =>
            build!(AFTER_KEYSET_PAREN => Action::State(StateAction::TupleOfOne)),
        StateWord::Transition => refuse!(TRANSITION),
        StateWord::AfterTransition => refuse!(AFTER_TRANSITION),
        StateWord::MoreExps => pass!(MORE_EXPS),
        StateWord::Vars => pass!(VARS),
        StateWord::InitialOption => build!(INITIAL_OPTION => Action::State(StateAction::NoExp)),
        StateWord::States => pass!(STATES),
    }
}
