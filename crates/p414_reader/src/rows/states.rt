// The rows of the words for parser states.
ghost use Rattle.std.specs.Prelude.{◌≡◌, []};
ghost use Rattle.predictive_parser.specs.Told.{told};
ghost use Rattle.p414_reader.specs.internal.Rows.{state_rows, state_otherwise};

use crate::rows::{
    A_NAME, A_NUMBER, BRACE_CLOSE, BRACE_OPEN, BRACKET_CLOSE, COLON, COMMA, DOT, PAREN_CLOSE,
    PAREN_OPEN, Rows, SEMICOLON, Told,
};
use crate::symbols::{Action, Class, PartAction, PartWord, StateAction, StateWord, Word};
use p414_syntax::{Keyword, Mark};
use predictive_parser::{Otherwise, Row, Symbol, WordRows};

const STATEMENTS: Rows = &[
    row!(key!(Extract) => PAREN_OPEN, part!(Inst), PAREN_CLOSE, SEMICOLON, put_state!(AddExtract),
        state!(Statements)),
    row!(key!(SetMetadata) => PAREN_OPEN, part!(Ref), COMMA, state!(Value), PAREN_CLOSE, SEMICOLON,
        put_state!(AddSetMetadata), state!(Statements)),
];

const VALUE: Rows = &[
    like!(Word::Part(PartWord::Number) => put_state!(ValueNumber)),
    like!(Word::State(StateWord::SelectValue) =>),
];

const SELECT_VALUE: Rows = &[
    row!(key!(Current) => state!(AfterCurrent)),
    row!(key!(Latest) => state!(AfterLatest)),
    row!(Class::Name => part!(IndexOption), put_part!(Inst), DOT, A_NAME, put_part!(Ref),
        put_state!(ValueField)),
];

const AFTER_CURRENT: Rows = &[
    row!(mark!(ParenOpen) => A_NUMBER, COMMA, A_NUMBER, PAREN_CLOSE, put_state!(ValueCurrent)),
    row!(mark!(Dot) => A_NAME, put_part!(RefOf(Keyword::Current)), put_state!(ValueField)),
    row!(mark!(BracketOpen) => part!(IndexIn), BRACKET_CLOSE, put_part!(InstOf(Keyword::Current)),
        DOT, A_NAME, put_part!(Ref), put_state!(ValueField)),
];

const AFTER_LATEST: Rows = &[
    row!(mark!(Dot) => A_NAME, put_state!(ValueLatest)),
    row!(mark!(BracketOpen) => part!(IndexIn), BRACKET_CLOSE, put_part!(InstOf(Keyword::Latest)),
        DOT, A_NAME, put_part!(Ref), put_state!(ValueField)),
];

const MORE_VALUES: Rows = &[
    row!(mark!(Comma) => state!(SelectValue), put_state!(AddValue), state!(MoreValues)),
];

const RETURN: Rows = &[
    row!(key!(Return) => state!(AfterReturn)),
    row!(key!(ParseError) => A_NAME, SEMICOLON, put_state!(ReturnError)),
];

const AFTER_RETURN: Rows = &[
    row!(key!(Select) => state!(AfterSelect)),
    row!(Class::Name => SEMICOLON, put_state!(ReturnState)),
];

const AFTER_SELECT: Rows = &[
    row!(mark!(Semicolon) => put_state!(ReturnStateOf(Keyword::Select))),
    row!(mark!(ParenOpen) => put_state!(NoValues), state!(SelectValue), put_state!(AddValue),
        state!(MoreValues), PAREN_CLOSE, BRACE_OPEN, put_state!(NoCases), state!(Case),
        state!(Cases), BRACE_CLOSE, put_state!(ReturnSelect)),
];

const CASE: Rows = &[
    row!(key!(Default) => put_state!(CaseDefault), COLON, state!(Target), SEMICOLON,
        put_state!(AddCase)),
    row!(Class::Number => put_state!(NoMasked), part!(MaskOption), put_state!(AddMasked),
        state!(MoreMasked), put_state!(CaseMasked), COLON, state!(Target), SEMICOLON,
        put_state!(AddCase)),
];

const CASES: Rows = &[like!(Word::State(StateWord::Case) => state!(Cases))];

const MORE_MASKED: Rows = &[
    row!(mark!(Comma) => A_NUMBER, part!(MaskOption), put_state!(AddMasked), state!(MoreMasked)),
];

const TARGET: Rows = &[
    row!(key!(ParseError) => state!(AfterError)),
    row!(Class::Name => put_state!(TargetState)),
];

const AFTER_ERROR: Rows = &[row!(Class::Name => put_state!(TargetError))];

/// The rows of a word for parser states, and what it does where none of them fits.
pub fn rows_of(word: StateWord) -> Told
    ensures rows { told [] result.rows.now ≡ state_rows word }
    ensures otherwise { result.otherwise ≡ state_otherwise word }
{
    match word {
        StateWord::Statements => pass!(STATEMENTS),
        StateWord::Value => refuse!(VALUE),
        StateWord::SelectValue => refuse!(SELECT_VALUE),
        StateWord::AfterCurrent => refuse!(AFTER_CURRENT),
        StateWord::AfterLatest => refuse!(AFTER_LATEST),
        StateWord::MoreValues => pass!(MORE_VALUES),
        StateWord::Return => refuse!(RETURN),
        StateWord::AfterReturn => refuse!(AFTER_RETURN),
        StateWord::AfterSelect => refuse!(AFTER_SELECT),
        StateWord::Case => refuse!(CASE),
        StateWord::Cases => pass!(CASES),
        StateWord::MoreMasked => pass!(MORE_MASKED),
        StateWord::Target => refuse!(TARGET),
        StateWord::AfterError =>
            build!(AFTER_ERROR => Action::State(StateAction::TargetStateOf(Keyword::ParseError))),
    }
}
