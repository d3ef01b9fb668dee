// The rows of the words for controls.
ghost use Rattle.std.specs.Prelude.{◌≡◌, []};
ghost use Rattle.predictive_parser.specs.Told.{told};
ghost use Rattle.p416_reader.specs.internal.Rows.{control_rows, control_otherwise};

use crate::rows::{
    A_NAME, A_NUMBER, ASSIGN, BRACE_CLOSE, BRACE_OPEN, COLON, COMMA, GREATER, LESS, PAREN_CLOSE,
    PAREN_OPEN, Rows, SEMICOLON, Told,
};
use crate::symbols::{
    Action, BodyAction, BodyWord, Class, ControlAction, ControlWord, PartAction, PartWord,
    StateAction, StateWord, Word,
};
use p416_syntax::Keyword16;
use predictive_parser::{Otherwise, Row, Symbol, WordRows};

const INSTANCE: Rows = &[
    row!(key!(Counter) => PAREN_OPEN, body!(Exp), put_state!(TakeExp), COMMA, part!(Member),
        PAREN_CLOSE, A_NAME, put_control!(Counter)),
    row!(key!(DirectCounter) => PAREN_OPEN, part!(Member), PAREN_CLOSE, A_NAME,
        put_control!(DirectCounter)),
    row!(key!(Register) => LESS, quoted!(Bit), LESS, A_NUMBER, GREATER, GREATER, PAREN_OPEN,
        body!(Exp), put_state!(TakeExp), PAREN_CLOSE, A_NAME, put_control!(Register)),
    row!(key!(Meter) => PAREN_OPEN, body!(Exp), put_state!(TakeExp), COMMA, part!(Member),
        PAREN_CLOSE, A_NAME, put_control!(Meter)),
];

const ACTION_DECL: Rows = &[
    row!(key!(Action) => A_NAME, PAREN_OPEN, put_part!(NoParams), part!(Params), PAREN_CLOSE,
        BRACE_OPEN, put_body!(NoStatements), body!(Stmts), BRACE_CLOSE, put_state!(TakeBlock)),
];

const TABLE_DECL: Rows = &[
    row!(key!(Table) => A_NAME, BRACE_OPEN, put_control!(NoProperties), control!(Properties),
        BRACE_CLOSE),
];

const PROPERTY: Rows = &[
    row!(Class::NewProperty(Keyword16::Key) => ASSIGN, BRACE_OPEN, put_control!(NoKeys),
        control!(Keys), BRACE_CLOSE, put_control!(AddKeys)),
    row!(Class::NewProperty(Keyword16::Size) => ASSIGN, A_NUMBER, SEMICOLON, put_control!(AddSize)),
    row!(Class::NewProperty(Keyword16::Counters) => ASSIGN, A_NAME, SEMICOLON,
        put_control!(AddCounters)),
    row!(Class::NewProperty(Keyword16::DefaultAction) => ASSIGN, control!(ActionRef), PAREN_OPEN,
        put_body!(NoArguments), body!(Items), PAREN_CLOSE, SEMICOLON, put_control!(AddDefault)),
];

const PROPERTIES: Rows = &[
    row!(key!(Actions) => ASSIGN, BRACE_OPEN, put_control!(NoNames), control!(ActionRef),
        SEMICOLON, put_control!(AddName), control!(ActionLines), BRACE_CLOSE,
        put_control!(AddActions), control!(MoreProperties)),
    like!(Word::Control(ControlWord::Property) => control!(Properties)),
];

const MORE_PROPERTIES: Rows = &[
    row!(Class::NewProperty(Keyword16::Actions) => ASSIGN, BRACE_OPEN, put_control!(NoNames),
        control!(ActionRef), SEMICOLON, put_control!(AddName), control!(ActionLines), BRACE_CLOSE,
        put_control!(AddActions), control!(MoreProperties)),
    like!(Word::Control(ControlWord::Property) => control!(MoreProperties)),
];

const ACTION_REF: Rows = &[
    row!(Class::Name => put_control!(Declared)),
    row!(key!(NoAction) => put_control!(NoAction)),
];

const ACTION_LINES: Rows = &[
    like!(Word::Control(ControlWord::ActionRef) => SEMICOLON, put_control!(AddName),
        control!(ActionLines)),
];

const KEYS: Rows = &[
    like!(Word::Body(BodyWord::Operand) => body!(Operators(0, 11)), put_state!(TakeExp), COLON,
        A_NAME, put_part!(NoNotes), part!(Notes), SEMICOLON, put_control!(AddKey), control!(Keys)),
];

const NOTED: Rows = &[
    like!(Word::Control(ControlWord::Instance) => SEMICOLON, put_control!(AddObject)),
    like!(Word::Control(ControlWord::ActionDecl) => put_control!(AddAction)),
    like!(Word::Control(ControlWord::TableDecl) => put_control!(AddTable)),
];

const LOCALS: Rows = &[
    like!(Word::Part(PartWord::TypeOf) => A_NAME, state!(InitialOption), SEMICOLON,
        put_control!(AddVar), control!(Locals)),
    like!(Word::Control(ControlWord::Instance) => SEMICOLON, put_part!(NoNotes),
        put_control!(AddObject), control!(Locals)),
    like!(Word::Control(ControlWord::ActionDecl) => put_part!(NoNotes), put_control!(AddAction),
        control!(Locals)),
    like!(Word::Control(ControlWord::TableDecl) => put_part!(NoNotes), put_control!(AddTable),
        control!(Locals)),
    like!(Word::Part(PartWord::FirstNote) => part!(Notes), control!(Noted), control!(Locals)),
];

/// The rows of a word for controls, and what it does where none of them fits.
pub fn rows_of(word: ControlWord) -> Told
    ensures rows { told [] result.rows.now ≡ control_rows word }
    ensures otherwise { result.otherwise ≡ control_otherwise word }
{
    match word {
        ControlWord::Instance => refuse!(INSTANCE),
        ControlWord::ActionDecl => refuse!(ACTION_DECL),
        ControlWord::TableDecl => refuse!(TABLE_DECL),
        ControlWord::Property => refuse!(PROPERTY),
        ControlWord::Properties => refuse!(PROPERTIES),
        ControlWord::MoreProperties => pass!(MORE_PROPERTIES),
        ControlWord::ActionRef => refuse!(ACTION_REF),
        ControlWord::ActionLines => pass!(ACTION_LINES),
        ControlWord::Keys => pass!(KEYS),
        ControlWord::Noted => refuse!(NOTED),
        ControlWord::Locals => pass!(LOCALS),
    }
}
