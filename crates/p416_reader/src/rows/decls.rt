// The rows of the words for declarations.
ghost use Rattle.std.specs.Prelude.{◌≡◌, []};
ghost use Rattle.predictive_parser.specs.Told.{told};
ghost use Rattle.p416_reader.specs.internal.Rows.{decl_rows, decl_otherwise};

use crate::rows::{
    A_NAME, A_NUMBER, BRACE_CLOSE, BRACE_OPEN, GREATER, LESS, PAREN_CLOSE, PAREN_OPEN, Rows,
    SEMICOLON, Told,
};
use crate::symbols::{
    Action, BodyAction, BodyWord, Class, ControlAction, ControlWord, DeclAction, DeclWord,
    PartAction, PartWord, StateAction, StateWord, Word,
};
use p416_syntax::{Include16, Keyword16, Mark16};
use predictive_parser::{Otherwise, Row, Symbol, WordRows};

const PROGRAM: Rows = &[
    row!(Class::Include(Include16::Core) => Symbol::Token(Class::Include(Include16::V1Model)),
        decl!(Decls)),
];

const DECLS: Rows = &[
    row!(key!(Header) => A_NAME, BRACE_OPEN, put_decl!(NoBitFields), decl!(BitFields),
        BRACE_CLOSE, put_decl!(Header), decl!(Decls)),
    row!(key!(Struct) => A_NAME, BRACE_OPEN, put_decl!(NoFields), decl!(Fields), BRACE_CLOSE,
        put_decl!(Struct), decl!(Decls)),
    row!(key!(Parser) => A_NAME, PAREN_OPEN, put_part!(NoParams), part!(Param), part!(MoreParams),
        PAREN_CLOSE, BRACE_OPEN, put_state!(NoVars), state!(Vars), put_state!(NoStates),
        state!(States), BRACE_CLOSE, put_decl!(Parser), decl!(Decls)),
    row!(key!(Control) => A_NAME, PAREN_OPEN, put_part!(NoParams), part!(Param),
        part!(MoreParams), PAREN_CLOSE, BRACE_OPEN, put_control!(NoLocals), control!(Locals),
        quoted!(Apply), BRACE_OPEN, put_body!(NoStatements), body!(Stmts), BRACE_CLOSE,
        put_state!(TakeBlock), BRACE_CLOSE, put_decl!(Control), decl!(Decls)),
    row!(key!(V1Switch) => PAREN_OPEN, A_NAME, PAREN_OPEN, PAREN_CLOSE, put_decl!(AddBlock),
        decl!(MoreBlocks), PAREN_CLOSE, quoted!(Main), SEMICOLON),
    like!(Word::Control(ControlWord::Instance) => SEMICOLON, put_part!(NoNotes),
        put_decl!(Object), decl!(Decls)),
    like!(Word::Part(PartWord::FirstNote) => part!(Notes), control!(Instance), SEMICOLON,
        put_decl!(Object), decl!(Decls)),
];

const BIT_FIELDS: Rows = &[
    row!(key!(Bit) => LESS, A_NUMBER, GREATER, A_NAME, SEMICOLON, put_decl!(AddBitField),
        decl!(BitFields)),
];

const FIELDS: Rows = &[
    like!(Word::Part(PartWord::TypeOf) => A_NAME, SEMICOLON, put_part!(NoNotes),
        put_decl!(AddField), decl!(Fields)),
    like!(Word::Part(PartWord::FirstNote) => part!(Notes), part!(TypeOf), A_NAME, SEMICOLON,
        put_decl!(AddField), decl!(Fields)),
];

const MORE_BLOCKS: Rows = &[
    row!(mark!(Comma) => A_NAME, PAREN_OPEN, PAREN_CLOSE, put_decl!(AddBlock), decl!(MoreBlocks)),
];

/// The rows of a word for declarations, and what it does where none of them fits.
pub fn rows_of(word: DeclWord) -> Told
    ensures rows { told [] result.rows.now ≡ decl_rows word }
    ensures otherwise { result.otherwise ≡ decl_otherwise word }
{
    match word {
        DeclWord::Program => refuse!(PROGRAM),
        DeclWord::Decls => refuse!(DECLS),
        DeclWord::BitFields => pass!(BIT_FIELDS),
        DeclWord::Fields => pass!(FIELDS),
        DeclWord::MoreBlocks => pass!(MORE_BLOCKS),
    }
}
