// The rows of the words for header types, header instances and metadata.
ghost use Rattle.std.specs.Prelude.{◌≡◌, []};
ghost use Rattle.predictive_parser.specs.Told.{told};
ghost use Rattle.p414_reader.specs.internal.Rows.{header_rows, header_otherwise};

use crate::rows::{
    A_NAME, A_NUMBER, BRACE_CLOSE, BRACKET_CLOSE, COLON, PAREN_CLOSE, Rows, SEMICOLON, Told,
};
use crate::symbols::{
    Action, BodyAction, BodyWord, Class, HeaderAction, HeaderWord, PartAction, PartWord, Word,
};
use p414_syntax::{Keyword, Mark};
use predictive_parser::{Otherwise, Row, Symbol, WordRows};

const FIELDS: Rows = &[
    row!(Class::Name => COLON, header!(Width), header!(Attributes), SEMICOLON,
        put_header!(AddField), header!(Fields)),
];

const WIDTH: Rows = &[
    row!(Class::Number => put_header!(WidthBits)),
    row!(mark!(Star) => put_header!(WidthRest)),
];

const ATTRIBUTES: Rows = &[
    row!(mark!(ParenOpen) => put_part!(NoNames), A_NAME, put_part!(AddName), part!(MoreNames),
        PAREN_CLOSE),
];

const TAILS: Rows = &[
    row!(Class::NewTail(Keyword::Length) => COLON, body!(Expr(0)), SEMICOLON, put_body!(AddLength),
        header!(Tails)),
    row!(Class::NewTail(Keyword::MaxLength) => COLON, body!(Expr(0)), SEMICOLON,
        put_body!(AddMaxLength), header!(Tails)),
];

const SIZE: Rows = &[row!(mark!(BracketOpen) => A_NUMBER, BRACKET_CLOSE, put_part!(SomeLiteral))];

const METADATA_END: Rows = &[
    row!(mark!(Semicolon) => put_header!(NoInitials)),
    row!(mark!(BraceOpen) => put_header!(EmptyInitials), header!(Initials), BRACE_CLOSE,
        header!(Semicolon)),
];

const INITIALS: Rows = &[
    row!(Class::Name => COLON, part!(Number), SEMICOLON, put_header!(AddInitial),
        header!(Initials)),
];

const SEMICOLON_OPTION: Rows = &[row!(mark!(Semicolon) => put_header!(SomeInitials(true)))];

/// The rows of a word for header types, header instances and metadata, and what it does where none of them fits.
pub fn rows_of(word: HeaderWord) -> Told
    ensures rows { told [] result.rows.now ≡ header_rows word }
    ensures otherwise { result.otherwise ≡ header_otherwise word }
{
    match word {
        HeaderWord::Fields => pass!(FIELDS),
        HeaderWord::Width => refuse!(WIDTH),
        HeaderWord::Attributes => build!(ATTRIBUTES => Action::Part(PartAction::NoNames)),
        HeaderWord::Tails => pass!(TAILS),
        HeaderWord::Size => build!(SIZE => Action::Part(PartAction::NoLiteral)),
        HeaderWord::MetadataEnd => refuse!(METADATA_END),
        HeaderWord::Initials => pass!(INITIALS),
        HeaderWord::Semicolon =>
            build!(SEMICOLON_OPTION => Action::Header(HeaderAction::SomeInitials(false))),
    }
}
