// The rows of the words for names, numbers, instances and fields.
ghost use Rattle.std.specs.Prelude.{◌≡◌, []};
ghost use Rattle.predictive_parser.specs.Told.{told};
ghost use Rattle.p414_reader.specs.internal.Rows.{part_rows, part_otherwise};

use crate::rows::{A_NAME, A_NUMBER, BRACKET_CLOSE, DOT, PAREN_CLOSE, Rows, SEMICOLON, Told};
use crate::symbols::{Action, Class, PartAction, PartWord, Word};
use p414_syntax::{Keyword, Mark, Sign};
use predictive_parser::{Otherwise, Row, Symbol, WordRows};

const MORE_NAMES: Rows = &[row!(mark!(Comma) => A_NAME, put_part!(AddName), part!(MoreNames))];

const NAME_LINES: Rows = &[row!(Class::Name => SEMICOLON, put_part!(AddName), part!(NameLines))];

const INDEX_OPTION: Rows = &[row!(mark!(BracketOpen) => part!(IndexIn), BRACKET_CLOSE)];

const INDEX_IN: Rows = &[
    row!(Class::Number => put_part!(IndexAt)),
    row!(key!(Next) => put_part!(IndexNext)),
    row!(key!(Last) => put_part!(IndexLast)),
];

const INST: Rows = &[row!(Class::Name => part!(IndexOption), put_part!(Inst))];

const FIELD_OPTION: Rows = &[row!(mark!(Dot) => A_NAME, put_part!(SomeField))];

const REF: Rows = &[
    row!(Class::Name => part!(IndexOption), put_part!(Inst), DOT, A_NAME, put_part!(Ref)),
];

const NUMBER: Rows = &[
    row!(mark!(Plus) => A_NUMBER, put_part!(Number(Some(Sign::Plus)))),
    row!(mark!(Minus) => A_NUMBER, put_part!(Number(Some(Sign::Minus)))),
    row!(Class::Number => put_part!(Number(None))),
];

const ARGUMENTS: Rows = &[
    row!(mark!(ParenOpen) => put_part!(EmptyArguments), part!(NumberList), PAREN_CLOSE),
];

const NUMBER_LIST: Rows = &[
    like!(Word::Part(PartWord::Number) => put_part!(AddNumber), part!(MoreNumbers)),
];

const MORE_NUMBERS: Rows = &[
    row!(mark!(Comma) => part!(Number), put_part!(AddNumber), part!(MoreNumbers)),
];

const MASK_OPTION: Rows = &[row!(key!(Mask) => A_NUMBER, put_part!(SomeLiteral))];

/// The rows of a word for names, numbers, instances and fields, and what it does where none of them fits.
pub fn rows_of(word: PartWord) -> Told
    ensures rows { told [] result.rows.now ≡ part_rows word }
    ensures otherwise { result.otherwise ≡ part_otherwise word }
{
    match word {
        PartWord::MoreNames => pass!(MORE_NAMES),
        PartWord::NameLines => pass!(NAME_LINES),
        PartWord::IndexOption => build!(INDEX_OPTION => Action::Part(PartAction::NoIndex)),
        PartWord::IndexIn => refuse!(INDEX_IN),
        PartWord::Inst => refuse!(INST),
        PartWord::FieldOption => build!(FIELD_OPTION => Action::Part(PartAction::NoField)),
        PartWord::Ref => refuse!(REF),
        PartWord::Number => refuse!(NUMBER),
        PartWord::Arguments => build!(ARGUMENTS => Action::Part(PartAction::NoArguments)),
        PartWord::NumberList => pass!(NUMBER_LIST),
        PartWord::MoreNumbers => pass!(MORE_NUMBERS),
        PartWord::MaskOption => build!(MASK_OPTION => Action::Part(PartAction::NoLiteral)),
    }
}
