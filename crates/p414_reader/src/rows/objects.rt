// The rows of the words for counters, meters and registers.
ghost use Rattle.std.specs.Prelude.{◌≡◌, []};
ghost use Rattle.predictive_parser.specs.Told.{told};
ghost use Rattle.p414_reader.specs.internal.Rows.{object_rows, object_otherwise};

use crate::rows::{A_NAME, A_NUMBER, COLON, Rows, SEMICOLON, Told};
use crate::symbols::{Action, Class, ObjectAction, ObjectWord, PartWord, Word};
use p414_syntax::{CounterType, Keyword};
use predictive_parser::{Otherwise, Row, Symbol, WordRows};

const ATTR: Rows = &[
    row!(Class::NewStateAttr(Keyword::Direct) => COLON, A_NAME, SEMICOLON, put_object!(AddDirect)),
    row!(Class::NewStateAttr(Keyword::Static) => COLON, A_NAME, SEMICOLON, put_object!(AddStatic)),
    row!(Class::NewStateAttr(Keyword::Result) => COLON, part!(Ref), SEMICOLON,
        put_object!(AddResult)),
    row!(Class::NewStateAttr(Keyword::InstanceCount) => COLON, A_NUMBER, SEMICOLON,
        put_object!(AddInstanceCount)),
    row!(Class::NewStateAttr(Keyword::MinWidth) => COLON, A_NUMBER, SEMICOLON,
        put_object!(AddMinWidth)),
    row!(Class::NewStateAttr(Keyword::Saturating) => SEMICOLON, put_object!(AddSaturating)),
    row!(Class::NewStateAttr(Keyword::Signed) => SEMICOLON, put_object!(AddSigned)),
];

const COUNTER_ATTRS: Rows = &[
    row!(key!(Counts) => COLON, object!(CounterType), object!(MoreAttrs)),
    row!(Class::NewStateAttr(Keyword::Width) => COLON, A_NUMBER, SEMICOLON, put_object!(AddWidth),
        object!(CounterAttrs)),
    row!(Class::NewStateAttr(Keyword::Layout) => COLON, A_NAME, SEMICOLON, put_object!(AddLayout),
        object!(CounterAttrs)),
    like!(Word::Object(ObjectWord::Attr) => object!(CounterAttrs)),
];

const REGISTER_ATTRS: Rows = &[
    row!(key!(Width) => COLON, A_NUMBER, SEMICOLON, put_object!(AddWidth), object!(MoreAttrs)),
    row!(key!(Layout) => COLON, A_NAME, SEMICOLON, put_object!(AddLayout), object!(MoreAttrs)),
    row!(Class::NewStateAttr(Keyword::Counts) => COLON, object!(CounterType),
        object!(RegisterAttrs)),
    like!(Word::Object(ObjectWord::Attr) => object!(RegisterAttrs)),
];

const MORE_ATTRS: Rows = &[
    row!(Class::NewStateAttr(Keyword::Counts) => COLON, object!(CounterType), object!(MoreAttrs)),
    row!(Class::NewStateAttr(Keyword::Width) => COLON, A_NUMBER, SEMICOLON, put_object!(AddWidth),
        object!(MoreAttrs)),
    row!(Class::NewStateAttr(Keyword::Layout) => COLON, A_NAME, SEMICOLON, put_object!(AddLayout),
        object!(MoreAttrs)),
    like!(Word::Object(ObjectWord::Attr) => object!(MoreAttrs)),
];

const COUNTER_TYPE: Rows = &[
    row!(key!(Packets) => SEMICOLON, put_object!(AddCounts(CounterType::Packets))),
    row!(key!(Bytes) => SEMICOLON, put_object!(AddCounts(CounterType::Bytes))),
    row!(key!(PacketsAndBytes) => SEMICOLON, put_object!(AddCounts(CounterType::PacketsAndBytes))),
];

/// The rows of a word for counters, meters and registers, and what it does where none of them fits.
pub fn rows_of(word: ObjectWord) -> Told
    ensures rows { told [] result.rows.now ≡ object_rows word }
    ensures otherwise { result.otherwise ≡ object_otherwise word }
{
    match word {
        ObjectWord::Attr => refuse!(ATTR),
        ObjectWord::CounterAttrs => refuse!(COUNTER_ATTRS),
        ObjectWord::RegisterAttrs => refuse!(REGISTER_ATTRS),
        ObjectWord::MoreAttrs => pass!(MORE_ATTRS),
        ObjectWord::CounterType => refuse!(COUNTER_TYPE),
    }
}
