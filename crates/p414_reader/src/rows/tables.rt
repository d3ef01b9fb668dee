// The rows of the words for tables.
ghost use Rattle.std.specs.Prelude.{◌≡◌, []};
ghost use Rattle.predictive_parser.specs.Told.{told};
ghost use Rattle.p414_reader.specs.internal.Rows.{table_rows, table_otherwise};

use crate::rows::{A_NAME, A_NUMBER, BRACE_CLOSE, BRACE_OPEN, COLON, Rows, SEMICOLON, Told};
use crate::symbols::{Action, Class, PartAction, PartWord, TableAction, TableWord, Word};
use p414_syntax::Keyword;
use predictive_parser::{Otherwise, Row, Symbol, WordRows};

const ATTR: Rows = &[
    row!(Class::NewTableAttr(Keyword::Reads) => BRACE_OPEN, put_table!(NoReads), table!(Reads),
        BRACE_CLOSE, put_table!(AddReads)),
    row!(Class::NewTableAttr(Keyword::MinSize) => COLON, A_NUMBER, SEMICOLON,
        put_table!(AddMinSize)),
    row!(Class::NewTableAttr(Keyword::MaxSize) => COLON, A_NUMBER, SEMICOLON,
        put_table!(AddMaxSize)),
    row!(Class::NewTableAttr(Keyword::Size) => COLON, A_NUMBER, SEMICOLON, put_table!(AddSize)),
    row!(Class::NewTableAttr(Keyword::SupportTimeout) => COLON, table!(Timeout)),
    row!(Class::NewTableAttr(Keyword::DefaultAction) => COLON, A_NAME, part!(Arguments), SEMICOLON,
        put_table!(AddDefaultAction)),
];

const ATTRS: Rows = &[
    row!(key!(Actions) => BRACE_OPEN, put_part!(NoNames), A_NAME, SEMICOLON, put_part!(AddName),
        part!(NameLines), BRACE_CLOSE, put_table!(AddActions), table!(MoreAttrs)),
    row!(key!(ActionProfile) => COLON, A_NAME, SEMICOLON, put_table!(AddProfile),
        table!(MoreAttrs)),
    like!(Word::Table(TableWord::Attr) => table!(Attrs)),
];

const MORE_ATTRS: Rows = &[
    row!(Class::NewTableAttr(Keyword::Actions) => BRACE_OPEN, put_part!(NoNames), A_NAME, SEMICOLON,
        put_part!(AddName), part!(NameLines), BRACE_CLOSE, put_table!(AddActions),
        table!(MoreAttrs)),
    row!(Class::NewTableAttr(Keyword::ActionProfile) => COLON, A_NAME, SEMICOLON,
        put_table!(AddProfile), table!(MoreAttrs)),
    like!(Word::Table(TableWord::Attr) => table!(MoreAttrs)),
];

const TIMEOUT: Rows = &[
    row!(key!(True) => SEMICOLON, put_table!(AddTimeout(true))),
    row!(key!(False) => SEMICOLON, put_table!(AddTimeout(false))),
];

const READS: Rows = &[
    row!(Class::Name => part!(IndexOption), put_part!(Inst), part!(FieldOption), part!(MaskOption),
        COLON, A_NAME, SEMICOLON, put_table!(AddRead), table!(Reads)),
];

/// The rows of a word for tables, and what it does where none of them fits.
pub fn rows_of(word: TableWord) -> Told
    ensures rows { told [] result.rows.now ≡ table_rows word }
    ensures otherwise { result.otherwise ≡ table_otherwise word }
{
    match word {
        TableWord::Attr => refuse!(ATTR),
        TableWord::Attrs => refuse!(ATTRS),
        TableWord::MoreAttrs => pass!(MORE_ATTRS),
        TableWord::Timeout => refuse!(TIMEOUT),
        TableWord::Reads => pass!(READS),
    }
}
