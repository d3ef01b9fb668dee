// The rows of the words for actions.
ghost use Rattle.std.specs.Prelude.{◌≡◌, []};
ghost use Rattle.predictive_parser.specs.Told.{told};
ghost use Rattle.p414_reader.specs.internal.Rows.{call_rows, call_otherwise};

use crate::rows::{A_NUMBER, PAREN_CLOSE, PAREN_OPEN, Rows, SEMICOLON, Told};
use crate::symbols::{Action, CallAction, CallWord, Class, PartAction, PartWord, Word};
use p414_syntax::{Mark, Sign};
use predictive_parser::{Otherwise, Row, Symbol, WordRows};

const PARAMS: Rows = &[row!(Class::Name => put_part!(AddName), part!(MoreNames))];

const CALLS: Rows = &[
    row!(Class::Name => PAREN_OPEN, put_call!(NoArgs), call!(Args), PAREN_CLOSE, SEMICOLON,
        put_call!(AddCall), call!(Calls)),
];

const ARG: Rows = &[
    row!(mark!(Plus) => A_NUMBER, put_part!(Number(Some(Sign::Plus))), put_call!(AddArgNumber)),
    row!(mark!(Minus) => A_NUMBER, put_part!(Number(Some(Sign::Minus))), put_call!(AddArgNumber)),
    row!(Class::Number => put_part!(Number(None)), put_call!(AddArgNumber)),
    row!(Class::Name => part!(IndexOption), put_part!(Inst), part!(FieldOption), put_call!(AddArg)),
];

const ARGS: Rows = &[like!(Word::Call(CallWord::Arg) => call!(MoreArgs))];

const MORE_ARGS: Rows = &[row!(mark!(Comma) => call!(Arg), call!(MoreArgs))];

/// The rows of a word for actions, and what it does where none of them fits.
pub fn rows_of(word: CallWord) -> Told
    ensures rows { told [] result.rows.now ≡ call_rows word }
    ensures otherwise { result.otherwise ≡ call_otherwise word }
{
    match word {
        CallWord::Params => pass!(PARAMS),
        CallWord::Calls => pass!(CALLS),
        CallWord::Arg => refuse!(ARG),
        CallWord::Args => pass!(ARGS),
        CallWord::MoreArgs => pass!(MORE_ARGS),
    }
}
