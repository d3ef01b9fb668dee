// The rows of the words for field lists, calculations and calculated fields.
ghost use Rattle.std.specs.Prelude.{◌≡◌, []};
ghost use Rattle.predictive_parser.specs.Told.{told};
ghost use Rattle.p414_reader.specs.internal.Rows.{calculation_rows, calculation_otherwise};

use crate::rows::{
    A_NAME, A_NUMBER, BRACKET_CLOSE, DOT, EQUAL, PAREN_CLOSE, PAREN_OPEN, Rows, SEMICOLON, Told,
};
use crate::symbols::{
    Action, CalculationAction, CalculationWord, Class, PartAction, PartWord, Word,
};
use p414_syntax::{CalcUse, Keyword, Mark};
use predictive_parser::{Otherwise, Row, Symbol, WordRows};

const ITEMS: Rows = &[
    row!(Class::Number => SEMICOLON, put_calculation!(AddItemNumber), calculation!(Items)),
    row!(Class::Name => part!(IndexOption), put_part!(Inst), part!(FieldOption), SEMICOLON,
        put_calculation!(AddItem), calculation!(Items)),
];

const CALC: Rows = &[
    row!(key!(Update) => A_NAME, calculation!(CalcIf), SEMICOLON,
        put_calculation!(AddCalc(CalcUse::Update))),
    row!(key!(Verify) => A_NAME, calculation!(CalcIf), SEMICOLON,
        put_calculation!(AddCalc(CalcUse::Verify))),
];

const CALCS: Rows = &[like!(Word::Calculation(CalculationWord::Calc) => calculation!(Calcs))];

const CALC_IF: Rows = &[row!(key!(If) => PAREN_OPEN, calculation!(CalcCond), PAREN_CLOSE)];

const CALC_COND: Rows = &[
    row!(key!(Valid) => calculation!(AfterValid)),
    row!(Class::Name => part!(IndexOption), put_part!(Inst), DOT, A_NAME, put_part!(Ref), EQUAL,
        A_NUMBER, put_calculation!(CondEqual)),
];

const AFTER_VALID: Rows = &[
    row!(mark!(ParenOpen) => part!(Inst), PAREN_CLOSE, put_calculation!(CondValid)),
    row!(mark!(Dot) => A_NAME, put_part!(RefOf(Keyword::Valid)), EQUAL, A_NUMBER,
        put_calculation!(CondEqual)),
    row!(mark!(BracketOpen) => part!(IndexIn), BRACKET_CLOSE, put_part!(InstOf(Keyword::Valid)),
        DOT, A_NAME, put_part!(Ref), EQUAL, A_NUMBER, put_calculation!(CondEqual)),
];

/// The rows of a word for field lists, calculations and calculated fields, and what it does where none of them fits.
pub fn rows_of(word: CalculationWord) -> Told
    ensures rows { told [] result.rows.now ≡ calculation_rows word }
    ensures otherwise { result.otherwise ≡ calculation_otherwise word }
{
    match word {
        CalculationWord::Items => pass!(ITEMS),
        CalculationWord::Calc => refuse!(CALC),
        CalculationWord::Calcs => pass!(CALCS),
        CalculationWord::CalcIf =>
            build!(CALC_IF => Action::Calculation(CalculationAction::NoCond)),
        CalculationWord::CalcCond => refuse!(CALC_COND),
        CalculationWord::AfterValid => refuse!(AFTER_VALID),
    }
}
