// The rows of the words for expressions and controls.
ghost use Rattle.std.specs.Prelude.{◌≡◌};
ghost use Rattle.predictive_parser.specs.Told.{told};
ghost use Rattle.p414_reader.specs.internal.Rows.{body_rows, body_otherwise};
ghost use Rattle.p414_reader.specs.internal.Coded.{body_coded};

use crate::rows::{BRACE_CLOSE, BRACE_OPEN, PAREN_CLOSE, PAREN_OPEN, Rows, SEMICOLON, Told};
use crate::symbols::{Action, BodyAction, BodyWord, Class, PartAction, PartWord, Word};
use p414_syntax::{Keyword, Mark};
use predictive_parser::{Otherwise, Row, Symbol, WordRows};

const CODED: Rows = &[Row::Coded];

const EXPR_INST: Rows = &[row!(Class::ExpressionName => part!(IndexOption), put_part!(Inst))];

const STATEMENTS: Rows = &[
    row!(key!(Apply) => PAREN_OPEN, body!(AfterApply), body!(Statements)),
    row!(key!(If) => PAREN_OPEN, body!(AfterIf), body!(Statements)),
    row!(Class::Name => PAREN_OPEN, PAREN_CLOSE, SEMICOLON, put_body!(AddCall), body!(Statements)),
];

const AFTER_APPLY: Rows = &[
    row!(mark!(ParenClose) => SEMICOLON, put_body!(AddCallOf(Keyword::Apply))),
    row!(Class::Name => PAREN_CLOSE, body!(ApplyEnd)),
];

const APPLY_END: Rows = &[
    row!(mark!(Semicolon) => put_body!(AddApply)),
    row!(mark!(BraceOpen) => put_body!(NoBranches), body!(Branches), BRACE_CLOSE,
        put_body!(AddApplyBranches)),
];

const AFTER_IF: Rows = &[
    row!(mark!(ParenClose) => SEMICOLON, put_body!(AddCallOf(Keyword::If))),
    like!(Word::Body(BodyWord::Expr(0)) => PAREN_CLOSE, BRACE_OPEN, put_body!(NoStatements),
        body!(Statements), BRACE_CLOSE, body!(ElseOption), put_body!(AddIf)),
];

const ELSE_OPTION: Rows = &[row!(key!(Else) => body!(AfterElse))];

const AFTER_ELSE: Rows = &[
    row!(mark!(BraceOpen) => put_body!(NoStatements), body!(Statements), BRACE_CLOSE,
        put_body!(ElseBlock)),
    row!(key!(If) => PAREN_OPEN, body!(Expr(0)), PAREN_CLOSE, BRACE_OPEN, put_body!(NoStatements),
        body!(Statements), BRACE_CLOSE, body!(ElseOption), put_body!(ElseIf)),
    row!(mark!(ParenOpen) => PAREN_CLOSE, SEMICOLON, put_body!(NoElseThenCall)),
];

const BRANCHES: Rows = &[
    row!(Class::NewLabel => BRACE_OPEN, put_body!(NoStatements), body!(Statements), BRACE_CLOSE,
        put_body!(AddBranch), body!(Branches)),
];

/// The rows of a word for expressions and controls, and what it does where none of them fits.
pub fn rows_of(word: BodyWord) -> Told
    ensures rows { told (body_coded word) result.rows.now ≡ body_rows word }
    ensures otherwise { result.otherwise ≡ body_otherwise word }
{
    match word {
        BodyWord::Expr(_) => refuse!(CODED),
        BodyWord::Operators(_, _) => pass!(CODED),
        BodyWord::ExprInst => refuse!(EXPR_INST),
        BodyWord::Statements => pass!(STATEMENTS),
        BodyWord::AfterApply => refuse!(AFTER_APPLY),
        BodyWord::ApplyEnd => refuse!(APPLY_END),
        BodyWord::AfterIf => refuse!(AFTER_IF),
        BodyWord::ElseOption => build!(ELSE_OPTION => Action::Body(BodyAction::NoElse)),
        BodyWord::AfterElse => refuse!(AFTER_ELSE),
        BodyWord::Branches => pass!(BRANCHES),
    }
}
