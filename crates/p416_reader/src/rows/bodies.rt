// The rows of the words for expressions and statements.
ghost use Rattle.std.specs.Prelude.{◌≡◌};
ghost use Rattle.predictive_parser.specs.Told.{told};
ghost use Rattle.p416_reader.specs.internal.Rows.{body_rows, body_otherwise};
ghost use Rattle.p416_reader.specs.internal.Coded.{body_coded};

use crate::rows::{
    A_NAME, A_NUMBER, BRACE_CLOSE, BRACE_OPEN, BRACKET_CLOSE, COLON, DOT, GREATER, LESS,
    PAREN_CLOSE, PAREN_OPEN, Rows, SEMICOLON, Told,
};
use crate::symbols::{Action, BodyAction, BodyWord, Class, Known, PartAction, PartWord, Word};
use p416_syntax::{Keyword16, Mark16, UnaryOperator};
use predictive_parser::{Otherwise, Row, Symbol, WordRows};

const CODED: Rows = &[Row::Coded];

const EXP: Rows = &[like!(Word::Body(BodyWord::Operand) => body!(Operators(0, 11)))];

const OPERAND: Rows = &[
    row!(Class::Number => put_body!(Number), body!(Postfix)),
    row!(key!(True) => put_body!(Truth(true)), body!(Postfix)),
    row!(key!(False) => put_body!(Truth(false)), body!(Postfix)),
    row!(key!(Error) => put_body!(Error), body!(Postfix)),
    row!(Class::Name => put_body!(Name), body!(Postfix)),
    row!(mark!(ParenOpen) => body!(AfterParen)),
    row!(mark!(Bang) => body!(Operand), put_body!(Unary(UnaryOperator::Not))),
    row!(mark!(Tilde) => body!(Operand), put_body!(Unary(UnaryOperator::Complement))),
    row!(mark!(Minus) => body!(Operand), put_body!(Unary(UnaryOperator::Negate))),
];

const PLAIN_OPERAND: Rows = &[
    row!(Class::Number => put_body!(Number), body!(Postfix)),
    row!(key!(True) => put_body!(Truth(true)), body!(Postfix)),
    row!(key!(False) => put_body!(Truth(false)), body!(Postfix)),
    row!(key!(Error) => put_body!(Error), body!(Postfix)),
    row!(Class::Name => put_body!(Name), body!(Postfix)),
    row!(mark!(Bang) => body!(Operand), put_body!(Unary(UnaryOperator::Not))),
    row!(mark!(Tilde) => body!(Operand), put_body!(Unary(UnaryOperator::Complement))),
    row!(mark!(Minus) => body!(Operand), put_body!(Unary(UnaryOperator::Negate))),
];

const AFTER_PAREN: Rows = &[
    row!(key!(Bit) => LESS, A_NUMBER, GREATER, PAREN_CLOSE, body!(Operand), put_body!(CastBit)),
    row!(key!(Bool) => PAREN_CLOSE, body!(Operand), put_body!(CastBool)),
    like!(Word::Body(BodyWord::Operand) => body!(Operators(0, 11)), PAREN_CLOSE, body!(Postfix)),
];

const SOME_POSTFIX: Rows = &[
    row!(mark!(Dot) => body!(AfterDot), body!(Postfix)),
    row!(mark!(BracketOpen) => A_NUMBER, body!(AfterNumber), body!(Postfix)),
    row!(mark!(ParenOpen) => put_body!(NoArguments), body!(Args), PAREN_CLOSE, put_body!(Call),
        body!(Postfix)),
];

const POSTFIX: Rows = &[like!(Word::Body(BodyWord::SomePostfix) =>)];

const AFTER_DOT: Rows = &[
    row!(known!(Lookahead) => body!(AfterLookahead)),
    row!(Class::AnyWord => put_body!(Member)),
];

const AFTER_LOOKAHEAD: Rows = &[
    row!(Class::Opens => part!(TypeOf), GREATER, PAREN_OPEN, put_body!(NoArguments), body!(Args),
        PAREN_CLOSE, put_body!(Lookahead)),
];

const AFTER_NUMBER: Rows = &[
    row!(mark!(BracketClose) => put_body!(Index)),
    row!(mark!(Colon) => A_NUMBER, BRACKET_CLOSE, put_body!(Slice)),
];

const ARGS: Rows = &[
    row!(mark!(BraceOpen) => put_body!(NoArguments), body!(Items), BRACE_CLOSE, put_body!(Listed),
        put_body!(AddArgument), body!(MoreArgs)),
    like!(Word::Body(BodyWord::Operand) => body!(Operators(0, 11)), put_body!(AddArgument),
        body!(MoreArgs)),
];

const ARG: Rows = &[
    row!(mark!(BraceOpen) => put_body!(NoArguments), body!(Items), BRACE_CLOSE, put_body!(Listed),
        put_body!(AddArgument)),
    like!(Word::Body(BodyWord::Operand) => body!(Operators(0, 11)), put_body!(AddArgument)),
];

const MORE_ARGS: Rows = &[row!(mark!(Comma) => body!(Arg), body!(MoreArgs))];

const ITEMS: Rows = &[
    like!(Word::Body(BodyWord::Operand) => body!(Operators(0, 11)), put_body!(AddArgument),
        body!(MoreItems)),
];

const MORE_ITEMS: Rows = &[
    row!(mark!(Comma) => body!(Exp), put_body!(AddArgument), body!(MoreItems)),
];

const PLAIN_STMT: Rows = &[
    row!(mark!(BraceOpen) => put_body!(NoStatements), body!(Stmts), BRACE_CLOSE, put_body!(Block)),
    row!(mark!(Semicolon) => put_body!(Empty)),
    row!(key!(Bit) => LESS, A_NUMBER, GREATER, put_part!(TypeBit), A_NAME, body!(VarEnd)),
    row!(key!(Bool) => put_part!(TypeBool), A_NAME, body!(VarEnd)),
    row!(Class::Name => put_body!(Name), body!(Postfix), body!(Operators(0, 11)), body!(NamedEnd)),
    row!(key!(If) => PAREN_OPEN, body!(Exp), PAREN_CLOSE, body!(Stmt), body!(ElseOption)),
    row!(key!(Switch) => PAREN_OPEN, A_NAME, DOT, quoted!(Apply), PAREN_OPEN, PAREN_CLOSE, DOT,
        quoted!(ActionRun), PAREN_CLOSE, BRACE_OPEN, put_body!(NoCases), body!(Cases),
        BRACE_CLOSE, put_body!(Switch)),
];

const STMT: Rows = &[
    like!(Word::Body(BodyWord::PlainStmt) =>),
    like!(Word::Body(BodyWord::Operand) => body!(Operators(0, 11)), body!(StmtEnd)),
];

const STMTS: Rows = &[
    like!(Word::Body(BodyWord::PlainStmt) => put_body!(Then), body!(Stmts)),
    like!(Word::Body(BodyWord::Operand) => body!(Operators(0, 11)), body!(StmtEnd),
        put_body!(Then), body!(Stmts)),
];

const STMT_END: Rows = &[
    row!(mark!(Assign) => body!(Exp), SEMICOLON, put_body!(Assign)),
    row!(Class::CallEnd => put_body!(Expression)),
];

const NAMED_END: Rows = &[
    row!(Class::VarName => put_body!(TypeOfExp), body!(VarEnd)),
    row!(mark!(Assign) => body!(Exp), SEMICOLON, put_body!(Assign)),
    row!(Class::CallEnd => put_body!(Expression)),
];

const VAR_END: Rows = &[
    row!(mark!(Assign) => body!(Exp), SEMICOLON, put_body!(VarIs)),
    row!(mark!(Semicolon) => put_body!(Var)),
];

const ELSE_OPTION: Rows = &[row!(Class::Else => body!(Stmt), put_body!(IfElse))];

const CASES: Rows = &[
    row!(Class::Name => COLON, BRACE_OPEN, put_body!(NoStatements), body!(Stmts), BRACE_CLOSE,
        put_body!(CaseAction), body!(Cases)),
    row!(key!(Default) => COLON, BRACE_OPEN, put_body!(NoStatements), body!(Stmts), BRACE_CLOSE,
        put_body!(CaseDefault), body!(Cases)),
];

/// The rows of a word for expressions and statements, and what it does where none of them fits.
pub fn rows_of(word: BodyWord) -> Told
    ensures rows { told (body_coded word) result.rows.now ≡ body_rows word }
    ensures otherwise { result.otherwise ≡ body_otherwise word }
{
    match word {
        BodyWord::Exp => refuse!(EXP),
        BodyWord::Operand => refuse!(OPERAND),
        BodyWord::PlainOperand => refuse!(PLAIN_OPERAND),
        BodyWord::AfterParen => refuse!(AFTER_PAREN),
        BodyWord::SomePostfix => refuse!(SOME_POSTFIX),
        BodyWord::Postfix => pass!(POSTFIX),
        BodyWord::AfterDot => refuse!(AFTER_DOT),
        BodyWord::AfterLookahead =>
            build!(AFTER_LOOKAHEAD => Action::Body(BodyAction::MemberLookahead)),
        BodyWord::AfterNumber => refuse!(AFTER_NUMBER),
        BodyWord::Args => pass!(ARGS),
        BodyWord::Arg => refuse!(ARG),
        BodyWord::MoreArgs => pass!(MORE_ARGS),
        BodyWord::Items => pass!(ITEMS),
        BodyWord::MoreItems => pass!(MORE_ITEMS),
        BodyWord::Operators(_, _) => pass!(CODED),
        BodyWord::SomeOperators => refuse!(CODED),
        BodyWord::PlainStmt => refuse!(PLAIN_STMT),
        BodyWord::Stmt => refuse!(STMT),
        BodyWord::Stmts => pass!(STMTS),
        BodyWord::StmtEnd => refuse!(STMT_END),
        BodyWord::NamedEnd => refuse!(NAMED_END),
        BodyWord::VarEnd => refuse!(VAR_END),
        BodyWord::ElseOption => build!(ELSE_OPTION => Action::Body(BodyAction::If)),
        BodyWord::Cases => pass!(CASES),
    }
}
