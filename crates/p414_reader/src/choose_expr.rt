// Which row of an expression's word is taken: what follows an operator depends on how tightly it binds.
ghost use Rattle.std.specs.Prelude.{◌≡◌, ◌<◌, length, Some, None, IfOk, slice_get};
ghost use Rattle.p414_syntax.specs.declared.lexeme.Lexeme.{Lexeme};
ghost use Rattle.p414_reader.specs.declared.symbols.BodyWord.TheVariants as BodyWord;
ghost use Rattle.p414_reader.specs.internal.Classes.{prefix_of};
ghost use Rattle.p414_reader.specs.internal.Rows as specs;
ghost use Rattle.p414_reader.specs.internal.Coded.{ChoosesLine, body_coded, coded};
ghost use Rattle.p414_tok.specs.Lexemes.{lexemes};

use crate::operators::{binary_power, infix_of, prefix_of, unary_power};
use crate::reading::Reading;
use crate::rows::{DOT, PAREN_CLOSE, PAREN_OPEN, Sym};
use crate::symbols::{Action, BodyAction, BodyWord, Class, PartAction, PartWord, Word};
use crate::token::token_at;
use p4x_bits::OutOfMemory;
use p414_syntax::{Keyword, Mark};
use predictive_parser::{Alternative, Stack, Symbol, behind_operator, choose_first};

const EXPR: Sym = Symbol::Word(Word::Body(BodyWord::Expr(0)));

const EXPR_INST: Sym = Symbol::Word(Word::Body(BodyWord::ExprInst));

const INDEX_OPTION: Sym = Symbol::Word(Word::Part(PartWord::IndexOption));

const FIELD_NAME: Sym = Symbol::Token(Class::ExpressionName);

const PUT_NUMBER: Sym = Symbol::Put(Action::Body(BodyAction::Number));

const PUT_TRUE: Sym = Symbol::Put(Action::Body(BodyAction::Truth(true)));

const PUT_FALSE: Sym = Symbol::Put(Action::Body(BodyAction::Truth(false)));

const PUT_VALID: Sym = Symbol::Put(Action::Body(BodyAction::Valid));

const PUT_PARENTHESIZED: Sym = Symbol::Put(Action::Body(BodyAction::Parenthesized));

const PUT_INST: Sym = Symbol::Put(Action::Part(PartAction::Inst));

const PUT_REF: Sym = Symbol::Put(Action::Part(PartAction::Ref));

const PUT_FIELD: Sym = Symbol::Put(Action::Body(BodyAction::Field));

/// The class of the first row of the word that fits the token at this place, where the rows depend on a number. The
/// symbols of the row are put onto the stack, with `more` behind them.
pub fn choose_coded(
    reading: &Reading<'_>,
    word: Word,
    more: &[Sym],
    place: usize,
    stack: &mut Stack<Class, Action, Word>,
) -> Result<Option<Class>, OutOfMemory>
    requires { place < length reading.now.tokens.now }
    ensures chooses { IfOk result (λ class. ChoosesLine (lexemes reading.now.text.now reading.now.tokens.now) place reading.now.built (coded word) more.now class stack.old stack.new) }
    ensures none { IfOk result (λ class. class ≡ None → stack.new ≡ stack.old) }
{
    match word {
        Word::Body(BodyWord::Expr(least)) => choose_expr(reading, least, more, place, stack),
        Word::Body(BodyWord::Operators(least, most)) => choose_operator(
            reading, least, most, more, place, stack,
        ),
        _ => Ok(None),
    }
}

/// An expression whose operators bind at least so tightly, and `more` behind it.
fn choose_expr(
    reading: &Reading<'_>,
    least: u8,
    more: &[Sym],
    place: usize,
    stack: &mut Stack<Class, Action, Word>,
) -> Result<Option<Class>, OutOfMemory>
    requires { place < length reading.now.tokens.now }
    ensures chooses { IfOk result (λ class. ChoosesLine (lexemes reading.now.text.now reading.now.tokens.now) place reading.now.built (body_coded (BodyWord.Expr least)) more.now class stack.old stack.new) }
    ensures none { IfOk result (λ class. class ≡ None → stack.new ≡ stack.old) }
{
    match prefix_of(token_at(reading.text, reading.tokens, place)) {
        None => choose_operand(reading, least, &[], more, place, stack),
        Some(operator) => {
            let power = unary_power(operator);
            let prefix = behind_operator(
                Word::Body(BodyWord::Expr(power)),
                Action::Body(BodyAction::Unary(operator)),
                Word::Body(BodyWord::Operators(least, power)),
            );
            choose_operand(reading, least, &prefix, more, place, stack)
        }
    }
}

/// The same, where these symbols follow an operator before an operand.
fn choose_operand(
    reading: &Reading<'_>,
    least: u8,
    prefix: &[Sym],
    more: &[Sym],
    place: usize,
    stack: &mut Stack<Class, Action, Word>,
) -> Result<Option<Class>, OutOfMemory>
    requires { place < length reading.now.tokens.now }
    ensures chooses { (token : Lexeme) → slice_get (lexemes reading.now.text.now reading.now.tokens.now) place ≡ Some token → prefix.now ≡ specs.prefix_rest least (prefix_of token)
        → IfOk result (λ class. ChoosesLine (lexemes reading.now.text.now reading.now.tokens.now) place reading.now.built (body_coded (BodyWord.Expr least)) more.now class stack.old stack.new) }
    ensures none { IfOk result (λ class. class ≡ None → stack.new ≡ stack.old) }
{
    let operators = Symbol::Word(Word::Body(BodyWord::Operators(least, 12)));
    let rows = [
        Alternative {
            first: Class::Number,
            rest: &[PUT_NUMBER, operators],
        },
        Alternative {
            first: Class::Word(Keyword::True),
            rest: &[PUT_TRUE, operators],
        },
        Alternative {
            first: Class::Word(Keyword::False),
            rest: &[PUT_FALSE, operators],
        },
        Alternative {
            first: Class::Word(Keyword::Valid),
            rest: &[PAREN_OPEN, EXPR_INST, PAREN_CLOSE, PUT_VALID, operators],
        },
        Alternative {
            first: Class::Mark(Mark::ParenOpen),
            rest: &[EXPR, PAREN_CLOSE, PUT_PARENTHESIZED, operators],
        },
        Alternative {
            first: Class::Prefix(least),
            rest: prefix,
        },
        Alternative {
            first: Class::ExpressionName,
            rest: &[
                INDEX_OPTION,
                PUT_INST,
                DOT,
                FIELD_NAME,
                PUT_REF,
                PUT_FIELD,
                operators,
            ],
        },
    ];
    choose_first(reading, &rows, more, place, stack)
}

/// What stands behind an operand, and `more` behind it.
fn choose_operator(
    reading: &Reading<'_>,
    least: u8,
    most: u8,
    more: &[Sym],
    place: usize,
    stack: &mut Stack<Class, Action, Word>,
) -> Result<Option<Class>, OutOfMemory>
    requires { place < length reading.now.tokens.now }
    ensures chooses { IfOk result (λ class. ChoosesLine (lexemes reading.now.text.now reading.now.tokens.now) place reading.now.built (body_coded (BodyWord.Operators least most)) more.now class stack.old stack.new) }
    ensures none { IfOk result (λ class. class ≡ None → stack.new ≡ stack.old) }
{
    let first = Class::Infix(least, most);
    match infix_of(token_at(reading.text, reading.tokens, place)) {
        None => choose_first(
            reading,
            &[Alternative { first, rest: &[] }],
            more,
            place,
            stack,
        ),
        Some(operator) => {
            let power = binary_power(operator);
            let rest = behind_operator(
                Word::Body(BodyWord::Expr(power + 1)),
                Action::Body(BodyAction::Binary(operator)),
                Word::Body(BodyWord::Operators(least, power)),
            );
            choose_first(
                reading,
                &[Alternative { first, rest: &rest }],
                more,
                place,
                stack,
            )
        }
    }
}
