// Which row of the operators is taken: what follows an operator depends on how tightly it binds.
ghost use Rattle.std.specs.Prelude.{◌≡◌, ◌<◌, length, Some, None, IfOk, slice_get};
ghost use Rattle.p416_syntax.specs.Tokens.{Seen16};
ghost use Rattle.p416_reader.specs.internal.Classes.{infix_of};
ghost use Rattle.p416_reader.specs.internal.Rows as specs;
ghost use Rattle.p416_reader.specs.internal.Coded.{ChoosesLine, OperatorLines, coded};

use crate::operators::{binary_power, infix_of};
use crate::reading::Reading;
use crate::rows::{COLON, GREATER, Sym};
use crate::symbols::{Action, BodyAction, BodyWord, Class, Word};
use p4x_bits::OutOfMemory;
use p416_syntax::BinaryOperator;
use predictive_parser::{Alternative, Stack, Symbol, choose_first};

const OPERAND: Sym = Symbol::Word(Word::Body(BodyWord::Operand));

const EXP: Sym = Symbol::Word(Word::Body(BodyWord::Exp));

const PUT_CHOICE: Sym = Symbol::Put(Action::Body(BodyAction::Choice));

/// The class of the first row of the word that fits the token at this place, where the rows depend on a number. The
/// symbols of the row are put onto the stack, with `more` behind them.
pub fn choose_coded(
    reading: &Reading<'_>,
    word: Word,
    more: &[Sym],
    place: usize,
    stack: &mut Stack<Class, Action, Word>,
) -> Result<Option<Class>, OutOfMemory>
    requires { place < length reading.now.seen }
    ensures chooses { IfOk result (λ class. ChoosesLine reading.now.seen place reading.now.built (coded word) more.now class stack.old stack.new) }
    ensures none { IfOk result (λ class. class ≡ None → stack.new ≡ stack.old) }
{
    match word {
        Word::Body(BodyWord::Operators(least, most)) => choose_operator(
            reading, least, most, more, place, stack,
        ),
        Word::Body(BodyWord::SomeOperators) => choose_operator(reading, 0, 11, more, place, stack),
        _ => Ok(None),
    }
}

/// An operator between operands with what stands behind it, and `more` behind that.
fn choose_operator(
    reading: &Reading<'_>,
    least: u8,
    most: u8,
    more: &[Sym],
    place: usize,
    stack: &mut Stack<Class, Action, Word>,
) -> Result<Option<Class>, OutOfMemory>
    requires { place < length reading.now.seen }
    ensures chooses { IfOk result (λ class. ChoosesLine reading.now.seen place reading.now.built (OperatorLines least most) more.now class stack.old stack.new) }
    ensures none { IfOk result (λ class. class ≡ None → stack.new ≡ stack.old) }
{
    match infix_of(reading.seen.token_at(place)) {
        None => choose_row(reading, least, most, &[], more, place, stack),
        Some(BinaryOperator::ShiftRight) => {
            let right = Symbol::Word(Word::Body(BodyWord::Operators(9, 11)));
            let put = Symbol::Put(Action::Body(BodyAction::Binary(BinaryOperator::ShiftRight)));
            let next = Symbol::Word(Word::Body(BodyWord::Operators(least, 8)));
            let rest = [GREATER, OPERAND, right, put, next];
            choose_row(reading, least, most, &rest, more, place, stack)
        }
        Some(operator) => {
            let power = binary_power(operator);
            let right = Symbol::Word(Word::Body(BodyWord::Operators(power + 1, 11)));
            let put = Symbol::Put(Action::Body(BodyAction::Binary(operator)));
            let next = Symbol::Word(Word::Body(BodyWord::Operators(least, power)));
            let rest = [OPERAND, right, put, next];
            choose_row(reading, least, most, &rest, more, place, stack)
        }
    }
}

/// The same, where these symbols follow the operator.
fn choose_row(
    reading: &Reading<'_>,
    least: u8,
    most: u8,
    following: &[Sym],
    more: &[Sym],
    place: usize,
    stack: &mut Stack<Class, Action, Word>,
) -> Result<Option<Class>, OutOfMemory>
    requires { place < length reading.now.seen }
    ensures chooses { (token : Seen16) → slice_get reading.now.seen place ≡ Some token → following.now ≡ specs.infix_rest least (infix_of token)
        → IfOk result (λ class. ChoosesLine reading.now.seen place reading.now.built (OperatorLines least most) more.now class stack.old stack.new) }
    ensures none { IfOk result (λ class. class ≡ None → stack.new ≡ stack.old) }
{
    let rows = [
        Alternative {
            first: Class::Infix(least, most),
            rest: following,
        },
        Alternative {
            first: Class::Question(least, most),
            rest: &[EXP, COLON, EXP, PUT_CHOICE],
        },
    ];
    choose_first(reading, &rows, more, place, stack)
}
