// The tokens of operators.
ghost use Rattle.std.specs.Prelude.{◌≡◌};
ghost use Rattle.p416_exp_writer.specs.Layouts.{prefix_mark, operator_token, truth_word};

use p416_sheet::Token16;
use p416_syntax::{BinaryOperator, Keyword16, Mark16, UnaryOperator};

pub fn truth_word(value: bool) -> Keyword16
    ensures { result ≡ truth_word value }
{
    if value {
        Keyword16::True
    } else {
        Keyword16::False
    }
}

pub fn prefix_mark(operator: UnaryOperator) -> Mark16
    ensures { result ≡ prefix_mark operator }
{
    match operator {
        UnaryOperator::Not => Mark16::Bang,
        UnaryOperator::Complement => Mark16::Tilde,
        UnaryOperator::Negate => Mark16::Minus,
    }
}

pub fn operator_token(operator: BinaryOperator) -> Token16<'static>
    ensures { result ≡ operator_token operator }
{
    match operator {
        BinaryOperator::Multiply => Token16::Mark(Mark16::Star),
        BinaryOperator::Add => Token16::Mark(Mark16::Plus),
        BinaryOperator::Subtract => Token16::Mark(Mark16::Minus),
        BinaryOperator::SaturatingAdd => Token16::Mark(Mark16::SaturatingPlus),
        BinaryOperator::SaturatingSubtract => Token16::Mark(Mark16::SaturatingMinus),
        BinaryOperator::Concatenate => Token16::Mark(Mark16::PlusPlus),
        BinaryOperator::ShiftLeft => Token16::Mark(Mark16::ShiftLeft),
        BinaryOperator::ShiftRight => Token16::ShiftRight,
        BinaryOperator::BitAnd => Token16::Mark(Mark16::Ampersand),
        BinaryOperator::BitXor => Token16::Mark(Mark16::Caret),
        BinaryOperator::BitOr => Token16::Mark(Mark16::Bar),
        BinaryOperator::Less => Token16::Mark(Mark16::Less),
        BinaryOperator::LessEqual => Token16::Mark(Mark16::LessEqual),
        BinaryOperator::Greater => Token16::Mark(Mark16::Greater),
        BinaryOperator::GreaterEqual => Token16::Mark(Mark16::GreaterEqual),
        BinaryOperator::Equal => Token16::Mark(Mark16::Equal),
        BinaryOperator::NotEqual => Token16::Mark(Mark16::NotEqual),
        BinaryOperator::And => Token16::Mark(Mark16::AndAnd),
        BinaryOperator::Or => Token16::Mark(Mark16::OrOr),
    }
}
