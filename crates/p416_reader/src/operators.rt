// The operators of expressions.
ghost use Rattle.std.specs.Prelude.{◌≡◌, ◌≤◌};
ghost use Rattle.p416_syntax.specs.Operators.{binary_power};
ghost use Rattle.p416_reader.specs.internal.Classes.{infix_of, infix_mark, is_infix};
ghost use Rattle.p416_reader.specs.internal.Lexemes.{seen_of};

use crate::token::TokenView;
use p416_syntax::{BinaryOperator, Mark16};
use predictive_parser::may_follow;

/// The operator that a token is, or begins, if it is one between two operands.
pub fn infix_of(token: TokenView<'_>) -> Option<BinaryOperator>
    ensures { result ≡ infix_of (seen_of token.entry) }
{
    match token {
        TokenView::Mark(mark) => infix_mark(mark),
        TokenView::Joined => Some(BinaryOperator::ShiftRight),
        _ => None,
    }
}

/// The operator that a mark is, if it is one between two operands.
fn infix_mark(mark: Mark16) -> Option<BinaryOperator>
    ensures { result ≡ infix_mark mark }
{
    match mark {
        Mark16::Star => Some(BinaryOperator::Multiply),
        Mark16::Plus => Some(BinaryOperator::Add),
        Mark16::Minus => Some(BinaryOperator::Subtract),
        Mark16::SaturatingPlus => Some(BinaryOperator::SaturatingAdd),
        Mark16::SaturatingMinus => Some(BinaryOperator::SaturatingSubtract),
        Mark16::PlusPlus => Some(BinaryOperator::Concatenate),
        Mark16::ShiftLeft => Some(BinaryOperator::ShiftLeft),
        Mark16::Ampersand => Some(BinaryOperator::BitAnd),
        Mark16::Caret => Some(BinaryOperator::BitXor),
        Mark16::Bar => Some(BinaryOperator::BitOr),
        Mark16::Less => Some(BinaryOperator::Less),
        Mark16::LessEqual => Some(BinaryOperator::LessEqual),
        Mark16::Greater => Some(BinaryOperator::Greater),
        Mark16::GreaterEqual => Some(BinaryOperator::GreaterEqual),
        Mark16::Equal => Some(BinaryOperator::Equal),
        Mark16::NotEqual => Some(BinaryOperator::NotEqual),
        Mark16::AndAnd => Some(BinaryOperator::And),
        Mark16::OrOr => Some(BinaryOperator::Or),
        _ => None,
    }
}

/// Whether the token is, or begins, an operator between operands that binds at least as tightly as the first number and
/// at most as the second.
pub fn is_infix(least: u8, most: u8, token: TokenView<'_>) -> bool
    ensures { result ≡ is_infix least most (infix_of (seen_of token.entry)) }
{
    match infix_of(token) {
        Some(operator) => may_follow(least, most, binary_power(operator)),
        None => false,
    }
}

/// How tightly an operator between two operands binds.
pub fn binary_power(operator: BinaryOperator) -> u8
    ensures is { result ≡ binary_power operator }
    ensures small { result ≤ 10 }
{
    match operator {
        BinaryOperator::Multiply => 10,
        BinaryOperator::Add
        | BinaryOperator::Subtract
        | BinaryOperator::SaturatingAdd
        | BinaryOperator::SaturatingSubtract
        | BinaryOperator::Concatenate => 9,
        BinaryOperator::ShiftLeft | BinaryOperator::ShiftRight => 8,
        BinaryOperator::BitAnd => 7,
        BinaryOperator::BitXor => 6,
        BinaryOperator::BitOr => 5,
        BinaryOperator::Less
        | BinaryOperator::LessEqual
        | BinaryOperator::Greater
        | BinaryOperator::GreaterEqual => 4,
        BinaryOperator::Equal | BinaryOperator::NotEqual => 3,
        BinaryOperator::And => 2,
        BinaryOperator::Or => 1,
    }
}
