// The operators of expressions.
ghost use Rattle.std.specs.Prelude.{◌≡◌, ◌≤◌};
ghost use Rattle.p414_syntax.specs.Operators.{unary_power, binary_power};
ghost use Rattle.p414_reader.specs.internal.Classes.{prefix_of, infix_of, infix_mark, is_prefix, is_infix};
ghost use Rattle.p414_reader.specs.internal.Lexemes.{lexeme_of};

use crate::token::TokenView;
use p414_syntax::{BinaryOperator, Keyword, Mark, UnaryOperator};
use p414_tok::TokenKind14;
use predictive_parser::may_follow;

/// The operator that a token is, if it is one before an operand.
pub fn prefix_of(token: TokenView<'_>) -> Option<UnaryOperator>
    ensures { result ≡ prefix_of (lexeme_of token.entry) }
{
    match token.kind {
        TokenKind14::Name => {
            if token.is_word(Keyword::Not) {
                Some(UnaryOperator::Not)
            } else {
                None
            }
        }
        TokenKind14::Mark(Mark::Minus) => Some(UnaryOperator::Negate),
        TokenKind14::Mark(Mark::Tilde) => Some(UnaryOperator::Complement),
        TokenKind14::Mark(_) | TokenKind14::Number(_) => None,
    }
}

/// The operator that a token is, if it is one between two operands.
pub fn infix_of(token: TokenView<'_>) -> Option<BinaryOperator>
    ensures { result ≡ infix_of (lexeme_of token.entry) }
{
    match token.kind {
        TokenKind14::Name => {
            if token.is_word(Keyword::And) {
                Some(BinaryOperator::And)
            } else if token.is_word(Keyword::Or) {
                Some(BinaryOperator::Or)
            } else {
                None
            }
        }
        TokenKind14::Mark(mark) => infix_mark(mark),
        TokenKind14::Number(_) => None,
    }
}

/// The operator that a mark is, if it is one between two operands.
fn infix_mark(mark: Mark) -> Option<BinaryOperator>
    ensures { result ≡ infix_mark mark }
{
    match mark {
        Mark::Star => Some(BinaryOperator::Multiply),
        Mark::Plus => Some(BinaryOperator::Add),
        Mark::Minus => Some(BinaryOperator::Subtract),
        Mark::ShiftLeft => Some(BinaryOperator::ShiftLeft),
        Mark::ShiftRight => Some(BinaryOperator::ShiftRight),
        Mark::Ampersand => Some(BinaryOperator::BitAnd),
        Mark::Caret => Some(BinaryOperator::BitXor),
        Mark::Bar => Some(BinaryOperator::BitOr),
        Mark::Less => Some(BinaryOperator::Less),
        Mark::LessEqual => Some(BinaryOperator::LessEqual),
        Mark::Greater => Some(BinaryOperator::Greater),
        Mark::GreaterEqual => Some(BinaryOperator::GreaterEqual),
        Mark::Equal => Some(BinaryOperator::Equal),
        Mark::NotEqual => Some(BinaryOperator::NotEqual),
        _ => None,
    }
}

/// Whether the token is an operator before an operand that binds at least so tightly.
pub fn is_prefix(least: u8, token: TokenView<'_>) -> bool
    ensures { result ≡ is_prefix least (prefix_of (lexeme_of token.entry)) }
{
    match prefix_of(token) {
        Some(operator) => least <= unary_power(operator),
        None => false,
    }
}

/// Whether the token is an operator between operands that binds at least as tightly as the first number and at most as
/// the second.
pub fn is_infix(least: u8, most: u8, token: TokenView<'_>) -> bool
    ensures { result ≡ is_infix least most (infix_of (lexeme_of token.entry)) }
{
    match infix_of(token) {
        Some(operator) => may_follow(least, most, binary_power(operator)),
        None => false,
    }
}

/// How tightly an operator in front of its operand binds.
pub fn unary_power(operator: UnaryOperator) -> u8
    ensures { result ≡ unary_power operator }
{
    match operator {
        UnaryOperator::Negate | UnaryOperator::Complement => 11,
        UnaryOperator::Not => 3,
    }
}

/// How tightly an operator between two operands binds.
pub fn binary_power(operator: BinaryOperator) -> u8
    ensures is { result ≡ binary_power operator }
    ensures small { result ≤ 10 }
{
    match operator {
        BinaryOperator::Multiply => 10,
        BinaryOperator::Add | BinaryOperator::Subtract => 9,
        BinaryOperator::ShiftLeft | BinaryOperator::ShiftRight => 8,
        BinaryOperator::BitAnd => 7,
        BinaryOperator::BitXor => 6,
        BinaryOperator::BitOr => 5,
        BinaryOperator::Less
        | BinaryOperator::LessEqual
        | BinaryOperator::Greater
        | BinaryOperator::GreaterEqual
        | BinaryOperator::Equal
        | BinaryOperator::NotEqual => 4,
        BinaryOperator::And => 2,
        BinaryOperator::Or => 1,
    }
}
