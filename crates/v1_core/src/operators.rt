// Operators on single values (P4_16 1.2, "Operations on fixed-width bit types (unsigned integers)", "Operations on Boolean
// values", "Operations on error types").
ghost use Rattle.std.specs.Prelude.{◌≡◌, ◌^◌, ◌<◌, ◌≤◌};
ghost use Rattle.v1_core.specs.Values.{a_number};
ghost use Rattle.v1_core.specs.Numbers.{is_same_truth, of_errors, of_truths, unary_value};
ghost use Rattle.v1_core.specs.Scalars.{seen_scalar, FitsScalar, is_joint, joint_value, joined_value, apart_value, word_value, pair_value};

use crate::numbers::{
    complemented, difference, joined, negated, product, saturating_difference, saturating_sum,
    shifted_left, shifted_right, sum_of,
};
use crate::scalar::Scalar;
use p416_syntax::{BinaryOperator, UnaryOperator};

/// Whether an operator wants operands of one width.
fn is_joint(operator: BinaryOperator) -> bool
    ensures { result ≡ is_joint operator }
{
    match operator {
        BinaryOperator::Multiply => true,
        BinaryOperator::Add => true,
        BinaryOperator::Subtract => true,
        BinaryOperator::SaturatingAdd => true,
        BinaryOperator::SaturatingSubtract => true,
        BinaryOperator::BitAnd => true,
        BinaryOperator::BitXor => true,
        BinaryOperator::BitOr => true,
        _ => false,
    }
}

/// A number of so many bits.
fn word(width: u8, number: u128) -> Scalar
    requires narrow { width ≤ 128 }
    requires below { number < 2 ^ width }
    ensures is { seen_scalar result ≡ a_number width number }
    ensures fits { FitsScalar result }
{
    Scalar::Number(width, number)
}

/// What an operator that wants operands of one width makes of two numbers of this one.
#[tactic(auto, using(crate::proofs::Cutting::sum_fits, crate::proofs::Cutting::less_fits, crate::proofs::Cutting::and_fits, crate::proofs::Cutting::xor_fits, crate::proofs::Cutting::or_fits))]
fn of_joint(operator: BinaryOperator, width: u8, a: u128, b: u128) -> Scalar
    requires narrow { width ≤ 128 }
    requires first { a < 2 ^ width }
    requires second { b < 2 ^ width }
    ensures is { seen_scalar result ≡ joint_value operator width a b }
    ensures fits { FitsScalar result }
{
    match operator {
        BinaryOperator::Multiply => word(width, product(width, a, b)),
        BinaryOperator::Add => word(width, sum_of(width, a, b)),
        BinaryOperator::Subtract => word(width, difference(width, a, b)),
        BinaryOperator::SaturatingAdd => word(width, saturating_sum(width, a, b)),
        BinaryOperator::SaturatingSubtract => word(width, saturating_difference(a, b)),
        BinaryOperator::BitAnd => word(width, a & b),
        BinaryOperator::BitXor => word(width, a ^ b),
        BinaryOperator::BitOr => word(width, a | b),
        _ => Scalar::Nothing,
    }
}

/// Two numbers, one behind the other, where these are 128 bits at most.
fn concatenated(width: u8, a: u128, other: u8, b: u128) -> Scalar
    requires narrow { width ≤ 128 }
    requires first { a < 2 ^ width }
    requires other_narrow { other ≤ 128 }
    requires second { b < 2 ^ other }
    ensures is { seen_scalar result ≡ joined_value width a other b }
    ensures fits { FitsScalar result }
{
    if u16::from(width) + u16::from(other) <= 128 {
        word(width + other, joined(width, a, other, b))
    } else {
        Scalar::Nothing
    }
}

/// What an operator that doesn't want operands of one width makes of two numbers.
fn of_apart(operator: BinaryOperator, width: u8, a: u128, other: u8, b: u128) -> Scalar
    requires narrow { width ≤ 128 }
    requires first { a < 2 ^ width }
    requires other_narrow { other ≤ 128 }
    requires second { b < 2 ^ other }
    ensures is { seen_scalar result ≡ apart_value operator width a other b }
    ensures fits { FitsScalar result }
{
    match operator {
        BinaryOperator::Concatenate => concatenated(width, a, other, b),
        BinaryOperator::ShiftLeft => word(width, shifted_left(width, a, b)),
        BinaryOperator::ShiftRight => word(width, shifted_right(width, a, b)),
        BinaryOperator::Less => Scalar::Truth(a < b),
        BinaryOperator::LessEqual => Scalar::Truth(a <= b),
        BinaryOperator::Greater => Scalar::Truth(b < a),
        BinaryOperator::GreaterEqual => Scalar::Truth(b <= a),
        BinaryOperator::Equal => Scalar::Truth(a == b),
        BinaryOperator::NotEqual => Scalar::Truth(a != b),
        _ => Scalar::Nothing,
    }
}

/// What an operator makes of two numbers.
fn of_words(operator: BinaryOperator, width: u8, a: u128, other: u8, b: u128) -> Scalar
    requires narrow { width ≤ 128 }
    requires first { a < 2 ^ width }
    requires other_narrow { other ≤ 128 }
    requires second { b < 2 ^ other }
    ensures is { seen_scalar result ≡ word_value operator width a other b }
    ensures fits { FitsScalar result }
{
    if !is_joint(operator) {
        return of_apart(operator, width, a, other, b);
    }
    if width == other {
        of_joint(operator, width, a, b)
    } else {
        Scalar::Nothing
    }
}

/// Whether two truth values are one.
fn is_same(a: bool, b: bool) -> bool
    ensures { result ≡ is_same_truth a b }
{
    a == b
}

/// What an operator makes of two truth values.
fn of_truths(operator: BinaryOperator, a: bool, b: bool) -> Scalar
    ensures is { seen_scalar result ≡ of_truths operator a b }
    ensures fits { FitsScalar result }
{
    match operator {
        BinaryOperator::Equal => Scalar::Truth(is_same(a, b)),
        BinaryOperator::NotEqual => Scalar::Truth(!is_same(a, b)),
        _ => Scalar::Nothing,
    }
}

/// What an operator makes of two errors.
fn of_errors(operator: BinaryOperator, a: u128, b: u128) -> Scalar
    ensures is { seen_scalar result ≡ of_errors operator a b }
    ensures fits { FitsScalar result }
{
    match operator {
        BinaryOperator::Equal => Scalar::Truth(a == b),
        BinaryOperator::NotEqual => Scalar::Truth(a != b),
        _ => Scalar::Nothing,
    }
}

/// What an operator makes of two values, but for `&&` and `||`, which don't evaluate both. Operands whose widths the rules on
/// types don't allow give nothing.
pub fn binary(operator: BinaryOperator, a: Scalar, b: Scalar) -> Scalar
    requires first { FitsScalar a }
    requires second { FitsScalar b }
    ensures is { seen_scalar result ≡ pair_value operator (seen_scalar a) (seen_scalar b) }
    ensures fits { FitsScalar result }
{
    match (a, b) {
        (Scalar::Number(width, a), Scalar::Number(other, b)) => {
            of_words(operator, width, a, other, b)
        }
        (Scalar::Truth(a), Scalar::Truth(b)) => of_truths(operator, a, b),
        (Scalar::Error(a), Scalar::Error(b)) => of_errors(operator, a, b),
        _ => Scalar::Nothing,
    }
}

/// What `~` or `-` makes of a number.
fn of_word(operator: UnaryOperator, width: u8, a: u128) -> Scalar
    requires narrow { width ≤ 128 }
    requires below { a < 2 ^ width }
    ensures is { seen_scalar result ≡ unary_value operator (a_number width a) }
    ensures fits { FitsScalar result }
{
    match operator {
        UnaryOperator::Complement => word(width, complemented(width, a)),
        UnaryOperator::Negate => word(width, negated(width, a)),
        UnaryOperator::Not => Scalar::Nothing,
    }
}

/// What an operator makes of a value.
pub fn unary(operator: UnaryOperator, a: Scalar) -> Scalar
    requires { FitsScalar a }
    ensures is { seen_scalar result ≡ unary_value operator (seen_scalar a) }
    ensures fits { FitsScalar result }
{
    match (operator, a) {
        (_, Scalar::Number(width, a)) => of_word(operator, width, a),
        (UnaryOperator::Not, Scalar::Truth(a)) => Scalar::Truth(!a),
        _ => Scalar::Nothing,
    }
}
