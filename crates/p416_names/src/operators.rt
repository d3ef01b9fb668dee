// What operators, elements, slices and casts make of their operands (P4_16 1.2, "Expressions").
ghost use Rattle.std.specs.Prelude.{◌≡◌};
ghost use Rattle.p416_syntax.specs.Expressions as rules;
ghost use Rattle.p416_syntax.specs.Kinds.{bits};
ghost use Rattle.p416_names.specs.SeenKinds.{seen_kind};
ghost use Rattle.p416_names.specs.internal.KindParts.{chosen_kind, slice_of};

use crate::kind::Kind;
use p416_syntax::{BinaryOperator, CastType, Literal16, UnaryOperator};

/// How many bits `++` makes at most.
const MOST_BITS: u128 = 128;

/// Two operands of one width; a number without a width takes that of the other.
pub fn joint_bits<'a>(a: Kind<'a>, b: Kind<'a>) -> Kind<'a>
    ensures { seen_kind result ≡ rules.joint_bits (seen_kind a.entry) (seen_kind b.entry) }
{
    match (a, b) {
        (Kind::Bits(v), Kind::Bits(w)) => { if v == w { Kind::Bits(v) } else { Kind::Unknown } }
        (Kind::Bits(v), Kind::Unsized) => Kind::Bits(v),
        (Kind::Unsized, Kind::Bits(w)) => Kind::Bits(w),
        (Kind::Unsized, Kind::Unsized) => Kind::Unsized,
        _ => Kind::Unknown,
    }
}

/// Two widths together, where they come to no more than 128 bits.
fn joined_width<'a>(v: u128, w: u128) -> Kind<'a>
    ensures { seen_kind result ≡ rules.concatenated (bits v) (bits w) }
{
    if v <= MOST_BITS && w <= MOST_BITS - v {
        Kind::Bits(v + w)
    } else {
        Kind::Unknown
    }
}

/// What `++` makes.
fn concatenated<'a>(a: Kind<'a>, b: Kind<'a>) -> Kind<'a>
    ensures { seen_kind result ≡ rules.concatenated (seen_kind a.entry) (seen_kind b.entry) }
{
    match (a, b) {
        (Kind::Bits(v), Kind::Bits(w)) => joined_width(v, w),
        _ => Kind::Unknown,
    }
}

/// An operand of arithmetic by itself.
pub fn number_kind(a: Kind<'_>) -> Kind<'_>
    ensures { seen_kind result ≡ rules.number_kind (seen_kind a.entry) }
{
    match a {
        Kind::Bits(w) => Kind::Bits(w),
        Kind::Unsized => Kind::Unsized,
        _ => Kind::Unknown,
    }
}

/// What an operator makes of its operand.
pub fn unary_kind(operator: UnaryOperator, a: Kind<'_>) -> Kind<'_>
    ensures { seen_kind result ≡ rules.unary_kind operator (seen_kind a.entry) }
{
    match operator {
        UnaryOperator::Not => Kind::Boolean,
        UnaryOperator::Complement => number_kind(a),
        UnaryOperator::Negate => number_kind(a),
    }
}

/// What an operator makes of its operands.
pub fn binary_kind<'a>(operator: BinaryOperator, a: Kind<'a>, b: Kind<'a>) -> Kind<'a>
    ensures { seen_kind result ≡ rules.binary_kind operator (seen_kind a.entry) (seen_kind b.entry) }
{
    match operator {
        BinaryOperator::Multiply => joint_bits(a, b),
        BinaryOperator::Add => joint_bits(a, b),
        BinaryOperator::Subtract => joint_bits(a, b),
        BinaryOperator::SaturatingAdd => joint_bits(a, b),
        BinaryOperator::SaturatingSubtract => joint_bits(a, b),
        BinaryOperator::Concatenate => concatenated(a, b),
        BinaryOperator::ShiftLeft => number_kind(a),
        BinaryOperator::ShiftRight => number_kind(a),
        BinaryOperator::BitAnd => joint_bits(a, b),
        BinaryOperator::BitXor => joint_bits(a, b),
        BinaryOperator::BitOr => joint_bits(a, b),
        BinaryOperator::Less => Kind::Boolean,
        BinaryOperator::LessEqual => Kind::Boolean,
        BinaryOperator::Greater => Kind::Boolean,
        BinaryOperator::GreaterEqual => Kind::Boolean,
        BinaryOperator::Equal => Kind::Boolean,
        BinaryOperator::NotEqual => Kind::Boolean,
        BinaryOperator::And => Kind::Boolean,
        BinaryOperator::Or => Kind::Boolean,
    }
}

/// A value that may be chosen.
fn chosen(a: Kind<'_>) -> Kind<'_>
    ensures { seen_kind result ≡ chosen_kind (seen_kind a.entry) }
{
    if a.is_chosen() { a } else { Kind::Unknown }
}

/// What `c ? a : b` makes of the two that it chooses from.
pub fn choice_kind<'a>(a: Kind<'a>, b: Kind<'a>) -> Kind<'a>
    ensures { seen_kind result ≡ rules.same_choice (seen_kind a.entry) (seen_kind b.entry) }
{
    if a.is_same(b) {
        chosen(a)
    } else {
        joint_bits(a, b)
    }
}

/// An element of a stack.
pub fn element_kind(a: Kind<'_>) -> Kind<'_>
    ensures { seen_kind result ≡ rules.element_kind (seen_kind a.entry) }
{
    match a {
        Kind::Stack(name, _) => Kind::Header(name),
        _ => Kind::Unknown,
    }
}

/// The bits from `high` down to `low` of so many.
fn sliced_width<'a>(w: u128, high: u128, low: u128) -> Kind<'a>
    ensures { seen_kind result ≡ slice_of w high low }
{
    if high < low || w <= high {
        Kind::Unknown
    } else {
        Kind::Bits(high - low + 1)
    }
}

/// A slice from `high` down to `low`.
pub fn slice_kind<'a>(a: Kind<'a>, high: Literal16, low: Literal16) -> Kind<'a>
    ensures { seen_kind result ≡ rules.slice_kind (seen_kind a.entry) high low }
{
    match a {
        Kind::Bits(w) => sliced_width(w, high.value, low.value),
        _ => Kind::Unknown,
    }
}

/// What a cast makes.
pub fn cast_kind<'a>(to: CastType) -> Kind<'a>
    ensures { seen_kind result ≡ rules.cast_kind to }
{
    match to {
        CastType::Bit(width) => Kind::Bits(width.value),
        CastType::Bool => Kind::Boolean,
    }
}
