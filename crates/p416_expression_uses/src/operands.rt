// The places of the parts of expressions (P4_16 1.2, "Expressions", "Casts").
ghost use Rattle.std.specs.Prelude.{◌≡◌, List};
ghost use Rattle.p416_syntax.specs.Scopes.{Known};
ghost use Rattle.p416_syntax.specs.Uses as rules;
ghost use Rattle.p416_names.specs.SeenKinds.{seen_kind};
ghost use Rattle.p416_calls.specs.Seen.{seen_place, seen_callee};

use p416_calls::{Callee, Place};
use p416_names::Kind;
use p416_syntax::{BinaryOperator, CastType, UnaryOperator};

/// The place of operands that have to have one width, given that of the whole and what the operands are.
fn joint_place<'a>(place: Place<'a>, a: Kind<'a>, b: Kind<'a>) -> Place<'a>
    ensures { seen_place result ≡ rules.joint_place (seen_place place.entry) (seen_kind a.entry) (seen_kind b.entry) }
{
    match (a, b) {
        (Kind::Bits(v), _) => Place::Value(Kind::Bits(v)),
        (_, Kind::Bits(w)) => Place::Value(Kind::Bits(w)),
        (Kind::Unsized, Kind::Unsized) => place,
        _ => Place::AnyBits,
    }
}

/// The place of operands that are compared for equality.
fn compared_place<'a>(a: Kind<'a>, b: Kind<'a>) -> Place<'a>
    ensures { seen_place result ≡ rules.compared_place (seen_kind a.entry) (seen_kind b.entry) }
{
    match a {
        Kind::Boolean => Place::Value(Kind::Boolean),
        Kind::ErrorCode => Place::Value(Kind::ErrorCode),
        _ => joint_place(Place::AnyBits, a, b),
    }
}

/// The place of both values of `c ? a : b`.
pub fn chosen_place<'a>(place: Place<'a>, a: Kind<'a>, b: Kind<'a>) -> Place<'a>
    ensures { seen_place result ≡ rules.chosen_place (seen_place place.entry) (seen_kind a.entry) (seen_kind b.entry) }
{
    if a.is_chosen() {
        Place::Value(a)
    } else if b.is_chosen() {
        Place::Value(b)
    } else if a.is_unsized() && b.is_unsized() {
        place
    } else {
        Place::AnyBits
    }
}

/// The place of an operand behind its operator.
pub fn unary_place<'a>(place: Place<'a>, operator: UnaryOperator, kind: Kind<'a>) -> Place<'a>
    ensures { seen_place result ≡ rules.unary_place (seen_place place.entry) operator (seen_kind kind.entry) }
{
    match operator {
        UnaryOperator::Not => Place::Value(Kind::Boolean),
        UnaryOperator::Complement => joint_place(place, kind, kind),
        UnaryOperator::Negate => joint_place(place, kind, kind),
    }
}

/// The place of a left operand, given that of the whole and what the operands are.
pub fn left_place<'a>(
    place: Place<'a>,
    operator: BinaryOperator,
    a: Kind<'a>,
    b: Kind<'a>,
) -> Place<'a>
    ensures { seen_place result ≡ rules.left_place (seen_place place.entry) operator (seen_kind a.entry) (seen_kind b.entry) }
{
    match operator {
        BinaryOperator::Multiply => joint_place(place, a, b),
        BinaryOperator::Add => joint_place(place, a, b),
        BinaryOperator::Subtract => joint_place(place, a, b),
        BinaryOperator::SaturatingAdd => joint_place(place, a, b),
        BinaryOperator::SaturatingSubtract => joint_place(place, a, b),
        BinaryOperator::Concatenate => Place::AnyBits,
        BinaryOperator::ShiftLeft => joint_place(place, a, a),
        BinaryOperator::ShiftRight => joint_place(place, a, a),
        BinaryOperator::BitAnd => joint_place(place, a, b),
        BinaryOperator::BitXor => joint_place(place, a, b),
        BinaryOperator::BitOr => joint_place(place, a, b),
        BinaryOperator::Less => joint_place(Place::AnyBits, a, b),
        BinaryOperator::LessEqual => joint_place(Place::AnyBits, a, b),
        BinaryOperator::Greater => joint_place(Place::AnyBits, a, b),
        BinaryOperator::GreaterEqual => joint_place(Place::AnyBits, a, b),
        BinaryOperator::Equal => compared_place(a, b),
        BinaryOperator::NotEqual => compared_place(a, b),
        BinaryOperator::And => Place::Value(Kind::Boolean),
        BinaryOperator::Or => Place::Value(Kind::Boolean),
    }
}

/// The place of a right operand: that of the left one, but the right side of a shift has any width.
pub fn right_place<'a>(
    place: Place<'a>,
    operator: BinaryOperator,
    a: Kind<'a>,
    b: Kind<'a>,
) -> Place<'a>
    ensures { seen_place result ≡ rules.right_place (seen_place place.entry) operator (seen_kind a.entry) (seen_kind b.entry) }
{
    match operator {
        BinaryOperator::ShiftLeft => Place::AnyBits,
        BinaryOperator::ShiftRight => Place::AnyBits,
        _ => left_place(place, operator, a, b),
    }
}

/// The place of what is cast.
pub fn cast_place<'a>(to: CastType) -> Place<'a>
    ensures { seen_place result ≡ rules.cast_place to }
{
    match to {
        CastType::Bit(width) => {
            if width.value == 1 {
                Place::BitsOrBoolean
            } else {
                Place::AnyBits
            }
        }
        CastType::Bool => Place::OneBit,
    }
}

/// The place of what stands before a member that is at a place, given what a call of the member calls.
pub(crate) fn owner_place<'a>(place: Place<'_>, callee: Callee<'_>) -> Place<'a>
    ensures { (top : List Known) → seen_place result ≡ rules.owner_place (seen_place place.entry) (seen_callee top callee.entry) }
{
    match place {
        Place::Called => {
            if callee.writes_owner() {
                Place::WrittenOwner
            } else {
                Place::Owner
            }
        }
        _ => Place::Owner,
    }
}
