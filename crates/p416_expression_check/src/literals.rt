// Whether a literal fits its width (P4_16 1.2, "Literal constants").
ghost use Rattle.std.specs.Prelude.{◌≡◌, Option};
ghost use Rattle.p416_syntax.specs.Literals as rules;
ghost use Rattle.p416_syntax.specs.Scopes.{Scope as RuleScope};
ghost use Rattle.p416_syntax.specs.Uses.{an_expression};
ghost use Rattle.p416_names.specs.SeenKinds.{seen_kind};
ghost use Rattle.p416_calls.specs.Seen.{seen_place};

use p416_calls::Place;
use p416_names::Kind;
use p416_syntax::{ExpHead, ExpView, Literal16};

/// The width of bits.
fn width_of_kind(kind: Kind<'_>) -> Option<u128>
    ensures { result ≡ rules.width_of_kind (seen_kind kind.entry) }
{
    match kind {
        Kind::Bits(width) => Some(width),
        _ => None,
    }
}

/// The width that a place asks for.
fn width_of_place(place: Place<'_>) -> Option<u128>
    ensures { result ≡ rules.width_of_place (seen_place place.entry) }
{
    match place {
        Place::Value(kind) => width_of_kind(kind),
        Place::Written(kind) => width_of_kind(kind),
        Place::LiteralOf(kind) => width_of_kind(kind),
        _ => None,
    }
}

/// Whether a number has more bits than these; no number has more than 128.
#[tactic(auto, using(crate::proofs::Widths::over_wide, crate::proofs::Widths::over_narrow))]
fn is_over(number: u128, width: u128) -> bool
    ensures { result ≡ rules.is_over number width }
{
    if width >= 128 {
        false
    } else {
        number >> width != 0
    }
}

/// Whether a number doesn't fit the width that is written with it, else this one, in bits (T4).
pub fn is_too_large(wanted: Option<u128>, number: Literal16) -> bool
    ensures { result ≡ rules.is_too_large wanted number }
{
    match number.width {
        Some(width) => is_over(number.value, u128::from(width)),
        None => match wanted {
            Some(width) => is_over(number.value, width),
            None => false,
        },
    }
}

/// Whether an expression is a literal that doesn't fit its width or the one that its place asks for (T4).
pub(crate) fn overflows(place: Place<'_>, view: &ExpView<'_>) -> bool
    ensures { (s : RuleScope) → result ≡ rules.overflows (an_expression s (seen_place place.entry) view.now) }
{
    match view.head() {
        ExpHead::Literal(number) => is_too_large(width_of_place(place), number),
        _ => false,
    }
}
