// Names, members and methods that aren't there (P4_16 1.2, "Name resolution").
ghost use Rattle.std.specs.Prelude.{◌≡◌, List, is_none};
ghost use Rattle.p416_syntax.specs.Scopes.{Known};
ghost use Rattle.p416_syntax.specs.Declarations.{layouts_of, top_names};
ghost use Rattle.p416_syntax.specs.Expressions.{member_kind};
ghost use Rattle.p416_syntax.specs.Unknown.{has_lookahead};
ghost use Rattle.p416_names.specs.SeenKinds.{seen_kind};
ghost use Rattle.p416_calls.specs.Seen.{seen_place, seen_callee};
ghost use Rattle.p416_scopes.specs.Seen.{seen_scope};
ghost use Rattle.p416_expression_check.specs.internal.Broken.{unknown_member_by, unknown_by};

use crate::fits::fits_place;
use p416_calls::{Callee, Place};
use p416_names::{Kind, Top};
use p416_scopes::Scope;
use p416_syntax::{ExpHead, ExpView};
use p416_typing::member_kind;

/// Whether `lookahead` may be called on this.
fn has_lookahead(of: Kind<'_>) -> bool
    ensures { result ≡ has_lookahead (seen_kind of.entry) }
{
    match of {
        Kind::PacketIn => true,
        other => other.is_plain(),
    }
}

/// Whether nothing is called.
fn is_no_callee(callee: Callee<'_>) -> bool
    ensures { (top : List Known) → result ≡ is_none (seen_callee top callee.entry) }
{
    match callee {
        Callee::Nothing => true,
        _ => false,
    }
}

/// Whether there is no member with this word of what stands before it.
fn is_no_member<'a>(top: &Top<'a>, of: Kind<'a>, word: &[u8]) -> bool
    ensures { result ≡ is_none (member_kind (layouts_of top.now) (seen_kind of.entry) word.now) }
{
    member_kind(top, of, word).is_none()
}

/// Whether a member isn't there, or a method where one is called; what has no members at all is left to other rules.
fn is_unknown_member<'a>(
    top: &Top<'a>,
    place: Place<'_>,
    of: Kind<'a>,
    callee: Callee<'a>,
    word: &[u8],
) -> bool
    ensures { result ≡ unknown_member_by (layouts_of top.now) (seen_place place.entry) (seen_kind of.entry) (seen_callee (top_names top.now) callee.entry) word.now }
{
    match place {
        Place::Called => is_no_callee(callee) && !of.is_plain(),
        _ => is_no_member(top, of, word) && !of.is_plain(),
    }
}

/// Whether an expression names what isn't there in the sort that its place asks for, given what its first part is and what
/// a call of it calls (T1).
pub(crate) fn is_unknown<'a>(
    scope: &Scope<'_, 'a>,
    place: Place<'_>,
    view: &ExpView<'_>,
    left: Kind<'a>,
    callee: Callee<'a>,
) -> bool
    ensures { result ≡ unknown_by (seen_scope scope.now) (seen_place place.entry) (seen_kind left.entry) (seen_callee (top_names scope.now.top.now) callee.entry) view.now }
{
    match view.head() {
        ExpHead::Name(text) => !fits_place(place, scope.sort_of(text.as_slice())),
        ExpHead::Member(_, word) => {
            is_unknown_member(scope.top, place, left, callee, word.as_slice())
        }
        ExpHead::Lookahead(_, _, _) => !has_lookahead(left),
        _ => false,
    }
}
