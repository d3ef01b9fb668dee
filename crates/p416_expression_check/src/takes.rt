// Which kinds a place takes (P4_16 1.2, "Expressions", "Statements").
ghost use Rattle.std.specs.Prelude.{◌≡◌};
ghost use Rattle.p416_syntax.specs.Tree.{no_arguments};
ghost use Rattle.p416_syntax.specs.Calls.{select_key};
ghost use Rattle.p416_syntax.specs.Types as rules;
ghost use Rattle.p416_names.specs.SeenKinds.{seen_kind};
ghost use Rattle.p416_calls.specs.Seen.{seen_place};

use p416_calls::Place;
use p416_names::Kind;
use p416_syntax::{ExpHead, ExpView};

/// Whether this is a number or a truth value as it is written.
fn is_literal(view: &ExpView<'_>) -> bool
    ensures { result ≡ rules.is_literal view.now }
{
    matches!(view.head(), ExpHead::Literal(_) | ExpHead::Truth(_))
}

/// Whether this is a name or a member.
fn is_named_callee(view: &ExpView<'_>) -> bool
    ensures { result ≡ rules.is_named_callee view.now }
{
    matches!(view.head(), ExpHead::Name(_) | ExpHead::Member(_, _))
}

/// Whether a place for values of the first kind takes one of the second.
fn takes_kind(wanted: Kind<'_>, given: Kind<'_>) -> bool
    ensures { result ≡ rules.takes_kind (seen_kind wanted.entry) (seen_kind given.entry) }
{
    wanted.is_same(given) || (wanted.is_bits() && given.is_unsized())
}

/// Whether a key of `select` may be of this kind.
fn takes_select_key(kind: Kind<'_>) -> bool
    ensures { result ≡ rules.takes select_key no_arguments (seen_kind kind.entry) }
{
    kind.is_bits() || (kind.is_boolean() || matches!(kind, Kind::ErrorCode))
}

/// Whether a place takes this expression, which is of this kind; whether it can be written is asked by itself.
pub(crate) fn takes(place: Place<'_>, view: &ExpView<'_>, kind: Kind<'_>) -> bool
    ensures { result ≡ rules.takes (seen_place place.entry) view.now (seen_kind kind.entry) }
{
    match place {
        Place::Value(wanted) => takes_kind(wanted, kind),
        Place::Written(wanted) => takes_kind(wanted, kind),
        Place::AnyBits => kind.is_bits(),
        Place::WrittenBits => kind.is_bits() || kind.is_unsized(),
        Place::OneBit => Kind::Bits(1).is_same(kind),
        Place::BitsOrBoolean => kind.is_bits() || kind.is_boolean(),
        Place::WrittenHeader => kind.is_header(),
        Place::Emitted => kind.is_header() || kind.is_stack(),
        Place::LiteralOf(wanted) => is_literal(view) && takes_kind(wanted, kind),
        Place::AnyLiteral => is_literal(view),
        Place::ItemList => matches!(kind, Kind::Items),
        Place::MemberOf(wanted) => Kind::OneOf(wanted).is_same(kind),
        Place::SelectKey => takes_select_key(kind),
        Place::TableKey(is_exact) => kind.is_bits() || (is_exact && kind.is_boolean()),
        Place::Target => true,
        Place::Owner => !kind.is_plain(),
        Place::WrittenOwner => !kind.is_plain(),
        Place::Stack => kind.is_stack(),
        Place::Called => is_named_callee(view),
        Place::Statement => true,
        Place::Unasked => true,
    }
}
