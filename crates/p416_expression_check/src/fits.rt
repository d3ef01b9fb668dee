// Which sort of declaration a place asks for (P4_16 1.2, "Name resolution").
ghost use Rattle.std.specs.Prelude.{◌≡◌, List};
ghost use Rattle.p416_syntax.specs.Scopes.{Known};
ghost use Rattle.p416_syntax.specs.Unknown as rules;
ghost use Rattle.p416_names.specs.Seen.{seen_sort};
ghost use Rattle.p416_calls.specs.Seen.{seen_place};

use p416_calls::Place;
use p416_names::Sort;

/// Whether this may stand before a member.
fn is_owner_sort(sort: Sort<'_>) -> bool
    ensures { (top : List Known) → result ≡ rules.is_owner_sort (seen_sort top sort.entry) }
{
    match sort {
        Sort::Value(_, _) => true,
        Sort::Enumeration(_) => true,
        Sort::Object(_) => true,
        Sort::Table(_) => true,
        _ => false,
    }
}

/// Whether this may be called.
fn is_callee_sort(sort: Sort<'_>) -> bool
    ensures { (top : List Known) → result ≡ rules.is_callee_sort (seen_sort top sort.entry) }
{
    match sort {
        Sort::Action(_) => true,
        Sort::Function => true,
        _ => false,
    }
}

/// Whether this is a value.
fn is_value_sort(sort: Sort<'_>) -> bool
    ensures { (top : List Known) → result ≡ rules.is_value_sort (seen_sort top sort.entry) }
{
    matches!(sort, Sort::Value(_, _))
}

/// Whether a sort of declaration is the one that a place asks for.
pub(crate) fn fits_place(place: Place<'_>, sort: Sort<'_>) -> bool
    ensures { (top : List Known) → result ≡ rules.fits_place (seen_place place.entry) (seen_sort top sort.entry) }
{
    match place {
        Place::Called => is_callee_sort(sort),
        Place::Owner => is_owner_sort(sort),
        Place::WrittenOwner => is_owner_sort(sort),
        _ => is_value_sort(sort),
    }
}
