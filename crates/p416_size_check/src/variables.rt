// The size of what variables and action parameters hold (the limits are this project's own).
ghost use Rattle.std.specs.Prelude.{◌≡◌, ◌||◌, List, map, flat_map, nat_lt, sum_by};
ghost use Rattle.p416_syntax.specs.Uses.{Use};
ghost use Rattle.p416_syntax.specs.Declarations.{layouts_of};
ghost use Rattle.p416_syntax.specs.Totals.{fields_of_kind, octets_of_kind, held_kinds, has_large_variables};
ghost use Rattle.p416_names.specs.SeenKinds.{seen_kind};

use p416_names::Kind;
use p416_type_totals::TypeTotals;

/// How many fields variables and action parameters may hold together.
const MOST_FIELDS: u128 = 262_144;

/// How many octets of headers they may hold together.
const MOST_OCTETS: u128 = 131_072;

/// Whether values of these kinds have too many fields together.
fn have_many_fields(totals: &TypeTotals<'_, '_>, kinds: &[Kind<'_>]) -> bool
    ensures { result ≡ nat_lt 262144 (sum_by (fields_of_kind (layouts_of totals.now)) (map seen_kind kinds.now)) }
{
    let mut left = MOST_FIELDS;
    for kind in kinds {
        let fields = totals.fields(*kind);
        if left < fields {
            return true;
        }
        left -= fields;
    }
    false
}

/// Whether values of these kinds have too many octets of headers together.
fn have_many_octets(totals: &TypeTotals<'_, '_>, kinds: &[Kind<'_>]) -> bool
    ensures { result ≡ nat_lt 131072 (sum_by (octets_of_kind (layouts_of totals.now)) (map seen_kind kinds.now)) }
{
    let mut left = MOST_OCTETS;
    for kind in kinds {
        let octets = totals.octets(*kind);
        if left < octets {
            return true;
        }
        left -= octets;
    }
    false
}

/// Whether variables and action parameters of these kinds, which are headers, stacks and structs, have over 262,144 fields
/// together, or over 131,072 octets of headers: what T12 asks of a program whose uses hold these, exactly. In time linear in
/// the kinds, but for the look-ups.
#[tactic(auto, using(crate::proofs::Capped::large_variables))]
pub fn has_large_variables(totals: &TypeTotals<'_, '_>, kinds: &[Kind<'_>]) -> bool
    ensures { (us : List Use) → flat_map held_kinds us ≡ map seen_kind kinds.now → result ≡ has_large_variables (layouts_of totals.now) us }
{
    have_many_fields(totals, kinds) || have_many_octets(totals, kinds)
}
