// The size of headers and metadata (the limits are this project's own).
ghost use Rattle.std.specs.Prelude.{◌≡◌, ◌+◌, ◌||◌, nat_lt};
ghost use Rattle.p416_syntax.specs.declared.program.Syntax16.{Syntax16};
ghost use Rattle.p416_syntax.specs.Declarations.{layouts_of};
ghost use Rattle.p416_syntax.specs.Main.{headers_kind, metadata_kind};
ghost use Rattle.p416_syntax.specs.Totals.{fields_of_kind, octets_of_kind, has_large_headers};
ghost use Rattle.p416_names.specs.SeenKinds.{seen_kind};

use p416_names::Kind;
use p416_type_totals::TypeTotals;

/// How many fields headers and metadata may have together.
const MOST_FIELDS: u128 = 131_072;

/// How many octets the headers may have together.
const MOST_OCTETS: u128 = 32_768;

/// Whether values of two kinds have too many fields together.
#[tactic(auto, using(crate::proofs::Capped::sum_over))]
fn have_many_fields(totals: &TypeTotals<'_, '_>, first: Kind<'_>, second: Kind<'_>) -> bool
    ensures { result ≡ nat_lt 131072 (fields_of_kind (layouts_of totals.now) (seen_kind first.entry) + fields_of_kind (layouts_of totals.now) (seen_kind second.entry)) }
{
    MOST_FIELDS < totals.fields(first) + totals.fields(second)
}

/// Whether a value of a kind has too many octets of headers.
#[tactic(auto, using(crate::proofs::Capped::one_over))]
fn has_many_octets(totals: &TypeTotals<'_, '_>, kind: Kind<'_>) -> bool
    ensures { result ≡ nat_lt 32768 (octets_of_kind (layouts_of totals.now) (seen_kind kind.entry)) }
{
    MOST_OCTETS < totals.octets(kind)
}

/// Whether headers and metadata of these kinds have too many fields together, or the headers too many octets.
fn are_too_large(totals: &TypeTotals<'_, '_>, headers: Kind<'_>, metadata: Kind<'_>) -> bool
    ensures { result ≡ (nat_lt 131072 (fields_of_kind (layouts_of totals.now) (seen_kind headers.entry) + fields_of_kind (layouts_of totals.now) (seen_kind metadata.entry)) || nat_lt 32768 (octets_of_kind (layouts_of totals.now) (seen_kind headers.entry))) }
{
    have_many_fields(totals, headers, metadata) || has_many_octets(totals, headers)
}

/// Whether headers and metadata of these kinds have over 131,072 fields together, or the headers over 32,768 octets: what T12
/// asks of a program of which these are the kinds, exactly.
pub fn has_large_headers(totals: &TypeTotals<'_, '_>, headers: Kind<'_>, metadata: Kind<'_>) -> bool
    ensures { (s : Syntax16) → s.decls ≡ totals.now → headers_kind s ≡ seen_kind headers.entry → metadata_kind s ≡ seen_kind metadata.entry → result ≡ has_large_headers s }
{
    are_too_large(totals, headers, metadata)
}
