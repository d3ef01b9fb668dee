// What is counted of values, and how far.
ghost use Rattle.std.specs.Prelude.{◌≡◌, ◌+◌, ◌*◌, min};
ghost use Rattle.p416_type_totals.specs.Limit.{up_to};
ghost use Rattle.p416_type_totals.specs.internal.Sized.{of_other, standard_size};

/// How far fields and octets are counted: more count as so many.
pub const LIMIT: u128 = 1_048_576;

/// What is counted of a value.
#[derive(Clone, Copy, Drop)]
pub(crate) enum Measure {
    /// Its fields.
    Fields,
    /// The octets of its headers.
    Octets,
}

/// The sum, but at most the limit.
pub(crate) fn capped(limit: u128, so_far: u128, more: u128) -> u128
    ensures { result ≡ min limit (so_far + more) }
{
    if so_far >= limit || more >= limit - so_far {
        limit
    } else {
        so_far + more
    }
}

/// The smaller of the two.
fn least(limit: u128, number: u128) -> u128
    ensures { result ≡ min limit number }
{
    if number < limit { number } else { limit }
}

/// So many times as much, but at most the limit.
#[tactic(auto, using(crate::proofs::Summing::product_within))]
pub(crate) fn times(size: u128, one: u128) -> u128
    ensures { result ≡ up_to (size * one) }
{
    least(LIMIT, least(LIMIT, size) * least(LIMIT, one))
}

/// What a value counts that is no header, no stack and no struct.
pub(crate) fn other_size(measure: Measure) -> u128
    ensures { result ≡ of_other measure }
{
    match measure {
        Measure::Fields => 1,
        Measure::Octets => 0,
    }
}

const STANDARD_METADATA: &[u8] = b"standard_metadata_t";

/// What a struct counts of a type that the program doesn't declare.
pub(crate) fn standard_size(measure: Measure, name: &[u8]) -> u128
    ensures { result ≡ standard_size measure name.now }
{
    match measure {
        Measure::Fields if STANDARD_METADATA == name => 7,
        _ => 0,
    }
}
