// What an l-value means, given what the part of it means that stands before a word, a number or a slice (P4_16 1.2, "L-values").
ghost use Rattle.std.specs.Prelude.{◌≡◌, Some, None, IfOk, option_map};
ghost use Rattle.p416_names.specs.SeenKinds.{seen_kind};
ghost use Rattle.v1_core.specs.Values.{to_element};
ghost use Rattle.v1_core.specs.Frames.{cut_to};
ghost use Rattle.v1_core.specs.Expressions.{slice_of};
ghost use Rattle.v1_ready_forms.specs.Ways.{which_of};
ghost use Rattle.v1_ready_forms.specs.Spots.{spot_behind};
ghost use Rattle.v1_ready_blocks.specs.Places.{seen_slice};
ghost use Rattle.v1_place_laws.specs.Places.{meant, behind_meant, slice_meant, member_meant};
ghost use Rattle.v1_ready_program.specs.Seen.{seen_spot};
ghost use Rattle.v1_ready_places.specs.Seen.{seen_meant};
ghost use Rattle.v1_ready_places.specs.internal.Chains.{part_spot};

use p4x_bits::OutOfMemory;
use p416_names::Kind;
use p416_syntax::Literal16;
use v1_core::Which;
use v1_ready_blocks::Slice;
use v1_ready_program::spots::{Spot, element, member, told_element};
use v1_seats::TypeTable;

/// What an l-value means.
#[derive(Clone, Copy, Drop)]
pub struct Meant<'a> {
    /// Where it stands.
    pub spot: Spot<'a>,
    /// The slice, where only that is meant.
    pub slice: Option<Slice>,
}

const LAST: &[u8] = b"last";

/// The element of a stack that a member of it is.
fn which_of(word: &[u8]) -> Which
    ensures { result ≡ which_of word.now }
{
    if word == LAST {
        Which::Last
    } else {
        Which::Next
    }
}

/// All of what stands there, if anything does.
pub fn whole<'a>(spot: Option<Spot<'a>>) -> Option<Meant<'a>>
    ensures { option_map seen_meant result ≡ meant None (option_map seen_spot spot.entry) }
{
    match spot {
        Some(spot) => Some(Meant { spot, slice: None }),
        None => None,
    }
}

/// The member of this name of what stands there, which is of a kind.
fn part_spot<'a>(
    types: &TypeTable<'_, 'a>,
    kind: Kind<'_>,
    word: &[u8],
    spot: Spot<'a>,
) -> Result<Option<Spot<'a>>, OutOfMemory>
    ensures { IfOk result (λ found. option_map seen_spot found ≡ part_spot types.now (seen_kind kind.entry) word.now (seen_spot spot.entry)) }
{
    match kind {
        Kind::Stack(_, _) => told_element(types, spot, which_of(word)),
        _ => member(types, spot, word),
    }
}

impl<'a> Meant<'a> {
    /// The member of this name, where this is of a kind and no slice.
    #[tactic(auto, using(crate::proofs::Chained::slice_has_no_member, crate::proofs::Chained::member_of_whole))]
    fn member(
        self,
        types: &TypeTable<'_, 'a>,
        kind: Kind<'_>,
        word: &[u8],
    ) -> Result<Option<Meant<'a>>, OutOfMemory>
        ensures { IfOk result (λ found. option_map seen_meant found ≡ member_meant types.now (seen_kind kind.entry) word.now (Some (seen_meant self.entry))) }
    {
        match self.slice {
            Some(_) => Ok(None),
            None => {
                let part = part_spot(types, kind, word, self.spot)?;
                Ok(whole(part))
            }
        }
    }

    /// The element with this number, where this is no slice.
    fn element(
        self,
        types: &TypeTable<'_, 'a>,
        number: u128,
    ) -> Result<Option<Meant<'a>>, OutOfMemory>
        ensures { IfOk result (λ found. option_map seen_meant found ≡ behind_meant (spot_behind types.now (to_element number)) (Some (seen_meant self.entry))) }
    {
        match self.slice {
            Some(_) => Ok(None),
            None => {
                let part = element(types, self.spot, number)?;
                Ok(whole(part))
            }
        }
    }
}

/// The member of this name of what is meant, which is of a kind. A slice has none.
#[tactic(auto, using(crate::proofs::Chained::nothing_has_no_member))]
pub(crate) fn member_meant<'a>(
    types: &TypeTable<'_, 'a>,
    kind: Kind<'_>,
    word: &[u8],
    of: Option<Meant<'a>>,
) -> Result<Option<Meant<'a>>, OutOfMemory>
    ensures { IfOk result (λ found. option_map seen_meant found ≡ member_meant types.now (seen_kind kind.entry) word.now (option_map seen_meant of.entry)) }
{
    match of {
        Some(of) => of.member(types, kind, word),
        None => Ok(None),
    }
}

/// The element with this number of what is meant. A slice has none.
pub(crate) fn element_meant<'a>(
    types: &TypeTable<'_, 'a>,
    number: u128,
    of: Option<Meant<'a>>,
) -> Result<Option<Meant<'a>>, OutOfMemory>
    ensures { IfOk result (λ found. option_map seen_meant found ≡ behind_meant (spot_behind types.now (to_element number)) (option_map seen_meant of.entry)) }
{
    match of {
        Some(of) => of.element(types, number),
        None => Ok(None),
    }
}

/// A number of at most 255; more, which no place and no width of a slice in an accepted program is, counts as want of memory.
fn octet(number: u128) -> Result<u8, OutOfMemory>
    ensures { IfOk result (λ octet. octet ≡ number) }
{
    if number <= u128::from(u8::MAX) {
        Ok(number as u8)
    } else {
        Err(OutOfMemory)
    }
}

/// The bits from `high` down to `low`.
fn slice_of(high: Literal16, low: Literal16) -> Result<Slice, OutOfMemory>
    ensures { IfOk result (λ s. seen_slice s ≡ slice_of high low) }
{
    let Some(end) = high.value.checked_add(1) else {
        return Err(OutOfMemory);
    };
    let place = octet(low.value)?;
    let width = octet(end.saturating_sub(low.value))?;
    Ok(Slice { low: place, width })
}

/// A slice, also of a slice.
fn cut_to(slice: Slice, outer: Option<Slice>) -> Result<Slice, OutOfMemory>
    ensures { IfOk result (λ s. seen_slice s ≡ cut_to (seen_slice slice) (option_map seen_slice outer)) }
{
    match outer {
        Some(outer) => {
            let Some(low) = outer.low.checked_add(slice.low) else {
                return Err(OutOfMemory);
            };
            Ok(Slice { low, ..slice })
        }
        None => Ok(slice),
    }
}

/// The bits from `high` down to `low` of what is meant, if anything is.
pub(crate) fn slice_meant<'a>(
    high: Literal16,
    low: Literal16,
    of: Option<Meant<'a>>,
) -> Result<Option<Meant<'a>>, OutOfMemory>
    ensures { IfOk result (λ found. option_map seen_meant found ≡ slice_meant (slice_of high low) (option_map seen_meant of.entry)) }
{
    let Some(of) = of else {
        return Ok(None);
    };
    let bits = slice_of(high, low)?;
    let slice = Some(cut_to(bits, of.slice)?);
    Ok(Some(Meant { slice, ..of }))
}
