// Where a part of a frame stands, also one in an element that the place of a stack tells (P4_16 1.2, "Operations on header
// stacks").
ghost use Rattle.std.specs.Prelude.{◌≡◌, None, IfOk, option_map};
ghost use Rattle.v1_core.specs.Values.{to_member, to_element};
ghost use Rattle.v1_ready_forms.specs.Spots.{spot, spot_with, spot_behind, told_spot};
ghost use Rattle.v1_seats.specs.Seen.{seen_seat};
ghost use Rattle.v1_ready_program.specs.Seen.{seen_told, seen_spot};

use p4x_bits::OutOfMemory;
use p416_names::Kind;
use v1_core::Which;
use v1_seats::{Seat, TypeTable};

/// An element that the place of a stack tells.
#[derive(Clone, Copy, Drop)]
pub struct Told {
    /// Which one.
    pub which: Which,
    /// The stack.
    pub stack: u32,
    /// How many slots each element has.
    pub apart: u32,
}

/// Where a part of a frame stands; of an element that its stack tells, the same part of the element 0.
#[derive(Clone, Copy, Drop)]
pub struct Spot<'a> {
    /// Where.
    pub seat: Seat<'a>,
    /// The element, where one is told.
    pub told: Option<Told>,
}

/// What stands at a seat, if anything does.
fn with<'a>(told: Option<Told>, seat: Option<Seat<'a>>) -> Option<Spot<'a>>
    ensures { option_map seen_spot result ≡ spot_with (option_map seen_told told) (option_map seen_seat seat.entry) }
{
    match seat {
        Some(seat) => Some(Spot { seat, told }),
        None => None,
    }
}

/// The field or the member of this name of what stands there; none exactly where it has none. Errors as those of
/// `TypeTable::behind`.
pub fn member<'a>(
    types: &TypeTable<'_, 'a>,
    spot: Spot<'a>,
    word: &[u8],
) -> Result<Option<Spot<'a>>, OutOfMemory>
    ensures { IfOk result (λ found. option_map seen_spot found ≡ spot_behind types.now (to_member word.now) (seen_spot spot.entry)) }
{
    let seat = types.member(spot.seat, word)?;
    Ok(with(spot.told, seat))
}

/// The element with a number of what stands there; as `member`.
pub fn element<'a>(
    types: &TypeTable<'_, 'a>,
    spot: Spot<'a>,
    number: u128,
) -> Result<Option<Spot<'a>>, OutOfMemory>
    ensures { IfOk result (λ found. option_map seen_spot found ≡ spot_behind types.now (to_element number) (seen_spot spot.entry)) }
{
    let seat = types.element(spot.seat, number)?;
    Ok(with(spot.told, seat))
}

/// The element that the place of the stack tells which stands at a seat.
fn told_at<'a>(
    types: &TypeTable<'_, 'a>,
    seat: Seat<'a>,
    which: Which,
) -> Result<Option<Spot<'a>>, OutOfMemory>
    ensures { IfOk result (λ found. option_map seen_spot found ≡ told_spot types.now which (spot None (seen_seat seat.entry))) }
{
    match seat.kind {
        Kind::Stack(of, _) => {
            let apart = types.fields(of)?;
            let first = types.element(seat, 0)?;
            let told = Told {
                which,
                stack: seat.start.stack,
                apart,
            };
            Ok(with(Some(told), first))
        }
        _ => Ok(None),
    }
}

/// The element that the place of the stack tells which stands there; none exactly where no stack does: an element has no stack in
/// it. Errors as those of `member`.
#[tactic(auto, using(crate::proofs::Spotting::told_once))]
pub fn told_element<'a>(
    types: &TypeTable<'_, 'a>,
    spot: Spot<'a>,
    which: Which,
) -> Result<Option<Spot<'a>>, OutOfMemory>
    ensures { IfOk result (λ found. option_map seen_spot found ≡ told_spot types.now which (seen_spot spot.entry)) }
{
    match spot.told {
        Some(_) => Ok(None),
        None => told_at(types, spot.seat, which),
    }
}
