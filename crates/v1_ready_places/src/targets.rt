// The slots and the parts that an l-value means.
ghost use Rattle.std.specs.Prelude.{◌≡◌, None, Some, IfOk, option_map};
ghost use Rattle.v1_seats.specs.Seen.{seen_seat};
ghost use Rattle.v1_ready_forms.specs.Spots.{spot};
ghost use Rattle.v1_ready_blocks.specs.Places.{seen_slice};
ghost use Rattle.v1_place_laws.specs.Places.{slot_place_of, range_of, range_place_of};
ghost use Rattle.v1_ready_statements.specs.Targets.{target_of, fixed_range, parts_meant};
ghost use Rattle.v1_ready_program.specs.Seen.{seen_told, seen_spot};
ghost use Rattle.v1_ready_places.specs.Seen.{seen_meant};

use crate::meant::Meant;
use p4x_bits::OutOfMemory;
use p416_names::Kind;
use v1_core::Element;
use v1_ready_blocks::{Range, RangePlace, Slice, SlotPlace, Target, ToldRange};
use v1_ready_program::spots::{Spot, Told};
use v1_seats::{Seat, TypeTable};

/// The slot of a single value that stands at a seat.
fn plain_slot(seat: Seat<'_>) -> Option<SlotPlace>
    ensures { result ≡ slot_place_of (spot None (seen_seat seat.entry)) }
{
    match seat.kind {
        Kind::Bits(_) => Some(SlotPlace::Fixed(seat.start.slot)),
        Kind::Boolean => Some(SlotPlace::Fixed(seat.start.slot)),
        Kind::ErrorCode => Some(SlotPlace::Fixed(seat.start.slot)),
        _ => None,
    }
}

/// The field at a seat of each element of a stack, where an element is told.
fn told_slot(seat: Seat<'_>, told: Told) -> Option<SlotPlace>
    ensures { result ≡ slot_place_of (spot (Some (seen_told told)) (seen_seat seat.entry)) }
{
    match seat.kind {
        Kind::Bits(_) => Some(SlotPlace::Told(Element {
            which: told.which,
            stack: told.stack,
            first: seat.start.slot,
            apart: told.apart,
        })),
        _ => None,
    }
}

/// The slot of the single value that stands there, or that of a field of the element that a stack tells; none where no single
/// value stands there.
pub fn slot_place_of(spot: Spot<'_>) -> Option<SlotPlace>
    ensures { result ≡ slot_place_of (seen_spot spot.entry) }
{
    match spot.told {
        Some(told) => told_slot(spot.seat, told),
        None => plain_slot(spot.seat),
    }
}

/// All parts of what stands at a seat. Errors as those of `TypeTable::behind`.
pub fn range_of(types: &TypeTable<'_, '_>, seat: Seat<'_>) -> Result<Range, OutOfMemory>
    ensures { IfOk result (λ r. r ≡ range_of types.now (seen_seat seat.entry)) }
{
    let start = seat.start;
    let end = types.behind(seat)?;
    Ok(Range {
        slot: start.slot,
        slots: end.slot.saturating_sub(start.slot),
        header: start.header,
        headers: end.header.saturating_sub(start.header),
        stack: start.stack,
        stacks: end.stack.saturating_sub(start.stack),
    })
}

/// The parts of a header, a stack or a struct that stands at a seat.
fn plain_parts(types: &TypeTable<'_, '_>, seat: Seat<'_>) -> Result<Option<RangePlace>, OutOfMemory>
    ensures { IfOk result (λ found. found ≡ range_place_of types.now (spot None (seen_seat seat.entry))) }
{
    match seat.kind {
        Kind::Header(_) => Ok(Some(RangePlace::Fixed(range_of(types, seat)?))),
        Kind::Stack(_, _) => Ok(Some(RangePlace::Fixed(range_of(types, seat)?))),
        Kind::Struct(_) => Ok(Some(RangePlace::Fixed(range_of(types, seat)?))),
        _ => Ok(None),
    }
}

/// The parts of each element of a stack, of which the element 0 stands at a seat, where an element is told.
fn told_parts(
    types: &TypeTable<'_, '_>,
    seat: Seat<'_>,
    told: Told,
) -> Result<Option<RangePlace>, OutOfMemory>
    ensures { IfOk result (λ found. found ≡ range_place_of types.now (spot (Some (seen_told told)) (seen_seat seat.entry))) }
{
    match seat.kind {
        Kind::Header(_) => {
            let first = range_of(types, seat)?;
            Ok(Some(RangePlace::Told(ToldRange {
                which: told.which,
                stack: told.stack,
                first,
            })))
        }
        _ => Ok(None),
    }
}

/// The parts of the header, the stack or the struct that stands there, or those of the element that a stack tells; none where no such
/// thing stands there. Errors as those of `TypeTable::behind`.
pub fn range_place_of(
    types: &TypeTable<'_, '_>,
    spot: Spot<'_>,
) -> Result<Option<RangePlace>, OutOfMemory>
    ensures { IfOk result (λ found. found ≡ range_place_of types.now (seen_spot spot.entry)) }
{
    match spot.told {
        Some(told) => told_parts(types, spot.seat, told),
        None => plain_parts(types, spot.seat),
    }
}

/// The parts that are meant; none where a slice is. Otherwise as `range_place_of`.
pub fn parts_of(
    types: &TypeTable<'_, '_>,
    meant: Meant<'_>,
) -> Result<Option<RangePlace>, OutOfMemory>
    ensures { IfOk result (λ found. found ≡ parts_meant types.now (seen_meant meant.entry)) }
{
    match meant.slice {
        Some(_) => Ok(None),
        None => range_place_of(types, meant.spot),
    }
}

/// The parts, where no stack tells them.
pub fn fixed_range(place: RangePlace) -> Option<Range>
    ensures { result ≡ fixed_range place }
{
    match place {
        RangePlace::Fixed(range) => Some(range),
        RangePlace::Told(_) => None,
    }
}

/// The slot of a single value that stands at a seat, with this slice of it.
#[tactic(auto, using(crate::proofs::Chained::sliced_again))]
fn plain_target(seat: Seat<'_>, slice: Option<Slice>) -> Option<Target>
    ensures { result ≡ target_of (record { spot = spot None (seen_seat seat.entry); slice = option_map seen_slice slice }) }
{
    let slot = seat.start.slot;
    match seat.kind {
        Kind::Bits(_) => Some(Target { slot, slice }),
        Kind::Boolean => Some(Target { slot, slice }),
        Kind::ErrorCode => Some(Target { slot, slice }),
        _ => None,
    }
}

/// The slot that is meant, with the slice of it, where no stack tells it; none where no single value is meant.
#[tactic(auto, using(crate::proofs::Chained::told_is_no_target))]
pub fn target_of(meant: Meant<'_>) -> Option<Target>
    ensures { result ≡ target_of (seen_meant meant.entry) }
{
    let spot = meant.spot;
    match spot.told {
        Some(_) => None,
        None => plain_target(spot.seat, meant.slice),
    }
}
