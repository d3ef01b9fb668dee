// Slots of single fields (`v1model.p4`, `standard_metadata_t`).
ghost use Rattle.std.specs.Prelude.{◌≡◌, true, map, option_map, slice_get, IfOk};
ghost use Rattle.p416_syntax.specs.Declarations.{layouts_of};
ghost use Rattle.v1_core.specs.Programs.{frame_kinds, first_start};
ghost use Rattle.v1_seats.specs.Seen.{seen_seat};
ghost use Rattle.v1_seats.specs.Frame.{seats_from};
ghost use Rattle.v1_parse_run.specs.Made.{HoldsErrors};
ghost use Rattle.v1_ready_controls.specs.Program.{slot_in_standard};

use p4x_bits::OutOfMemory;
use p416_syntax::Syntax16;
use v1_core::FrameLayout;
use v1_ready_blocks::is_slot;
use v1_ready_locals::slot_of;
use v1_seats::{Seat, TypeTable};

/// The seat at a place.
pub(crate) fn seat_at<'a>(seats: &[Seat<'a>], place: usize) -> Option<Seat<'a>>
    ensures { option_map seen_seat result ≡ option_map seen_seat (slice_get seats.now place) }
{
    match seats.get(place) {
        Some(seat) => Some(*seat),
        None => None,
    }
}

/// The slot of a field of the standard metadata, given the seats of all values of a frame; none where it has no single value.
#[tactic(auto, using(crate::proofs::Standard::slot_is))]
pub(crate) fn standard_slot<'a>(
    syntax: &Syntax16,
    types: &TypeTable<'_, 'a>,
    seats: &[Seat<'a>],
    word: &[u8],
) -> Result<Option<u32>, OutOfMemory>
    requires types { types.now ≡ layouts_of syntax.now.decls }
    requires seats { map seen_seat seats.now ≡ seats_from (layouts_of syntax.now.decls) (frame_kinds syntax.now) first_start }
    ensures { IfOk result (λ slot. slot ≡ slot_in_standard syntax.now word.now) }
{
    let Some(standard) = seat_at(seats, 2) else {
        return Err(OutOfMemory);
    };
    let field = types.member(standard, word)?;
    Ok(slot_of(field))
}

/// Whether a slot has room for the number of each error.
pub(crate) fn holds_errors(layout: &FrameLayout, slot: u32) -> bool
    ensures { result ≡ true → HoldsErrors layout.now slot }
{
    is_slot(layout, slot) && layout.width(slot) >= 2
}
