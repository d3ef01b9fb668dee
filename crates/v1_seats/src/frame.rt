// Seats of the values of a frame.
ghost use Rattle.std.specs.Prelude.{◌≡◌, map, IfOk};
ghost use Rattle.p416_names.specs.SeenKinds.{seen_kind};
ghost use Rattle.v1_core.specs.Programs.{first_start};
ghost use Rattle.v1_seats.specs.Seen.{seen_seat};
ghost use Rattle.v1_seats.specs.Frame.{seats_from};

use crate::seat::Seat;
use crate::start::Start;
use crate::types::TypeTable;
use p4x_bits::OutOfMemory;
use p416_names::Kind;
use std::alloc::Global;

/// The seats of values of these kinds, one after another, as `v1_layout` lays them out. Errors as those of `TypeTable::behind`.
#[tactic(auto, using(crate::proofs::Seating::one_seated))]
pub fn seats_of<'a>(
    alloc: Global,
    types: &TypeTable<'_, 'a>,
    kinds: &[Kind<'a>],
) -> Result<Vec<Seat<'a>>, OutOfMemory>
    ensures { IfOk result (λ seats. map seen_seat seats.items ≡ seats_from types.now (map seen_kind kinds.now) first_start) }
{
    let depth = types.depth()?;
    let mut start = Start {
        slot: 0,
        header: 0,
        stack: 0,
    };
    let mut seats = Vec::new(alloc);
    for kind in kinds {
        let seat = Seat {
            depth,
            kind: *kind,
            start,
            owner: None,
        };
        seats.push(seat)?;
        start = types.behind(seat)?;
    }
    Ok(seats)
}
