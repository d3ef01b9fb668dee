// The parts that a way from a spot leads to.
ghost use Rattle.std.specs.Prelude.{◌≡◌, ◌<◌, ℕ, List, length, option_map, IfOk};
ghost use Rattle.p416_syntax.specs.Scopes.{Layout};
ghost use Rattle.v1_ready_forms.specs.Ways.{Way};
ghost use Rattle.v1_ready_statements.specs.Tested.{range_behind, way_range};
ghost use Rattle.v1_place_laws.specs.Places.{range_place_of};
ghost use Rattle.v1_ready_program.specs.Seen.{seen_spot};
ghost use Rattle.v1_ready_program.specs.internal.Ways.{IsStep, way_of, way_at};
ghost use Rattle.v1_ready_program.specs.internal.Coded.{AreWays, seen_ways};
ghost use Rattle.v1_ready_operands.specs.internal.Coded.{taken_range, IsBefore};

use p4x_bits::OutOfMemory;
use v1_ready_blocks::RangePlace;
use v1_ready_places::range_place_of;
use v1_ready_program::spots::{Spot, element, member, told_element};
use v1_ready_program::ways::{Step, Ways};
use v1_seats::TypeTable;

/// What a step leads to.
#[derive(Clone, Copy, Drop)]
enum Taken<'a> {
    /// A spot, and the place of the way on from there.
    On(Spot<'a>, usize),
    /// The parts, or nothing.
    End(Option<RangePlace>),
}

/// A step to another spot, with the place of the way on from there.
fn on<'a>(next: Option<Spot<'a>>, behind: usize) -> Taken<'a>
    ensures range { (types : List Layout) (ways : List Way) → taken_range types ways result ≡ range_behind (way_range types (way_at ways behind)) (option_map seen_spot next.entry) }
    ensures before { (n : ℕ) → behind < n → IsBefore n result }
{
    match next {
        Some(spot) => Taken::On(spot, behind),
        None => Taken::End(None),
    }
}

/// Takes a step.
fn take_step<'a>(
    types: &TypeTable<'_, 'a>,
    step: Step<'a>,
    spot: Spot<'a>,
) -> Result<Taken<'a>, OutOfMemory>
    ensures range { (ways : List Way) → IfOk result (λ x. taken_range types.now ways x ≡ way_range types.now (way_of ways step.entry) (seen_spot spot.entry)) }
    ensures before { (n : ℕ) → IsStep n step.entry → IfOk result (IsBefore n) }
{
    match step {
        Step::Value => Ok(Taken::End(range_place_of(types, spot)?)),
        Step::Validity => Ok(Taken::End(None)),
        Step::Member(word, behind) => Ok(on(member(types, spot, word)?, behind)),
        Step::Element(number, behind) => Ok(on(element(types, spot, number)?, behind)),
        Step::Told(which, behind) => Ok(on(told_element(types, spot, which)?, behind)),
    }
}

/// The parts that a way from there leads to; none where it leads to no header, stack or struct.
pub fn follow<'a>(
    ways: &Ways<'a>,
    types: &TypeTable<'_, 'a>,
    place: usize,
    spot: Spot<'a>,
) -> Result<Option<RangePlace>, OutOfMemory>
    requires ways { AreWays ways.now }
    requires place { place < length (seen_ways ways.now) }
    ensures { IfOk result (λ range. range ≡ way_range types.now (way_at (seen_ways ways.now) place) (seen_spot spot.entry)) }
{
    let mut here = spot;
    let mut at = place;
    loop {
        match take_step(types, ways.step(at), here)? {
            Taken::On(next, behind) => {
                here = next;
                at = behind;
            }
            Taken::End(range) => return Ok(range),
        }
    }
}
