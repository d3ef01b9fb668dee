// The numbers that fields get.
ghost use Rattle.std.specs.Prelude.{◌≡◌, ◌^◌, ◌<◌, ◌≤◌, pos, []};
ghost use Rattle.p414_sem.specs.Wholes.{kept, masked};
ghost use Rattle.p414_sem.specs.State.{read};
ghost use Rattle.p414_sem.specs.Effects.{source_number, term_number};
ghost use Rattle.p414_slots.specs.Shown.{slot_in};
ghost use Rattle.p414_wholes.specs.Shown.{whole_in};
ghost use Rattle.p414_ready_actions.specs.Running.{shown_source, shown_term};
ghost use Rattle.p414_act_run.specs.Fits.{FitsTerm};
ghost use Rattle.p414_act_run.specs.Moments.{moment};

use crate::fields::read;
use crate::sources::{index_of, natural_of, number_of};
use p414_ready_actions::{ReadySource, ReadyTerm};
use p414_slots::FieldSlot;
use p414_state::State14;
use p414_wholes::{
    Whole, and_of, kept, kept_difference, kept_sum, masked, or_of, shifted_left, shifted_right,
    xor_of,
};
use state_store::Store;

/// A number on the bits of a mask, and a field's own bits elsewhere.
fn on_mask(
    state: &State14,
    arguments: &[u128],
    slot: FieldSlot,
    source: ReadySource,
    mask: ReadySource,
) -> Whole
    ensures { whole_in result ≡ masked (pos (read state.now.state (slot_in slot))) (source_number arguments.now state.now.state (shown_source source)) (source_number arguments.now state.now.state (shown_source mask)) }
{
    let target = Whole::Plus(read(state, slot));
    let source = number_of(state, arguments, source);
    let mask = number_of(state, arguments, mask);
    masked(target, source, mask)
}

/// The number that a field of so many bits gets, as it keeps it. The field may saturate.
pub fn term_number(
    state: &State14,
    store: &Store,
    arguments: &[u128],
    saturates: bool,
    width: u8,
    slot: FieldSlot,
    term: ReadyTerm,
) -> u128
    requires width { width ≤ 128 }
    requires term { FitsTerm store.now.shapes term }
    ensures is { result ≡ kept saturates width (term_number [] arguments.now (moment state.now store.now) (slot_in slot) (shown_term term)) }
    ensures fits { result < 2 ^ width }
{
    match term {
        ReadyTerm::Just(a) => kept(saturates, width, number_of(state, arguments, a)),
        ReadyTerm::OnMask(a, mask) => {
            kept(saturates, width, on_mask(state, arguments, slot, a, mask))
        }
        ReadyTerm::Sum(a, b) => kept_sum(
            saturates,
            width,
            number_of(state, arguments, a),
            number_of(state, arguments, b),
        ),
        ReadyTerm::Difference(a, b) => kept_difference(
            saturates,
            width,
            number_of(state, arguments, a),
            number_of(state, arguments, b),
        ),
        ReadyTerm::And(a, b) => kept(
            saturates,
            width,
            and_of(
                number_of(state, arguments, a),
                number_of(state, arguments, b),
            ),
        ),
        ReadyTerm::Or(a, b) => kept(
            saturates,
            width,
            or_of(
                number_of(state, arguments, a),
                number_of(state, arguments, b),
            ),
        ),
        ReadyTerm::Xor(a, b) => kept(
            saturates,
            width,
            xor_of(
                number_of(state, arguments, a),
                number_of(state, arguments, b),
            ),
        ),
        ReadyTerm::LeftShift(a, count) => shifted_left(
            saturates,
            width,
            natural_of(state, arguments, a),
            natural_of(state, arguments, count),
        ),
        ReadyTerm::RightShift(a, count) => kept(
            saturates,
            width,
            Whole::Plus(shifted_right(
                natural_of(state, arguments, a),
                natural_of(state, arguments, count),
            )),
        ),
        ReadyTerm::Cell { object, index } => kept(
            saturates,
            width,
            Whole::Plus(store.read(object, index_of(state, arguments, index))),
        ),
    }
}
