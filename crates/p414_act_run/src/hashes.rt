// Hashes of field lists.
ghost use Rattle.std.specs.Prelude.{◌≡◌, ◌^◌, ◌<◌, ◌≤◌, pos};
ghost use Rattle.p414_sem.specs.Wholes.{kept};
ghost use Rattle.p414_sem.specs.Effects.{offset_of};
ghost use Rattle.p414_ready_actions.specs.Running.{hash_effect};
ghost use Rattle.p414_act_run.specs.Fits.{FitsTarget};
ghost use Rattle.p414_act_run.specs.Moments.{Gives, moment};

use crate::effect::Effect;
use crate::fields::{bits_of, is_live};
use crate::sources::natural_of;
use p414_ready_actions::{ReadySource, ReadyTarget};
use p414_state::State14;
use p414_wholes::{Whole, kept, kept_sum};
use state_store::Store;

/// A base and a result modulo a bound, or the base where the bound is 0, as a field of so many bits keeps it.
#[tactic(auto, using(crate::proofs::Giving::offset_none, crate::proofs::Giving::offset_some))]
fn offset_kept(saturates: bool, width: u8, base: u128, hashed: u128, bound: u128) -> u128
    requires { width ≤ 128 }
    ensures is { result ≡ kept saturates width (pos (offset_of base hashed bound)) }
    ensures fits { result < 2 ^ width }
{
    if bound == 0 {
        kept(saturates, width, Whole::Plus(base))
    } else {
        kept_sum(
            saturates,
            width,
            Whole::Plus(base),
            Whole::Plus(hashed % bound),
        )
    }
}

/// A field gets a base and a calculation's result modulo a bound; nothing where the field's header is invalid.
#[tactic(auto, using(crate::proofs::Giving::hashed_dead, crate::proofs::Giving::hashed_live))]
pub fn hashed_effect(
    state: &State14,
    store: &Store,
    arguments: &[u128],
    target: ReadyTarget,
    base: ReadySource,
    hashed: u128,
    bound: ReadySource,
) -> Option<Effect>
    requires { FitsTarget state.now.layout target }
    ensures { Gives state.now.layout store.now.shapes result (hash_effect arguments.now (moment state.now store.now) target base hashed bound) }
{
    if !is_live(state, target.slot) {
        return None;
    }
    let width = bits_of(state, target.slot);
    let base = natural_of(state, arguments, base);
    let bound = natural_of(state, arguments, bound);
    let number = offset_kept(target.saturates, width, base, hashed, bound);
    Some(Effect::PutField(target.slot, number))
}
