// The law of twins, used on the two runners.
ghost use Rattle.std.specs.Prelude.{◌≡◌, ◌%◌, ◌^◌, ℕ, List, [], All, IfOk};
ghost use Rattle.state_store.specs.declared.ports.Session.{Session as CloneSession};
ghost use Rattle.state_store.specs.Ports.{AreSessions};
ghost use Rattle.fabric.specs.declared.items.Event.{Event as Applied};
ghost use Rattle.fabric.specs.Numbers.{IsBound, HasPort};
ghost use Rattle.fabric.specs.Fabric.{fabric_of};
ghost use Rattle.fabric.specs.Twins.{SameFates, fit_any};
ghost use Rattle.fabric.specs.Traces.{SameTraces};
ghost use Rattle.base_examples.specs.Machines.{bare, counting};
ghost use Rattle.base_examples.specs.Same.{Is, SameState, steps, events};

use crate::counting::Counting;
use fabric::{Arrival, Total, Twins, same_fates, same_traces, serve_all};
use p4x_bits::OutOfMemory;
use state_store::Session;
use std::alloc::Global;

/// The pair of the two runners.
struct Both;

impl Twins for Both {
    ghost Name = { Unit {0} };

    ghost State = { List Applied };

    ghost Kept = { ℕ };

    ghost Held = { List ℕ };

    ghost OtherState = { ℕ × List Applied };

    ghost OtherKept = { ℕ };

    ghost OtherHeld = { List ℕ };

    ghost first = { λ name. bare };

    ghost second = { λ name. counting };

    ghost fit = { fit_any };

    ghost same_state = { λ name. SameState };

    ghost same_kept = { λ name. Is };

    ghost same_held = { λ name. Is };

    ghost first_events = { λ state. state };

    ghost second_events = { λ state. state.1 };

    fn twins() {}

    ghost steps = { λ name. steps };

    ghost events = { λ name. events };
}

/// Both runners send the same and cut as many, and have the same traces, for all sessions, arrivals and bounds, whatever
/// was counted before.
pub fn both_send_the_same()
    ensures fates { (sessions : List CloneSession) (count : ℕ) (last : List Applied) → SameFates fit_any SameState sessions bare counting last (count, last) }
    ensures traces { (sessions : List CloneSession) (count : ℕ) (last : List Applied) → SameTraces fit_any sessions (λ s. s) (λ t. t.1) bare counting last (count, last) }
{
    same_fates::<Both>();
    same_traces::<Both>();
}

/// What the runner that counts sends for a list of arrivals, which is what the runner that keeps nothing would send.
///
/// # Errors
/// It fails for want of memory alone.
pub fn sent_by_counting(
    alloc: Global,
    sessions: &[Session],
    arrivals: &[Arrival],
    bound: u32,
) -> Result<Total, OutOfMemory>
    requires sessions { AreSessions sessions.now }
    requires from { All HasPort arrivals.now }
    requires bound { IsBound bound }
    ensures sent { IfOk result (λ total. total.sent ≡ (fabric_of bare sessions.now bound [] arrivals.now).sent) }
    ensures cut { IfOk result (λ total. total.cut ≡ (fabric_of bare sessions.now bound [] arrivals.now).cut % 2 ^ 64) }
{
    both_send_the_same();
    let mut passes = Counting::new(alloc);
    let total = serve_all(alloc, &mut passes, sessions, arrivals, bound)?;
    Ok(total)
}
