// The states in which packets are handed on.
ghost use Rattle.std.specs.Prelude.{◌≡◌, List, [], false, IfOk, OnOk};
ghost use Rattle.state_store.specs.Ports.{IsPort};
ghost use Rattle.p414_sem.specs.State.{without_requests};
ghost use Rattle.p414_syntax.specs.declared.syntax.Decl.{Decl};
ghost use Rattle.p414_layout.specs.Shapes.{layout_of};
ghost use Rattle.p414_sem.specs.Passes.{cloned, egress_begins};
ghost use Rattle.p414_state.specs.Packets.{with_state};
ghost use Rattle.p414_passes.specs.Kept.{FitsKept};
ghost use Rattle.p414_passes.specs.Leaving.{AreWhole};

use crate::begin::put_kept;
use crate::kept::Kept14;
use fabric::RequestKind;
use p4x_bits::OutOfMemory;
use p414_state::{Standard, State14};
use std::alloc::Global;

/// Forgets all requests. It takes no memory.
fn clear_requests(state: &mut State14) -> Result<(), OutOfMemory>
    ensures { OnOk result (state.new ≡ with_state state.old (without_requests state.old.state)) }
{
    state.put_request(RequestKind::CloneI2E, None)?;
    state.put_request(RequestKind::CloneE2E, None)?;
    state.put_request(RequestKind::Resubmit, None)?;
    state.put_request(RequestKind::Recirculate, None)
}

/// A packet goes on from ingress to egress: nothing is requested, and no application of a table is noted. It takes no memory.
pub fn hand_on(state: &mut State14) -> Result<(), OutOfMemory>
    ensures { OnOk result (state.new ≡ with_state state.old (record (without_requests state.old.state) { events = [] })) }
{
    clear_requests(state)?;
    state.clear_events();
    Ok(())
}

/// Egress of a packet begins, on this port and of this kind. It takes no memory.
pub fn begin_egress(state: &mut State14, port: u16, kind: u32) -> Result<(), OutOfMemory>
    requires { IsPort port }
    ensures { OnOk result (state.new ≡ with_state state.old (egress_begins state.old.state port kind)) }
{
    hand_on(state)?;
    state.put_standard(Standard::EgressSpec, 0)?;
    state.put_standard(Standard::EgressPort, port as u32)?;
    state.put_standard(Standard::InstanceType, kind)
}

/// The clone of a packet that is made behind egress: its headers, what wasn't parsed, its length and its port of arrival, with
/// what is preserved as its metadata (P4_14 1.0.5, "Clone"). The one error is want of memory.
#[tactic(auto, using(crate::proofs::Beginning::clone_as))]
pub fn clone_packet(alloc: Global, state: &State14, kept: &Kept14) -> Result<State14, OutOfMemory>
    requires whole { AreWhole state.now.layout }
    requires fits { FitsKept state.now.layout kept.now }
    ensures { IfOk result (λ clone. (ds : List Decl) → state.now.layout ≡ layout_of ds → (record { state = clone.state; failed = false } ≡ cloned ds kept.now state.now.state) × (clone.layout ≡ layout_of ds)) }
{
    let mut clone = state.copy(alloc)?;
    put_kept(&mut clone, kept)?;
    begin_egress(&mut clone, 0, 0)?;
    Ok(clone)
}
