// How ingress and egress end.
ghost use Rattle.std.specs.Prelude.{◌≡◌, List, IfOk, OnOk, option_map};
ghost use Rattle.fabric.specs.Owned.{IsOwnClone, IsOwnEgress, IsOwnEgressNext, IsOwnIngress, IsOwnIngressNext};
ghost use Rattle.p414_syntax.specs.declared.syntax.Decl.{Decl};
ghost use Rattle.p414_layout.specs.Shapes.{layout_of};
ghost use Rattle.p414_sem.specs.Passes.{asked_clone, asked_egress_clone, leaves, next_after};
ghost use Rattle.p414_passes.specs.Kept.{FitsKept};
ghost use Rattle.p414_pipe_run.specs.Held.{IsOfProgram};
ghost use Rattle.p414_pipe_run.specs.Packed.{own14, packed_clone, packed_egress, packed_ingress, packed_next};
ghost use Rattle.p414_pipe_run.specs.Prepared.{comes_to, setting_of};
ghost use Rattle.p414_pipe_run.specs.internal.Ending.{egress_answer, egress_way, going_on, ingress_answer};

use crate::held::Held14;
use crate::ready::ReadyProgram14;
use fabric::{EgressEnd, EgressNext, IngressEnd, IngressNext, RequestKind};
use p4x_bits::OutOfMemory;
use p414_passes::{Kept14, hand_on};
use p414_state::{Request14, Standard, State14};
use state_store::DROP_PORT;
use std::alloc::Global;

/// A packet that isn't resubmitted goes on to egress, or is dropped. It takes no memory.
#[tactic(auto, using(crate::proofs::Ending::drops_there, crate::proofs::Ending::goes_there))]
fn go_on(packet: State14) -> Result<IngressNext<Kept14, Held14>, OutOfMemory>
    ensures is { IfOk result (λ next. (ds : List Decl) → packet.layout ≡ layout_of ds → next ≡ packed_next ds (going_on packet.state)) }
    ensures own { IfOk result (λ next. (ds : List Decl) → packet.layout ≡ layout_of ds → IsOwnIngressNext (record { kept = FitsKept (layout_of ds); held = IsOfProgram ds }) next) }
{
    let mut packet = packet;
    let spec = packet.standard(Standard::EgressSpec);
    if spec == u32::from(DROP_PORT) {
        return Ok(IngressNext::Drop);
    }
    hand_on(&mut packet)?;
    Ok(IngressNext::Go(
        spec as u16,
        Held14 {
            packet,
            failed: false,
        },
    ))
}

impl<'r> ReadyProgram14<'r> {
    /// The clone that was asked for in ingress.
    fn ask_clone(
        &self,
        alloc: Global,
        packet: &State14,
    ) -> Result<Option<(u32, Kept14)>, OutOfMemory>
        requires { packet.now.layout ≡ layout_of self.now.loaded.decls }
        ensures is { IfOk result (λ asked. asked ≡ option_map (asked_clone self.now.loaded.decls (comes_to self.now) packet.now.state) packet.now.state.clone_i2e) }
        ensures own { IfOk result (IsOwnClone (FitsKept (layout_of self.now.loaded.decls))) }
    {
        match packet.request(RequestKind::CloneI2E) {
            Some(request) => {
                let kept = self.preserve(alloc, request.list, packet)?;
                Ok(Some((request.session, kept)))
            }
            None => Ok(None),
        }
    }

    /// What comes of a packet behind ingress.
    fn next_after(
        &self,
        alloc: Global,
        packet: State14,
    ) -> Result<IngressNext<Kept14, Held14>, OutOfMemory>
        requires { packet.layout ≡ layout_of self.now.loaded.decls }
        ensures is { IfOk result (λ next. next ≡ packed_next self.now.loaded.decls (next_after self.now.loaded.decls (comes_to self.now) packet.state packet.state.resubmit)) }
        ensures own { IfOk result (IsOwnIngressNext (own14 (setting_of self.now))) }
    {
        match packet.request(RequestKind::Resubmit) {
            Some(request) => {
                let kept = self.preserve(alloc, request.list, &packet)?;
                Ok(IngressNext::Resubmit(kept))
            }
            None => go_on(packet),
        }
    }

    /// How ingress of a packet ends. The one error is want of memory.
    pub(crate) fn end_ingress(
        &self,
        alloc: Global,
        packet: State14,
    ) -> Result<IngressEnd<Kept14, Held14>, OutOfMemory>
        requires { packet.layout ≡ layout_of self.now.loaded.decls }
        ensures is { IfOk result (λ end. end ≡ packed_ingress self.now.loaded.decls (ingress_answer self.now.loaded.decls (comes_to self.now) packet.state)) }
        ensures own { IfOk result (IsOwnIngress (own14 (setting_of self.now))) }
    {
        let clone = self.ask_clone(alloc, &packet)?;
        let next = self.next_after(alloc, packet)?;
        Ok(IngressEnd { clone, next })
    }

    /// The clone that a request in egress asks for.
    fn clone_asked(
        &self,
        alloc: Global,
        packet: &State14,
        request: Request14,
    ) -> Result<(u32, Held14), OutOfMemory>
        requires { packet.now.layout ≡ layout_of self.now.loaded.decls }
        ensures is { IfOk result (λ asked. Some asked ≡ packed_clone self.now.loaded.decls (Some (asked_egress_clone self.now.loaded.decls (comes_to self.now) packet.now.state request))) }
        ensures own { IfOk result (λ asked. IsOfProgram self.now.loaded.decls asked.1) }
    {
        let clone = self.clone_for(alloc, request.list, packet)?;
        Ok((
            request.session,
            Held14 {
                packet: clone,
                failed: false,
            },
        ))
    }

    /// The clone that was asked for in egress.
    fn ask_egress_clone(
        &self,
        alloc: Global,
        packet: &State14,
    ) -> Result<Option<(u32, Held14)>, OutOfMemory>
        requires { packet.now.layout ≡ layout_of self.now.loaded.decls }
        ensures is { IfOk result (λ asked. asked ≡ packed_clone self.now.loaded.decls (option_map (asked_egress_clone self.now.loaded.decls (comes_to self.now) packet.now.state) packet.now.state.clone_e2e)) }
        ensures own { IfOk result (IsOwnClone (IsOfProgram self.now.loaded.decls)) }
    {
        match packet.request(RequestKind::CloneE2E) {
            Some(request) => Ok(Some(self.clone_asked(alloc, packet, request)?)),
            None => Ok(None),
        }
    }

    /// A packet that isn't dropped takes another pass, or is sent.
    fn send_or_go_again(
        &self,
        alloc: Global,
        packet: &mut State14,
    ) -> Result<EgressNext<Kept14>, OutOfMemory>
        requires { packet.old.layout ≡ layout_of self.now.loaded.decls }
        ensures is { IfOk result (λ end. end ≡ leaves self.now.loaded.decls (comes_to self.now) packet.old.state packet.old.state.recirculate) }
        ensures layout { OnOk result (packet.new.layout ≡ packet.old.layout) }
        ensures own { IfOk result (IsOwnEgressNext (own14 (setting_of self.now))) }
    {
        match packet.request(RequestKind::Recirculate) {
            Some(request) => {
                let kept = self.preserve(alloc, request.list, packet)?;
                let octets = self.leave(alloc, packet)?;
                Ok(EgressNext::Recirculate(octets, kept))
            }
            None => {
                let octets = self.leave(alloc, packet)?;
                Ok(EgressNext::Send(octets))
            }
        }
    }

    /// What comes of a packet behind egress.
    #[tactic(auto, using(crate::proofs::Ending::drops_behind, crate::proofs::Ending::goes_behind))]
    fn end_after(
        &self,
        alloc: Global,
        packet: &mut State14,
    ) -> Result<EgressNext<Kept14>, OutOfMemory>
        requires { packet.old.layout ≡ layout_of self.now.loaded.decls }
        ensures is { IfOk result (λ end. end ≡ egress_way self.now.loaded.decls (comes_to self.now) packet.old.state) }
        ensures layout { OnOk result (packet.new.layout ≡ packet.old.layout) }
        ensures own { IfOk result (IsOwnEgressNext (own14 (setting_of self.now))) }
    {
        if packet.standard(Standard::EgressSpec) == u32::from(DROP_PORT) {
            return Ok(EgressNext::Drop);
        }
        self.send_or_go_again(alloc, packet)
    }

    /// How egress of a packet ends. The one error is want of memory.
    pub(crate) fn end_egress(
        &self,
        alloc: Global,
        packet: &mut State14,
    ) -> Result<EgressEnd<Kept14, Held14>, OutOfMemory>
        requires { packet.old.layout ≡ layout_of self.now.loaded.decls }
        ensures is { IfOk result (λ end. end ≡ packed_egress self.now.loaded.decls (egress_answer self.now.loaded.decls (comes_to self.now) packet.old.state)) }
        ensures layout { OnOk result (packet.new.layout ≡ packet.old.layout) }
        ensures own { IfOk result (IsOwnEgress (own14 (setting_of self.now))) }
    {
        let clone = self.ask_egress_clone(alloc, packet)?;
        let end = self.end_after(alloc, packet)?;
        Ok(EgressEnd { clone, end })
    }
}
