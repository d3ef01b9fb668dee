// The passes of packets.
ghost use Rattle.std.specs.Prelude.{◌≡◌, [], None, false, IfOk, OnOk};
ghost use Rattle.state_store.specs.Ports.{IsPort};
ghost use Rattle.fabric.specs.Owned.{IsOwnEgress, IsOwnIngress};
ghost use Rattle.match_core.specs.Stores.{shapes_of};
ghost use Rattle.p414_layout.specs.Shapes.{layout_of};
ghost use Rattle.p414_sem.specs.Controls.{Setting as Program};
ghost use Rattle.p414_sem.specs.Parsing.{parsed};
ghost use Rattle.p414_sem.specs.Passes.{begins, egress14, held_of};
ghost use Rattle.p414_sem.specs.Runs.{Between, events_of};
ghost use Rattle.p414_sem.specs.Signatures.{signature14};
ghost use Rattle.p414_passes.specs.Kept.{FitsKept};
ghost use Rattle.p414_pipe_run.specs.Held.{IsOfProgram, packed, shown_held};
ghost use Rattle.p414_pipe_run.specs.Packed.{left_by, own14, packed_egress, packed_ingress, packed_machine};
ghost use Rattle.p414_pipe_run.specs.Prepared.{comes_to, setting_of};
ghost use Rattle.p414_pipe_run.specs.internal.Ending.{IsRan, after_held};

use crate::held::Held14;
use crate::ready::ReadyProgram14;
use fabric::{EgressEnd, EgressNext, Event, IngressEnd, IngressNext, Item, Passes, Watched};
use p4x_bits::OutOfMemory;
use p414_control_run::ControlStack;
use p414_passes::{Kept14, begin_egress};
use p414_state::State14;
use state_store::Store;
use std::alloc::Global;
use std::marker::Model;

/// The passes of a program's packets (P4_14 1.0.5, "Packet Processing and Control Flow"): parsing, verification and ingress; parsing
/// alone of a clone; egress, updates and deparsing. They keep the counters, registers and meters. Contracts see the program with its
/// entries and rule, the store, and the applications of tables in the last call.
pub struct Passes14<'r, 'e> {
    alloc: Global,
    ready: &'r ReadyProgram14<'e>,
    stack: ControlStack<'r>,
    store: Store,
    events: Vec<Event>,
    // Not after want of memory in a control.
    usable: bool,
    // A state of a packet that isn't used any more.
    spare: Option<State14>,
}

impl Drop for Passes14<'_, '_> {
    fn drop(self) {
        let Passes14 {
            alloc: _alloc,
            ready: _ready,
            stack: _stack,
            store: _store,
            events: _events,
            usable: _usable,
            spare: _spare,
        } = self;
    }
}

impl<'r, 'e> Model for Passes14<'r, 'e> {
    ghost use Rattle.std.specs.Coded.{codes};
    ghost use Rattle.p414_syntax.specs.contracts.syntax.Decl as declaration;
    ghost use Rattle.p414_pipe_run.specs.Prepared.{Running};
    ghost use Rattle.p414_pipe_run.specs.internal.Kept.{AreKept};

    ghost Value = { Running };

    ghost coded = { Prim.hlevel (codes, declaration.the_row.coded) };

    ghost view = { λ p. record { prepared = p.ready.now; between = record { store = p.store; events = p.events.items } } };

    ghost invariant = { λ p. AreKept p.ready.now.loaded p.usable p.store p.spare };
}

impl<'r, 'e> Passes14<'r, 'e> {
    /// The passes of a ready program before the first packet, which finds this store. It takes no memory.
    pub fn new(alloc: Global, ready: &'r ReadyProgram14<'e>, store: Store) -> Passes14<'r, 'e>
        requires { store.shapes ≡ shapes_of (signature14 ready.now.loaded.decls) ready.now.loaded.entries }
        ensures { result ≡ record { prepared = ready.now; between = record { store = store; events = [] } } }
    {
        Passes14 {
            alloc,
            ready,
            stack: ControlStack::new(alloc),
            store,
            events: Vec::new(alloc),
            usable: true,
            spare: None,
        }
    }

    /// The counters, registers and meters as the packets so far left them.
    pub fn store(&self) -> &Store
        ensures { result.now ≡ self.now.between.store }
    {
        &self.store
    }

    /// The same by value. It takes no memory.
    pub fn into_store(self) -> Store
        ensures { result ≡ self.entry.between.store }
    {
        let Passes14 {
            alloc: _alloc,
            ready: _ready,
            stack: _stack,
            store,
            events: _events,
            usable: _usable,
            spare: _spare,
        } = self;
        store
    }
}

/// Ingress ends in a drop, and no clone is made.
fn dropped() -> IngressEnd<Kept14, Held14>
    ensures { result ≡ record { clone = None; next = IngressNext.Drop } }
{
    IngressEnd {
        clone: None,
        next: IngressNext::Drop,
    }
}

/// So does egress.
fn dropped_in_egress() -> EgressEnd<Kept14, Held14>
    ensures { result ≡ record { clone = None; end = EgressNext.Drop } }
{
    EgressEnd {
        clone: None,
        end: EgressNext::Drop,
    }
}

impl<'r, 'e> Passes14<'r, 'e> {
    /// Notes the tables that were applied.
    fn note(&mut self, events: &[Event]) -> Result<(), OutOfMemory>
        ensures { OnOk result (self.new ≡ record { prepared = self.old.prepared; between = record { store = self.old.between.store; events = events.now } }) }
    {
        self.events.clear();
        self.events.extend_from_slice(events)?;
        Ok(())
    }

    /// Parses an item. No table was applied.
    fn hold(&mut self, item: &Item<Kept14>) -> Result<Held14, OutOfMemory>
        requires port { IsPort item.now.port }
        requires kept { FitsKept (layout_of self.old.prepared.loaded.decls) item.now.kept }
        ensures forgotten { OnOk result (self.new ≡ record { prepared = self.old.prepared; between = record { store = self.old.between.store; events = [] } }) }
        ensures is { IfOk result (λ held. held ≡ packed self.old.prepared.loaded.decls (held_of (parsed self.old.prepared.loaded.decls (begins self.old.prepared.loaded.decls item.now)))) }
    {
        let spare = self.spare.take();
        let held = self.ready.hold(self.alloc, spare, item)?;
        self.events.clear();
        Ok(held)
    }

    /// Keeps the state of a packet that isn't used any more, for the next one.
    fn keep(&mut self, packet: State14)
        requires { packet.layout ≡ layout_of self.old.prepared.loaded.decls }
        ensures { self.new ≡ self.old }
    {
        self.spare = Some(packet);
    }

    /// No table was applied.
    fn forget(&mut self)
        ensures { self.new ≡ record { prepared = self.old.prepared; between = record { store = self.old.between.store; events = [] } } }
    {
        self.events.clear();
    }

    /// The control `ingress` runs on a packet.
    fn run_ingress(&mut self, packet: &mut State14) -> Result<(), OutOfMemory>
        requires { packet.old.layout ≡ layout_of self.old.prepared.loaded.decls }
        ensures prepared { OnOk result (self.new.prepared ≡ self.old.prepared) }
        ensures ran { OnOk result (IsRan self.old.prepared (comes_to self.old.prepared).ingress packet.old packet.new self.old.between.store self.new.between) }
    {
        if !self.usable {
            return Err(OutOfMemory);
        }
        self.usable = false;
        let ready = self.ready;
        ready.run_ingress(self.alloc, &mut self.stack, packet, &mut self.store)?;
        self.usable = true;
        self.note(packet.events())
    }

    /// The control `egress` runs on a packet.
    fn run_egress(&mut self, packet: &mut State14) -> Result<(), OutOfMemory>
        requires { packet.old.layout ≡ layout_of self.old.prepared.loaded.decls }
        ensures prepared { OnOk result (self.new.prepared ≡ self.old.prepared) }
        ensures ran { OnOk result (IsRan self.old.prepared (comes_to self.old.prepared).egress packet.old packet.new self.old.between.store self.new.between) }
    {
        if !self.usable {
            return Err(OutOfMemory);
        }
        self.usable = false;
        let ready = self.ready;
        ready.run_egress(self.alloc, &mut self.stack, packet, &mut self.store)?;
        self.usable = true;
        self.note(packet.events())
    }

    /// A packet that was parsed is verified, and goes through ingress.
    #[tactic(auto, using(crate::proofs::Passing::failed_drops, crate::proofs::Passing::wrong_drops))]
    fn go_through(&mut self, held: Held14) -> Result<IngressEnd<Kept14, Held14>, OutOfMemory>
        requires of { IsOfProgram self.old.prepared.loaded.decls held }
        requires forgotten { self.old.between.events ≡ [] }
        ensures prepared { OnOk result (self.new.prepared ≡ self.old.prepared) }
        ensures is { IfOk result (λ end. end ≡ packed_ingress self.old.prepared.loaded.decls (after_held (setting_of self.old.prepared) self.old.between.store (shown_held held)).answer) }
        ensures left { OnOk result (self.new.between ≡ left_by (after_held (setting_of self.old.prepared) self.old.between.store (shown_held held))) }
        ensures own { IfOk result (IsOwnIngress (own14 (setting_of self.old.prepared))) }
    {
        let Held14 { packet, failed } = held;
        if failed {
            return Ok(dropped());
        }
        let mut packet = packet;
        if self.ready.fails(self.alloc, &packet)? {
            return Ok(dropped());
        }
        self.run_ingress(&mut packet)?;
        let ended = self.ready.end_ingress(self.alloc, packet)?;
        Ok(ended)
    }

    /// A packet that wasn't dropped goes through egress.
    fn go_out(
        &mut self,
        packet: &mut State14,
        port: u16,
        kind: u32,
    ) -> Result<EgressEnd<Kept14, Held14>, OutOfMemory>
        requires port { IsPort port }
        requires layout { packet.old.layout ≡ layout_of self.old.prepared.loaded.decls }
        ensures layout { OnOk result (packet.new.layout ≡ packet.old.layout) }
        ensures prepared { OnOk result (self.new.prepared ≡ self.old.prepared) }
        ensures is { IfOk result (λ end. end ≡ packed_egress self.old.prepared.loaded.decls (egress14 (setting_of self.old.prepared) self.old.between.store (record { state = packet.old.state; failed = false }) port kind).answer) }
        ensures left { OnOk result (self.new.between ≡ left_by (egress14 (setting_of self.old.prepared) self.old.between.store (record { state = packet.old.state; failed = false }) port kind)) }
        ensures own { IfOk result (IsOwnEgress (own14 (setting_of self.old.prepared))) }
    {
        begin_egress(packet, port, kind)?;
        self.run_egress(packet)?;
        let ended = self.ready.end_egress(self.alloc, packet)?;
        Ok(ended)
    }
}

impl<'r, 'e> Passes for Passes14<'r, 'e> {
    type Kept = Kept14;

    type Held = Held14;

    ghost Setting = { Program };

    ghost setting = { λ p. setting_of p.prepared };

    ghost State = { Between };

    ghost state = { λ p. p.between };

    ghost machine = { packed_machine };

    ghost own = { own14 };

    ghost events_of = { events_of };

    fn nothing(&mut self) -> Result<Kept14, OutOfMemory> {
        let kept = self.ready.nothing(self.alloc)?;
        Ok(kept)
    }

    fn ingress(&mut self, item: &Item<Kept14>) -> Result<IngressEnd<Kept14, Held14>, OutOfMemory> {
        let held = self.hold(item)?;
        let ended = self.go_through(held)?;
        Ok(ended)
    }

    fn reparse(&mut self, item: &Item<Kept14>) -> Result<Held14, OutOfMemory> {
        let held = self.hold(item)?;
        Ok(held)
    }

    #[tactic(auto, using(crate::proofs::Passing::failed_out))]
    fn egress(
        &mut self,
        held: Held14,
        port: u16,
        instance: u32,
    ) -> Result<EgressEnd<Kept14, Held14>, OutOfMemory> {
        self.forget();
        let Held14 { packet, failed } = held;
        if failed {
            return Ok(dropped_in_egress());
        }
        let mut packet = packet;
        let ended = self.go_out(&mut packet, port, instance)?;
        self.keep(packet);
        Ok(ended)
    }
}

impl<'r, 'e> Watched for Passes14<'r, 'e> {
    fn events(&self) -> &[Event] {
        &self.events
    }
}
