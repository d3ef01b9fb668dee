// The calls of a runner that make the passes.
ghost use Rattle.std.specs.Prelude.{◌≡◌, List, IfOk, OnOk};
ghost use Rattle.state_store.specs.Ports.{IsPort};
ghost use Rattle.fabric.specs.declared.items.Event.{Event as Applied};
ghost use Rattle.fabric.specs.Fabric.{Machine};
ghost use Rattle.fabric.specs.Owned.{Own, IsOwnItem, IsOwnIngress, IsOwnEgress};

use crate::items::{EgressEnd, Event, IngressEnd, Item};
use p4x_bits::OutOfMemory;

/// The passes of a runner. Each call is a function of the runner's state and of its arguments, but for want of
/// memory, after which the passes are not used again.
pub trait Passes {
    /// What is preserved of metadata from one pass to the next.
    type Kept: Drop;

    /// What is held of a packet between ingress and egress.
    type Held: Drop;

    // What the runner is set up with, as the program and what stands in its tables. It stays.
    ghost Setting: { Type 0 };

    ghost setting: { Self → Setting };

    // What the calls change.
    ghost State: { Type 0 };

    ghost state: { Self → State };

    // What each call means.
    ghost machine: { Setting → Machine State Self.Kept Self.Held };

    // Which values are the runner's own.
    ghost own: { Setting → Own Self.Kept Self.Held };

    // The events of the last call, which the state that it left tells.
    ghost events_of: { State → List Applied };

    /// What is preserved for a packet that comes in.
    fn nothing(&mut self) -> Result<Self::Kept, OutOfMemory>
        ensures setting { OnOk result (setting self.new ≡ setting self.old) }
        ensures gives { IfOk result (λ kept. (machine (setting self.old)).nothing (state self.old) ≡ (kept, state self.new)) }
        ensures own { IfOk result (λ kept. (own (setting self.old)).kept kept) };

    /// Parsing, verification and ingress of an item, which has a port that packets come in on. Where it goes on
    /// to egress, it does so on such a port.
    fn ingress(
        &mut self,
        item: &Item<Self::Kept>,
    ) -> Result<IngressEnd<Self::Kept, Self::Held>, OutOfMemory>
        requires { IsOwnItem (own (setting self.old)) item.now }
        ensures setting { OnOk result (setting self.new ≡ setting self.old) }
        ensures gives { IfOk result (λ ended. (machine (setting self.old)).ingress (state self.old) item.now ≡ (ended, state self.new)) }
        ensures own { IfOk result (λ ended. IsOwnIngress (own (setting self.old)) ended) };

    /// Parsing alone, of a clone made at the end of ingress.
    fn reparse(&mut self, item: &Item<Self::Kept>) -> Result<Self::Held, OutOfMemory>
        requires { IsOwnItem (own (setting self.old)) item.now }
        ensures setting { OnOk result (setting self.new ≡ setting self.old) }
        ensures gives { IfOk result (λ held. (machine (setting self.old)).reparse (state self.old) item.now ≡ (held, state self.new)) }
        ensures own { IfOk result (λ held. (own (setting self.old)).held held) };

    /// Egress of what is held, on a port that packets leave on and as an item of this kind, and behind it the
    /// update of calculated fields and deparsing.
    fn egress(
        &mut self,
        held: Self::Held,
        port: u16,
        instance: u32,
    ) -> Result<EgressEnd<Self::Kept, Self::Held>, OutOfMemory>
        requires port { IsPort port }
        requires own { (own (setting self.old)).held held }
        ensures setting { OnOk result (setting self.new ≡ setting self.old) }
        ensures gives { IfOk result (λ ended. (machine (setting self.old)).egress (state self.old) held port instance ≡ (ended, state self.new)) }
        ensures own { IfOk result (λ ended. IsOwnEgress (own (setting self.old)) ended) };
}

/// Passes that tell the tables that were applied.
pub trait Watched: Passes {
    /// The events of the last call that didn't fail, in order.
    fn events(&self) -> &[Event]
        ensures { result.now ≡ Self.events_of (Self.state self.now) };
}
