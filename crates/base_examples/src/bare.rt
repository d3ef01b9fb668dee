// A runner that keeps nothing.
ghost use Rattle.std.specs.Prelude.{ℕ, List, [], ◌≡◌};
ghost use Rattle.fabric.specs.declared.items.Event.{Event as Applied};
ghost use Rattle.fabric.specs.Owned.{own_any};
ghost use Rattle.base_examples.specs.Machines.{bare};

use crate::steps::{applied, egress_end, ingress_end};
use fabric::{EgressEnd, Event, IngressEnd, Item, Passes, Watched};
use p4x_bits::{Octets, OutOfMemory, Rows};
use std::alloc::Global;

/// Passes that keep nothing but the events of the last call.
#[derive(Drop)]
pub struct Bare {
    alloc: Global,
    last: Rows<Event>,
}

impl Bare {
    /// The passes before the first one.
    pub fn new(alloc: Global) -> Bare
        ensures { result.last ≡ [] }
    {
        Bare {
            alloc,
            last: Rows::new(alloc),
        }
    }
}

impl Passes for Bare {
    type Kept = u8;

    type Held = Octets;

    ghost Setting = { Unit {0} };

    ghost setting = { λ passes. tt };

    ghost State = { List Applied };

    ghost state = { λ passes. passes.last };

    ghost machine = { λ setting. bare };

    ghost own = { λ setting. own_any };

    ghost events_of = { λ state. state };

    fn nothing(&mut self) -> Result<u8, OutOfMemory> {
        self.last.clear();
        Ok(0)
    }

    fn ingress(&mut self, item: &Item<u8>) -> Result<IngressEnd<u8, Octets>, OutOfMemory> {
        self.last.clear();
        self.last.push(applied(item.octets.as_slice()))?;
        ingress_end(self.alloc, item)
    }

    fn reparse(&mut self, item: &Item<u8>) -> Result<Octets, OutOfMemory> {
        self.last.clear();
        Octets::from_slice(self.alloc, item.octets.as_slice())
    }

    fn egress(
        &mut self,
        held: Octets,
        _port: u16,
        instance: u32,
    ) -> Result<EgressEnd<u8, Octets>, OutOfMemory> {
        self.last.clear();
        egress_end(self.alloc, held, instance)
    }
}

impl Watched for Bare {
    fn events(&self) -> &[Event] {
        self.last.as_slice()
    }
}
