// A runner that counts.
ghost use Rattle.std.specs.Prelude.{ℕ, List, [], ◌≡◌};
ghost use Rattle.fabric.specs.declared.items.Event.{Event as Applied};
ghost use Rattle.fabric.specs.Owned.{own_any};
ghost use Rattle.base_examples.specs.Machines.{counting};

use crate::steps::{applied, egress_end, ingress_end};
use fabric::{EgressEnd, Event, IngressEnd, Item, Passes, Watched};
use p4x_bits::{Octets, OutOfMemory, Rows};
use std::alloc::Global;

/// Passes that count how often an item went through ingress.
#[derive(Drop)]
pub struct Counting {
    alloc: Global,
    /// How often an item went through ingress so far, modulo 2^64.
    pub count: u64,
    last: Rows<Event>,
}

impl Counting {
    /// The passes before the first one.
    pub fn new(alloc: Global) -> Counting
        ensures count { result.count ≡ 0 }
        ensures last { result.last ≡ [] }
    {
        Counting {
            alloc,
            count: 0,
            last: Rows::new(alloc),
        }
    }
}

impl Passes for Counting {
    type Kept = u8;

    type Held = Octets;

    ghost Setting = { Unit {0} };

    ghost setting = { λ passes. tt };

    ghost State = { ℕ × List Applied };

    ghost state = { λ passes. (passes.count, passes.last) };

    ghost machine = { λ setting. counting };

    ghost own = { λ setting. own_any };

    ghost events_of = { λ state. state.1 };

    fn nothing(&mut self) -> Result<u8, OutOfMemory> {
        self.last.clear();
        Ok(0)
    }

    fn ingress(&mut self, item: &Item<u8>) -> Result<IngressEnd<u8, Octets>, OutOfMemory> {
        self.count = self.count.wrapping_add(1);
        self.last.clear();
        self.last.push(applied(item.octets.as_slice()))?;
        ingress_end(self.alloc, item)
    }

    fn reparse(&mut self, item: &Item<u8>) -> Result<Octets, OutOfMemory> {
        self.last.clear();
        Octets::from_slice(self.alloc, item.octets.as_slice())
    }

    fn egress(
        &mut self,
        held: Octets,
        _port: u16,
        instance: u32,
    ) -> Result<EgressEnd<u8, Octets>, OutOfMemory> {
        self.last.clear();
        egress_end(self.alloc, held, instance)
    }
}

impl Watched for Counting {
    fn events(&self) -> &[Event] {
        self.last.as_slice()
    }
}
