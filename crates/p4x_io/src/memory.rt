// A desk in memory, which tells its files.
ghost use Rattle.p4x_io.specs.Memory.{Held};

use crate::slot::Slot;
use std::alloc::Global;
use std::marker::Model;

/// A desk that keeps its files in memory and fails where that was asked for.
///
/// Contracts see it as one record (`Held` of the crate's definitions): the names that were mentioned,
/// with what is known of each (`known` looks one up), and how many of its calls failed, a count that
/// stands still at 2^64 - 1.
#[derive(Drop)]
pub struct MemoryDesk {
    alloc: Global,
    slots: Vec<Slot>,
    faults: u64,
}

impl Model for MemoryDesk {
    ghost Value = { Held };

    ghost view = { λ d. record { names = d.slots.items; faults = d.faults } };
}

mod calls;
