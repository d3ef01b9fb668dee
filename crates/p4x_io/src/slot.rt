// One name of a desk in memory: its file, the room for it and the failures that were asked for.
ghost use Rattle.std.specs.Prelude.{◌≤◌, Some, None, cond, vec_capacity, unwrap_or, string_bytes};
ghost use Rattle.p4x_io.specs.Memory.{Named};

use std::marker::Model;

// Contracts see the name and what is known of it.
pub struct Slot {
    name: String,
    there: bool,
    octets: Vec<u8>,
    room: Option<usize>,
    reads: u64,
    appends: u64,
    failing_reads: Vec<u64>,
    failing_appends: Vec<u64>,
}

impl Drop for Slot {
    fn drop(self) {
        let Slot {
            name: _name,
            there: _there,
            octets: _octets,
            room: _room,
            reads: _reads,
            appends: _appends,
            failing_reads: _failing_reads,
            failing_appends: _failing_appends,
        } = self;
    }
}

impl Model for Slot {
    ghost Value = { Named };

    ghost view = { λ s. record {
      name = string_bytes s.name;
      known = record {
        file = cond s.there (Some s.octets.items) None;
        room = s.room;
        reads = s.reads;
        appends = s.appends;
        failing_reads = s.failing_reads.items;
        failing_appends = s.failing_appends.items;
      };
    } };

    // There is memory for the room, so an append takes none.
    ghost invariant = { λ s. unwrap_or s.room 0 ≤ vec_capacity s.octets };
}

// What may be asked of a name.
#[derive(Clone, Copy, Drop)]
pub enum Ask<'a> {
    Put(&'a [u8]),
    Room(usize),
    FailRead(u64),
    FailAppend(u64),
}

mod calls;
