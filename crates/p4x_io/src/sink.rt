// A sink in memory, which tells what was printed.
ghost use Rattle.std.specs.Prelude.{◌≤◌, vec_capacity};
ghost use Rattle.p4x_io.specs.Memory.{Printed};

use std::marker::Model;

/// A sink that keeps what is printed in memory and fails where that was asked for.
///
/// Contracts see it as one record (`Printed` of the crate's definitions): what was printed, the room,
/// the writes so far, those that fail, and a count of faults that stands still at 2^64 - 1.
pub struct MemorySink {
    text: Vec<u8>,
    room: usize,
    calls: u64,
    failing: Vec<u64>,
    faults: u64,
}

impl Drop for MemorySink {
    fn drop(self) {
        let MemorySink {
            text: _text,
            room: _room,
            calls: _calls,
            failing: _failing,
            faults: _faults,
        } = self;
    }
}

impl Model for MemorySink {
    ghost Value = { Printed };

    ghost view = { λ s. record {
      text = s.text.items;
      room = s.room;
      calls = s.calls;
      failing = s.failing.items;
      faults = s.faults;
    } };

    // There is memory for the room, so a write takes none.
    ghost invariant = { λ s. s.room ≤ vec_capacity s.text };
}

mod calls;
