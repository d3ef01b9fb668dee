ghost use Rattle.std.specs.Prelude.{◌≡◌, ◌≤◌, ◌<◌, ◌-◌, [], ◌++◌, length, take, min, Some, IfOk, OnOk, OnErr};
ghost use Rattle.std.specs.Result.{is_err};
ghost use Rattle.p4x_io.specs.Memory.{printed_view, write_fails, after_write, with_failing_write};
ghost use Rattle.p4x_io.specs.Desk.{Rose, Takes, said};

use crate::desk::Sink;
use crate::faults::{Failed, OutOfMemory};
use crate::sink::MemorySink;
use std::alloc::Global;

impl MemorySink {
    /// A sink with room for so many octets in all, of which nothing is printed yet.
    ///
    /// # Errors
    /// `OutOfMemory` where memory is wanted.
    pub fn new(alloc: Global, room: usize) -> Result<MemorySink, OutOfMemory>
        ensures { IfOk result (λ sink. sink ≡ record { text = []; room = room; calls = 0; failing = []; faults = 0 }) }
    {
        Ok(MemorySink {
            text: Vec::with_capacity(alloc, room)?,
            room,
            calls: 0,
            failing: Vec::new(alloc),
            faults: 0,
        })
    }

    /// Asks that the k-th write fails, counted from 1.
    ///
    /// # Errors
    /// `OutOfMemory` where memory is wanted. The sink is then as it was.
    pub fn fail_write(&mut self, k: u64) -> Result<(), OutOfMemory>
        ensures asked { OnOk result (self.new ≡ with_failing_write k self.old) }
        ensures kept { OnErr result (self.new ≡ self.old) }
    {
        Ok(self.failing.push(k)?)
    }

    /// What was printed.
    pub fn text(&self) -> &[u8]
        ensures { result.now ≡ self.now.text }
    {
        &self.text
    }
}

impl Sink for MemorySink {
    ghost view = { printed_view };

    fn write(&mut self, piece: &[u8]) -> Result<usize, Failed>
        requires { 0 < length piece.now }
        ensures later { self.old.faults ≤ self.new.faults }
        ensures takes { IfOk result (Takes piece.now) }
        ensures said { IfOk result (λ n. self.new.text ≡ self.old.text ++ take n piece.now) }
        ensures kept { OnErr result (self.new.text ≡ self.old.text) }
        ensures cause { OnErr result (Rose self.old.faults self.new.faults) }
        ensures exact { is_err result ≡ write_fails self.old }
        ensures count { IfOk result (λ n. n ≡ min (self.old.room - length self.old.text) (length piece.now)) }
        ensures after { self.new ≡ after_write piece.now self.old }
    {
        self.calls = self.calls.saturating_add(1);
        let left = self.room.saturating_sub(self.text.len());
        if left == 0 || self.failing.contains(&self.calls) {
            self.faults = self.faults.saturating_add(1);
            return Err(Failed);
        }
        let count = left.min(piece.len());
        let taken = self.text.extend_from_slice(&piece[..count]);
        prove!(taken.is_ok());
        Ok(count)
    }
}
