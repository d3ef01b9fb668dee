// What is held of a packet.
ghost use Rattle.std.specs.Prelude.{◌≡◌, ◌^◌, ◌<◌, IfOk};
ghost use Rattle.p414_sem.specs.Slots.{declared};
ghost use Rattle.p414_sem.specs.State.{read, written};
ghost use Rattle.p414_state.specs.Packets.{width_at, with_state};

use p4x_bits::OutOfMemory;
use p414_state::State14;
use std::alloc::Global;

/// What is held of a packet between ingress and egress: its state, and whether parsing it ended in an exception (P4_14 1.0.5, "Packet
/// Processing and Control Flow").
#[derive(Drop)]
pub struct Held14 {
    /// The state of the packet.
    pub packet: State14,
    /// Whether parsing it ended in an exception.
    pub failed: bool,
}

impl Held14 {
    /// The same again. The one error is want of memory.
    pub fn copy(&self, alloc: Global) -> Result<Held14, OutOfMemory>
        ensures { IfOk result (λ held. held ≡ self.now) }
    {
        let packet = self.packet.copy(alloc)?;
        Ok(Held14 {
            packet,
            failed: self.failed,
        })
    }

    /// The number of a field of metadata; 0 where there is no such field. It takes no memory.
    pub fn number(&self, instance: u32, field: u32) -> u128
        ensures { result ≡ read self.now.packet.state (declared instance 0 field) }
    {
        self.packet.number(instance, 0, field)
    }

    /// Puts a number into a field of metadata; nothing where there is no such field. It takes no memory.
    pub fn put(&mut self, instance: u32, field: u32, value: u128)
        requires { value < 2 ^ width_at self.old.packet.layout instance field }
        ensures { self.new ≡ record { packet = with_state self.old.packet (written self.old.packet.state (declared instance 0 field) value); failed = self.old.failed } }
    {
        let _done = self.packet.put_number(instance, 0, field, value);
    }
}
