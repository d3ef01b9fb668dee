// What is kept between two passes, and what is held between ingress and egress.
ghost use Rattle.std.specs.Prelude.{◌≡◌, ℕ, ◌<◌, ◌^◌, IfOk};
ghost use Rattle.state_store.specs.Ports.{IsPort};
ghost use Rattle.v1_core.specs.Slots.{FramePart};
ghost use Rattle.v1_core.specs.PackedFrames.{IsFrameOf};
ghost use Rattle.v1_core.specs.Programs.{layout16};
ghost use Rattle.v1_pass_slots.specs.Starts.{metadata_start};
ghost use Rattle.v1_packets.specs.Packets.{packet_frame, kept_value, AreFitting};
ghost use Rattle.v1_passes.specs.Held.{HasSlot, IsBitsAt, SlotHolds, held_number, with_number};

use p4x_bits::{Octets, OutOfMemory};
use std::alloc::Global;
use std::marker::Model;
use v1_core::Frame;
use v1_packets::Packets;

/// What is preserved of the metadata of a packet, by the numbers in its slots, of which those that are 0 at the end needn't stand
/// there. Contracts see the program and the metadata.
#[derive(Drop)]
pub struct Kept16<'r> {
    pub(crate) packets: &'r Packets<'r>,
    pub(crate) numbers: Vec<u128>,
}

impl<'r> Model for Kept16<'r> {
    ghost use Rattle.v1_core.specs.Values.{Value as Metadata};
    ghost use Rattle.v1_core.specs.Programs.{layout16};
    ghost use Rattle.v1_pass_slots.specs.Starts.{metadata_start};
    ghost use Rattle.v1_packets.specs.Packets.{kept_value, AreFitting};
    ghost use Rattle.v1_passes.specs.Tags.{Tagged, coded_kept};

    ghost Value = { Tagged Metadata };

    ghost coded = { coded_kept };

    ghost view = { λ k. record { program = k.packets.now; value = kept_value k.packets.now k.numbers.items } };

    ghost invariant = { λ k. AreFitting (layout16 k.packets.now).widths (metadata_start k.packets.now).slot k.numbers.items };
}

/// What is held of a packet between ingress and egress: its frame, the octets that weren't parsed, and the port of arrival.
/// Contracts see the program and what is held. The frame stands in a box, so that little is moved where this is.
pub struct Held16<'r> {
    pub(crate) packets: &'r Packets<'r>,
    pub(crate) frame: Box<Frame<'r>>,
    pub(crate) unparsed: Octets,
    pub(crate) port: u16,
}

impl Drop for Held16<'_> {
    fn drop(self) {
        let Held16 {
            packets: _packets,
            frame: _frame,
            unparsed: _unparsed,
            port: _port,
        } = self;
    }
}

impl<'r> Model for Held16<'r> {
    ghost use Rattle.state_store.specs.Ports.{IsPort};
    ghost use Rattle.v1_core.specs.Passes.{Held};
    ghost use Rattle.v1_core.specs.PackedFrames.{IsFrameOf};
    ghost use Rattle.v1_packets.specs.Packets.{packet_frame};
    ghost use Rattle.v1_passes.specs.Tags.{Tagged, coded_hold};

    ghost Value = { Tagged Held };

    ghost coded = { coded_hold };

    ghost view = { λ h. record { program = h.packets.now; value = record { frame = packet_frame h.packets.now h.frame.value; unparsed = h.unparsed; port = h.port } } };

    ghost invariant = { λ h. IsFrameOf h.packets.now h.frame.value × IsPort h.port };
}

impl<'r> Kept16<'r> {
    /// The numbers in the slots of the metadata.
    pub(crate) fn numbers(&self) -> &[u128]
        ensures value { self.now.value ≡ kept_value self.now.program result.now }
        ensures fits { AreFitting (layout16 self.now.program).widths (metadata_start self.now.program).slot result.now }
    {
        &self.numbers
    }
}

/// The parts of what is held.
#[derive(Drop)]
pub(crate) struct HeldParts<'r> {
    pub(crate) frame: Box<Frame<'r>>,
    pub(crate) unparsed: Octets,
    pub(crate) port: u16,
}

impl<'r> Held16<'r> {
    /// Its parts.
    pub(crate) fn into_parts(self) -> HeldParts<'r>
        ensures frame { IsFrameOf self.entry.program result.frame.value }
        ensures value { self.entry.value ≡ record { frame = packet_frame self.entry.program result.frame.value; unparsed = result.unparsed; port = result.port } }
        ensures port { IsPort result.port }
    {
        let Held16 {
            packets: _packets,
            frame,
            unparsed,
            port,
        } = self;
        HeldParts {
            frame,
            unparsed,
            port,
        }
    }

    /// The same again. The one error is want of memory.
    pub fn copy(&self, alloc: Global) -> Result<Self, OutOfMemory>
        ensures { IfOk result (λ held. held ≡ self.now) }
    {
        let frame = Box::new(alloc, self.frame.copy(alloc)?)?;
        let unparsed = Octets::from_slice(alloc, self.unparsed.as_slice())?;
        Ok(Held16 {
            packets: self.packets,
            frame,
            unparsed,
            port: self.port,
        })
    }

    /// The number in a slot of its frame: that of each part of its headers, its metadata or its standard metadata that is bits and
    /// stands there. In the slot of a field of an invalid header it is 0. It takes no memory.
    pub fn number(&self, slot: u32) -> u128
        requires { HasSlot self.now.program slot }
        ensures { (part : FramePart) (width : ℕ) → IsBitsAt self.now.program part width slot → result ≡ held_number self.now.value part }
    {
        self.frame.get(slot)
    }

    /// Puts a number into a slot of its frame, and so into each part of its headers, its metadata or its standard metadata that is
    /// bits of a width that the number fits and stands there. In the slot of a field of an invalid header nothing changes. It takes
    /// no memory.
    #[tactic(auto, using(crate::proofs::Numbers::still_frame))]
    pub fn put(&mut self, slot: u32, value: u128)
        requires slot { HasSlot self.old.program slot }
        requires value { SlotHolds self.old.program slot value }
        ensures program { self.new.program ≡ self.old.program }
        ensures put { (part : FramePart) (width : ℕ) → IsBitsAt self.old.program part width slot → value < 2 ^ width → self.new ≡ record { program = self.old.program; value = with_number part width value self.old.value } }
    {
        self.frame.set(slot, value);
        self.frame.is_whole();
    }
}
