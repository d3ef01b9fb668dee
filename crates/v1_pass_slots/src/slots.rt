// The slots that a pass reads and writes by itself.
ghost use Rattle.std.specs.Prelude.{◌≡◌, ◌++◌, ◌∷◌, [], OnOk};
ghost use Rattle.v1_pass_slots.specs.Lists.{is_listed};

use p4x_bits::OutOfMemory;
use std::alloc::Global;
use std::marker::Model;

/// Slots from one up to another, which is behind the last.
#[derive(Clone, Copy, Drop)]
pub struct Slots {
    /// The first.
    pub from: u32,
    /// The one behind the last.
    pub to: u32,
}

/// The field lists that preserve a slot. Contracts see their numbers.
#[derive(Drop)]
pub struct SlotLists {
    numbers: Vec<u8>,
}

impl Model for SlotLists {
    ghost use Rattle.std.specs.Prelude.{ℕ, List};

    ghost Value = { List ℕ };

    ghost view = { λ l. l.numbers.items };
}

/// Whether a list is among these.
fn is_among(numbers: &[u8], list: u8) -> bool
    ensures { result ≡ is_listed list numbers.now }
{
    for number in numbers {
        if *number == list {
            return true;
        }
    }
    false
}

impl SlotLists {
    /// No lists.
    pub(crate) fn new(alloc: Global) -> Self
        ensures { result ≡ [] }
    {
        SlotLists {
            numbers: Vec::new(alloc),
        }
    }

    /// One list more, or want of memory.
    pub(crate) fn push(&mut self, list: u8) -> Result<(), OutOfMemory>
        ensures { OnOk result (self.new ≡ self.old ++ list ∷ []) }
    {
        self.numbers.push(list)?;
        Ok(())
    }

    /// Whether a list is among them.
    pub fn has(&self, list: u8) -> bool
        ensures { result ≡ is_listed list self.now }
    {
        is_among(&self.numbers, list)
    }
}

/// The slots of the fields of the standard metadata that passes read and write.
#[derive(Clone, Copy, Drop)]
pub struct StandardSlots {
    /// That of `ingress_port`.
    pub ingress_port: u32,
    /// That of `egress_spec`.
    pub egress_spec: u32,
    /// That of `egress_port`.
    pub egress_port: u32,
    /// That of `packet_length`.
    pub packet_length: u32,
    /// That of `instance_type`.
    pub instance_type: u32,
}

/// The slots that a pass reads and writes by itself.
#[derive(Drop)]
pub struct PassSlots {
    /// Fields of the standard metadata.
    pub fields: StandardSlots,
    /// All of the standard metadata.
    pub standard: Slots,
    /// All of the metadata.
    pub metadata: Slots,
    /// For each of these the field lists that preserve it.
    pub lists: Vec<SlotLists>,
}
