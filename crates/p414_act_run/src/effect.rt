// What a primitive does.
use fabric::RequestKind;
use p414_ready_actions::{ReadyElement, ReadyTarget};
use p414_sem::Request14;
use p414_slots::FieldSlot;
use p414_state::{PackedHeader, PackedStack};

/// What a primitive does, as a destination with what goes there. Contracts see it by `shown_effect`.
#[derive(Drop)]
pub enum Effect {
    /// A field gets a number.
    PutField(FieldSlot, u128),
    /// All fields of a header become 0, and it becomes valid or invalid.
    ClearHeader(ReadyElement, bool),
    /// A header becomes this one.
    PutHeader(ReadyElement, PackedHeader),
    /// An instance gets these elements.
    PutStack(u32, PackedStack),
    /// A register's cell, by its index, gets a number.
    PutCell(u32, u32, u128),
    /// A counter's cell, by its index, counts the packet.
    CountPacket(u32, u32),
    /// A meter, by an index, gives its next colour, which goes to a field where the field's header was valid when the
    /// operands were read.
    TakeColour(u32, u32, ReadyTarget, bool),
    /// A further item is asked for.
    PutRequest(RequestKind, Request14),
}
