// What an item of a field list is, ready for packets.
use p414_slots::FieldSlot;

/// An item of a field list (P4_14 1.0.5, "Field Lists").
#[derive(Clone, Copy, Drop)]
pub enum ItemRow {
    /// The octets that aren't parsed.
    Payload,
    /// A number of so many bits.
    Number {
        /// The bits.
        width: u8,
        /// The number; its lowest bits count.
        value: u128,
    },
    /// A field of so many bits.
    Field {
        /// Where it stands.
        slot: FieldSlot,
        /// Its bits.
        width: u8,
    },
}
