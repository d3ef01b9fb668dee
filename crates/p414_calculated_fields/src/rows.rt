// What is kept of calculated fields.
use p4x_bits::Rows;
use p414_slots::FieldSlot;

/// The condition of an entry (P4_14 1.0.5, "Checksums and Hash-value Generators").
#[derive(Clone, Copy, Drop)]
pub enum EntryTest {
    /// The entry has none, so it always holds.
    Always,
    /// A header, an element of a stack or metadata is valid.
    Valid {
        /// The instance.
        instance: u32,
        /// The element, which is 0 where there is no stack.
        element: u32,
    },
    /// A field, which is 0 where its header is invalid, is this number.
    Equal(FieldSlot, u128),
}

/// An entry: a calculation, by its number in the order of declaration, and the condition under which it is taken.
#[derive(Clone, Copy, Drop)]
pub struct EntryRow {
    /// The condition.
    pub test: EntryTest,
    /// The calculation.
    pub calculation: u32,
}

/// A calculated field with its entries in order.
pub struct CalculatedRow {
    /// The field.
    pub slot: FieldSlot,
    /// The entries that verify it.
    pub verify: Rows<EntryRow>,
    /// The entries that update it.
    pub update: Rows<EntryRow>,
}

impl Drop for CalculatedRow {
    fn drop(self) {
        let CalculatedRow {
            slot: _slot,
            verify: _verify,
            update: _update,
        } = self;
    }
}
