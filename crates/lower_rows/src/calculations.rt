// The rows of field list calculations.
use p4x_bits::{Rows, Text};
use p414_slots::FieldSlot;

/// What a calculation reads.
#[derive(Clone, Copy, Drop)]
pub enum HashItem {
    /// A number with its bits.
    Number(u8, u128),
    /// A field.
    Field(FieldSlot),
    /// What no hash of a program that breaks no rule has.
    Other,
}

/// A calculation with its items.
pub struct CalculationRow {
    /// The name of the algorithm.
    pub algorithm: Text,
    /// The bits of the result.
    pub width: u32,
    /// The items in order.
    pub items: Rows<HashItem>,
}

impl Drop for CalculationRow {
    fn drop(self) {
        let CalculationRow {
            algorithm: _algorithm,
            width: _width,
            items: _items,
        } = self;
    }
}
