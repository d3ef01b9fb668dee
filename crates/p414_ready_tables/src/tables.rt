// What is kept of tables.
use match_core::DefaultCall;
use p4x_bits::Rows;
use p414_slots::FieldSlot;

/// A key of a table (P4_14 1.0.5, "Table Declarations").
#[derive(Clone, Copy, Drop)]
pub enum KeyRow {
    /// A field; 0 where its header is invalid.
    Field(FieldSlot),
    /// A field on the bits of a mask.
    Masked(FieldSlot, u128),
    /// Whether a header or an element of a stack is valid, as 1 or 0.
    Valid {
        /// The instance.
        instance: u32,
        /// The element, which is 0 where there is no stack.
        element: u32,
    },
}

/// A table.
pub struct ReadyTable {
    /// Its keys, in order.
    pub keys: Rows<KeyRow>,
    /// Its actions, in the order of their names, by their numbers in the order of declaration.
    pub actions: Rows<u32>,
    /// The counter that counts its entries, by its number among the stateful objects.
    pub direct: Option<u32>,
    /// The call that the program makes on a miss: an action by its place among those of the table, with its arguments.
    pub default: Option<DefaultCall>,
}

impl Drop for ReadyTable {
    fn drop(self) {
        let ReadyTable {
            keys: _keys,
            actions: _actions,
            direct: _direct,
            default: _default,
        } = self;
    }
}
