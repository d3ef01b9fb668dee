// Where a field stands.
use p414_sem::Standard;

/// A field by number (P4_14 1.0.5, "Headers and Fields", "Standard Intrinsic Metadata"). Contracts see where it stands by
/// `slot_in`.
#[derive(Clone, Copy, PartialEq, Eq, Drop)]
pub enum FieldSlot {
    /// A field of `standard_metadata`.
    Standard(Standard),
    /// A field of an element of an instance, all by number from 0: instances in the order of declaration, fields in that of
    /// the header type. The element of a header and of metadata is 0.
    Declared {
        /// The instance.
        instance: u32,
        /// The element of the stack.
        element: u32,
        /// The field.
        field: u32,
    },
}
