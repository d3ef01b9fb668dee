// The rows of counters, registers and meters.
use p4x_bits::Text;

/// What an object is.
#[derive(Clone, Copy, Drop)]
pub enum ObjectForm {
    /// A counter.
    Counter,
    /// A direct counter.
    DirectCounter,
    /// A register.
    Register,
    /// A meter.
    Meter,
}

/// An object by its new name, with the bits of its cells.
#[derive(Drop)]
pub struct ObjectRow {
    /// What it is.
    pub form: ObjectForm,
    /// The new name.
    pub called: Text,
    /// The bits of a cell, where it is a register.
    pub width: u8,
}
