// Programs of the form.
use p4x_bits::{Rows, Text};

/// A field of the header.
#[derive(Drop)]
pub struct Field {
    /// Its name.
    pub name: Text,
    /// Its width in bits.
    pub width: u64,
}

/// A P4_14 program of the one-table form, by the names and numbers that are free in it.
pub struct OneTable14 {
    /// The fields of the header type, in order.
    pub fields: Rows<Field>,
    /// The header instance.
    pub instance: Text,
    /// The action.
    pub action: Text,
    /// The port that the action sends to: from 0 to `GREATEST_PORT`, or `DROP_PORT`.
    pub port: u64,
    /// The table.
    pub table: Text,
}

impl Drop for OneTable14 {
    fn drop(self) {
        let OneTable14 {
            fields: _fields,
            instance: _instance,
            action: _action,
            port: _port,
            table: _table,
        } = self;
    }
}
