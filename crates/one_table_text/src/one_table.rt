// Programs with one header, one parser state and one table without keys.
use p4x_bits::{Rows, Text};
use p414_one_table::Field;

/// A P4_16 program of the one-table form, by the names and numbers that are free in it.
pub struct OneTable16 {
    /// The fields of the header type, in order.
    pub fields: Rows<Field>,
    /// The control-plane name of the action.
    pub action: Text,
    /// The value that the action gives `egress_spec`.
    pub port: u64,
    /// The control-plane name of the table.
    pub table: Text,
}

impl Drop for OneTable16 {
    fn drop(self) {
        let OneTable16 {
            fields: _fields,
            action: _action,
            port: _port,
            table: _table,
        } = self;
    }
}
