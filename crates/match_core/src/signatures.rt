// What a program has that the control plane sees: its tables and its stateful objects.
use p4x_bits::{Numbers, Rows, Text};
use state_store::Shape;

/// How a table matches one of its keys (P4_14 1.0.5, "Table Declarations": the match types `exact`,
/// `ternary`, `lpm` and `range`; P4_16 1.2, "Match kinds" and v1model.p4). A P4_14 key `valid` is
/// `Exact`, of one bit.
#[derive(Clone, Copy, PartialEq, Eq)]
pub enum KeyKind {
    Exact,
    Ternary,
    Lpm,
    Range,
}

/// One key of a table: how it matches, and its width in bits, from 1 to 128.
#[derive(Clone, Copy, PartialEq, Eq)]
pub struct KeySpec {
    pub kind: KeyKind,
    pub width: u8,
}

/// An action of a table: its control-plane name, and the width of each parameter in bits, from 1 to
/// 128.
pub struct ActionSig {
    pub name: Text,
    pub widths: Numbers,
}

impl Drop for ActionSig {
    fn drop(self) {
        let ActionSig {
            name: _name,
            widths: _widths,
        } = self;
    }
}

/// A table: its control-plane name, its keys and actions in order, the greatest number of its entries,
/// and the number of its direct counter among the objects of the signature, where it has one.
pub struct TableSig {
    pub name: Text,
    pub keys: Rows<KeySpec>,
    pub actions: Rows<ActionSig>,
    pub size: u32,
    pub direct: Option<u32>,
}

impl Drop for TableSig {
    fn drop(self) {
        let TableSig {
            name: _name,
            keys: _keys,
            actions: _actions,
            size: _size,
            direct: _direct,
        } = self;
    }
}

/// A stateful object: its control-plane name and its shape. The shape of a direct counter has 0 cells
/// here, since the entries of its table give their number.
#[derive(Drop)]
pub struct ObjectSig {
    pub name: Text,
    pub shape: Shape,
}

/// All tables and all stateful objects of a program, each in the octet order of the control-plane
/// names (P4_16 1.2, "Control plane names"; the order is this project's own).
pub struct Signature {
    pub tables: Rows<TableSig>,
    pub objects: Rows<ObjectSig>,
}

impl Drop for Signature {
    fn drop(self) {
        let Signature {
            tables: _tables,
            objects: _objects,
        } = self;
    }
}
