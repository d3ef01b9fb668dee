// What the objects of a store are.
ghost use Rattle.std.specs.Prelude.{◌≡◌};
ghost use Rattle.state_store.specs.Cells.{size_of, kind_of, width_of};

/// What a counter counts: packets, octets or both (P4_14 1.0.5, "Counters": the attribute `type`;
/// v1model.p4: `CounterType`).
#[derive(Clone, Copy, PartialEq, Eq)]
pub enum Kind {
    Packets,
    Bytes,
    Both,
}

/// A stateful object: what it is, and how many cells it has (P4_14 1.0.5, "Counters", "Meters" and
/// "Registers"; v1model.p4: `counter`, `direct_counter`, `register` and `meter`).
#[derive(Clone, Copy, PartialEq, Eq)]
pub enum Shape {
    /// A counter that actions count in by an index.
    Counter { kind: Kind, cells: u32 },
    /// A counter with one cell for each entry of a table.
    Direct { kind: Kind, cells: u32 },
    /// A register, whose cells hold numbers of `width` bits, from 1 to 128.
    Register { width: u8, cells: u32 },
    /// A meter, whose colours are handed in.
    Meter { cells: u32 },
}

impl Shape {
    /// How many cells the object has. A meter has colours in place of cells, and this is how many
    /// indexes take one.
    pub fn size(self) -> u32
        ensures { result ≡ size_of self }
    {
        match self {
            Shape::Counter { cells, .. }
            | Shape::Direct { cells, .. }
            | Shape::Register { cells, .. }
            | Shape::Meter { cells } => cells,
        }
    }

    /// What a counter counts; `Kind::Both` of a register and a meter.
    pub fn kind(self) -> Kind
        ensures { result ≡ kind_of self }
    {
        match self {
            Shape::Counter { kind, .. } | Shape::Direct { kind, .. } => kind,
            _ => Kind::Both,
        }
    }

    /// How many bits a register's cells have, from 1 to 128; 0 of a counter and a meter.
    pub fn width(self) -> u8
        ensures { result ≡ width_of self }
    {
        match self {
            Shape::Register { width, .. } => width,
            _ => 0,
        }
    }
}
