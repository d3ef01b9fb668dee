// Annotations, types, parameters, header and struct types, and members of enumerations.
ghost use Rattle.std.specs.Prelude.{◌≡◌, option_copied};
ghost use Rattle.p416_syntax.specs.Properties.{name_note_of};
ghost use Rattle.p416_syntax.specs.Members.{enumeration_text, member_text};

use crate::lexeme::Literal16;
use p4x_bits::{Rows, Text};

/// An annotation (P4_16 1.2, "Annotations").
pub enum Note {
    /// `@name("NAME")`: the name by which the control plane knows what is declared.
    Name(Text),
    /// `@field_list(NUMBER, ..)`: the lists whose fields are preserved, at least one.
    FieldList(Rows<Literal16>),
}

impl Drop for Note {
    fn drop(self) {
        match self {
            Note::Name(_a) => {}
            Note::FieldList(_a) => {}
        }
    }
}

/// The text in `@name`, where it stands among the annotations. The first one counts.
pub fn name_note(notes: &[Note]) -> Option<&Text>
    ensures { option_copied result ≡ name_note_of notes.now }
{
    for note in notes {
        if let Note::Name(text) = note {
            return Some(text);
        }
    }
    None
}

/// A type (P4_16 1.2, "Types").
pub enum Type16 {
    /// `bit<WIDTH>`, with its width in bits.
    Bit(Literal16),
    /// `bool`.
    Bool,
    /// A type by its name, or a header stack with its size: `NAME` or `NAME[SIZE]`.
    Named(Text, Option<Literal16>),
}

impl Drop for Type16 {
    fn drop(self) {
        match self {
            Type16::Bit(_a) => {}
            Type16::Bool => {}
            Type16::Named(_a, _b) => {}
        }
    }
}

/// Which way a parameter is handed over (P4_16 1.2, "Calling convention: call by copy in/copy out").
#[derive(Clone, Copy, PartialEq, Eq, Drop)]
pub enum Direction {
    /// `in`.
    In,
    /// `out`.
    Out,
    /// `inout`.
    InOut,
}

/// A parameter of a parser, a control or an action: `DIRECTION TYPE NAME`, maybe without a direction.
pub struct Param {
    /// Which way it is handed over, where that is written.
    pub direction: Option<Direction>,
    /// The type.
    pub of: Type16,
    /// The name.
    pub name: Text,
}

impl Drop for Param {
    fn drop(self) {
        let Param {
            direction: _direction,
            of: _of,
            name: _name,
        } = self;
    }
}

/// A field of a header: `bit<WIDTH> NAME;`.
#[derive(Drop)]
pub struct BitField {
    /// The width in bits.
    pub width: Literal16,
    /// The name.
    pub name: Text,
}

/// `header NAME { FIELD .. }` (P4_16 1.2, "Header types").
pub struct Header16 {
    /// The name.
    pub name: Text,
    /// The fields in order.
    pub fields: Rows<BitField>,
}

impl Drop for Header16 {
    fn drop(self) {
        let Header16 {
            name: _name,
            fields: _fields,
        } = self;
    }
}

/// A field of a struct: `TYPE NAME;`, maybe with annotations in front.
pub struct StructField {
    /// The annotations in front.
    pub notes: Rows<Note>,
    /// The type.
    pub of: Type16,
    /// The name.
    pub name: Text,
}

impl Drop for StructField {
    fn drop(self) {
        let StructField {
            notes: _notes,
            of: _of,
            name: _name,
        } = self;
    }
}

/// `struct NAME { FIELD .. }` (P4_16 1.2, "Struct types").
pub struct Struct16 {
    /// The name.
    pub name: Text,
    /// The fields in order.
    pub fields: Rows<StructField>,
}

impl Drop for Struct16 {
    fn drop(self) {
        let Struct16 {
            name: _name,
            fields: _fields,
        } = self;
    }
}

/// How a calculation is done: a member of `HashAlgorithm`.
#[derive(Clone, Copy, Drop)]
pub enum HashAlgorithm {
    /// `csum16`.
    Csum16,
    /// `crc16`.
    Crc16,
    /// `crc32`.
    Crc32,
    /// `identity`.
    Identity,
}

/// What a counter counts: a member of `CounterType`.
#[derive(Clone, Copy, Drop)]
pub enum CounterType {
    /// `packets`.
    Packets,
    /// `bytes`.
    Bytes,
    /// `packets_and_bytes`.
    PacketsAndBytes,
}

/// What a meter measures: a member of `MeterType`.
#[derive(Clone, Copy, Drop)]
pub enum MeterType {
    /// `packets`.
    Packets,
    /// `bytes`.
    Bytes,
}

/// Where a clone comes from and goes to: a member of `CloneType`.
#[derive(Clone, Copy, Drop)]
pub enum CloneType {
    /// `I2E`: from ingress to egress.
    I2E,
    /// `E2E`: from egress to egress.
    E2E,
}

/// A member of an enumeration of `v1model.p4`, with the name of the enumeration in front: `NAME.MEMBER`.
#[derive(Clone, Copy, Drop)]
pub enum Member {
    /// `HashAlgorithm.MEMBER`.
    HashAlgorithm(HashAlgorithm),
    /// `CounterType.MEMBER`.
    CounterType(CounterType),
    /// `MeterType.MEMBER`.
    MeterType(MeterType),
    /// `CloneType.MEMBER`.
    CloneType(CloneType),
}

impl Member {
    /// The name of the enumeration, in ASCII.
    pub fn enumeration(self) -> &'static [u8]
        ensures { result.now ≡ enumeration_text self }
    {
        match self {
            Member::HashAlgorithm(_) => b"HashAlgorithm",
            Member::CounterType(_) => b"CounterType",
            Member::MeterType(_) => b"MeterType",
            Member::CloneType(_) => b"CloneType",
        }
    }

    /// The name of the member behind the dot, in ASCII.
    pub fn text(self) -> &'static [u8]
        ensures { result.now ≡ member_text self }
    {
        match self {
            Member::HashAlgorithm(HashAlgorithm::Csum16) => b"csum16",
            Member::HashAlgorithm(HashAlgorithm::Crc16) => b"crc16",
            Member::HashAlgorithm(HashAlgorithm::Crc32) => b"crc32",
            Member::HashAlgorithm(HashAlgorithm::Identity) => b"identity",
            Member::CounterType(CounterType::Packets) => b"packets",
            Member::CounterType(CounterType::Bytes) => b"bytes",
            Member::CounterType(CounterType::PacketsAndBytes) => b"packets_and_bytes",
            Member::MeterType(MeterType::Packets) => b"packets",
            Member::MeterType(MeterType::Bytes) => b"bytes",
            Member::CloneType(CloneType::I2E) => b"I2E",
            Member::CloneType(CloneType::E2E) => b"E2E",
        }
    }
}
