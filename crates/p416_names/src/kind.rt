// What an expression is (P4_16 1.2, "P4 data types").
ghost use Rattle.std.specs.Prelude.{◌≡◌};
ghost use Rattle.p416_syntax.specs.Kinds.{is_same_enumeration, is_same_kind, is_bits, is_unsized, is_boolean, is_header, is_stack, is_struct, is_packet, is_plain};
ghost use Rattle.p416_syntax.specs.Expressions.{is_chosen};
ghost use Rattle.p416_names.specs.SeenKinds.{seen_enumeration, seen_kind};

/// An enumeration of `v1model.p4`.
#[derive(Clone, Copy, Drop)]
pub enum Enumeration {
    /// `HashAlgorithm`.
    HashAlgorithm,
    /// `CounterType`.
    CounterType,
    /// `MeterType`.
    MeterType,
    /// `CloneType`.
    CloneType,
}

/// A stateful object of `v1model.p4`.
#[derive(Clone, Copy, Drop)]
pub enum ObjectKind {
    /// A counter.
    Counter,
    /// A direct counter.
    DirectCounter,
    /// A register.
    Register,
    /// A meter.
    Meter,
}

/// What an expression is: a value of some type, or something else that a name or a call stands for. Types have the
/// names by which the program declares them.
#[derive(Clone, Copy, Drop)]
pub enum Kind<'a> {
    /// Bits, so many.
    Bits(u128),
    /// A number without a width.
    Unsized,
    /// A truth value.
    Boolean,
    /// An error.
    ErrorCode,
    /// A header of the type of this name.
    Header(&'a [u8]),
    /// A stack of headers of the type of this name, and its size.
    Stack(&'a [u8], u128),
    /// A struct of the type of this name.
    Struct(&'a [u8]),
    /// A packet that is read.
    PacketIn,
    /// A packet that is written.
    PacketOut,
    /// The word `error`.
    Errors,
    /// The name of an enumeration.
    Enumeration(Enumeration),
    /// A member of an enumeration.
    OneOf(Enumeration),
    /// A table.
    Table,
    /// What applying a table gives.
    Applied,
    /// A stateful object.
    Object(ObjectKind),
    /// A list in braces.
    Items,
    /// What a call gives that gives nothing.
    Nothing,
    /// What is none of these.
    Unknown,
}

impl Enumeration {
    /// Whether two enumerations are the same.
    pub fn is_same(self, other: Enumeration) -> bool
        ensures { result ≡ is_same_enumeration (seen_enumeration self) (seen_enumeration other) }
    {
        match self {
            Enumeration::HashAlgorithm => matches!(other, Enumeration::HashAlgorithm),
            Enumeration::CounterType => matches!(other, Enumeration::CounterType),
            Enumeration::MeterType => matches!(other, Enumeration::MeterType),
            Enumeration::CloneType => matches!(other, Enumeration::CloneType),
        }
    }
}

impl Kind<'_> {
    /// Whether two kinds are the same type of values, or members of one enumeration; not where one is a packet or a
    /// number without a width.
    pub fn is_same(self, other: Kind<'_>) -> bool
        ensures { result ≡ is_same_kind (seen_kind self.entry) (seen_kind other.entry) }
    {
        match (self, other) {
            (Kind::Bits(v), Kind::Bits(w)) => v == w,
            (Kind::Boolean, Kind::Boolean) => true,
            (Kind::ErrorCode, Kind::ErrorCode) => true,
            (Kind::Header(a), Kind::Header(b)) => a == b,
            (Kind::Stack(a, m), Kind::Stack(b, n)) => a == b && m == n,
            (Kind::Struct(a), Kind::Struct(b)) => a == b,
            (Kind::OneOf(a), Kind::OneOf(b)) => a.is_same(b),
            _ => false,
        }
    }

    /// Whether these are bits.
    pub fn is_bits(self) -> bool
        ensures { result ≡ is_bits (seen_kind self.entry) }
    {
        matches!(self, Kind::Bits(_))
    }

    /// Whether this is a number without a width.
    pub fn is_unsized(self) -> bool
        ensures { result ≡ is_unsized (seen_kind self.entry) }
    {
        matches!(self, Kind::Unsized)
    }

    /// Whether this is a truth value.
    pub fn is_boolean(self) -> bool
        ensures { result ≡ is_boolean (seen_kind self.entry) }
    {
        matches!(self, Kind::Boolean)
    }

    /// Whether this is a header.
    pub fn is_header(self) -> bool
        ensures { result ≡ is_header (seen_kind self.entry) }
    {
        matches!(self, Kind::Header(_))
    }

    /// Whether this is a header stack.
    pub fn is_stack(self) -> bool
        ensures { result ≡ is_stack (seen_kind self.entry) }
    {
        matches!(self, Kind::Stack(_, _))
    }

    /// Whether this is a struct.
    pub fn is_struct(self) -> bool
        ensures { result ≡ is_struct (seen_kind self.entry) }
    {
        matches!(self, Kind::Struct(_))
    }

    /// Whether this is a packet.
    pub fn is_packet(self) -> bool
        ensures { result ≡ is_packet (seen_kind self.entry) }
    {
        matches!(self, Kind::PacketIn | Kind::PacketOut)
    }

    /// Whether this has no members at all, whatever they are called.
    pub fn is_plain(self) -> bool
        ensures { result ≡ is_plain (seen_kind self.entry) }
    {
        match self {
            Kind::Bits(_) => true,
            Kind::Unsized => true,
            Kind::Boolean => true,
            Kind::ErrorCode => true,
            Kind::OneOf(_) => true,
            Kind::Items => true,
            Kind::Nothing => true,
            Kind::Unknown => true,
            _ => false,
        }
    }

    /// Whether this is a value that `c ? a : b` may choose.
    pub fn is_chosen(self) -> bool
        ensures { result ≡ is_chosen (seen_kind self.entry) }
    {
        match self {
            Kind::Bits(_) => true,
            Kind::Boolean => true,
            Kind::ErrorCode => true,
            Kind::Header(_) => true,
            Kind::Stack(_, _) => true,
            Kind::Struct(_) => true,
            _ => false,
        }
    }
}
