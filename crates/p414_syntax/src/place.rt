// What the places of a primitive's arguments take.

/// What an argument of a primitive stands for (P4_14 1.0.5, "Primitive Actions").
#[derive(Clone, Copy, PartialEq, Eq, Drop)]
pub enum ArgumentPlace {
    /// A field that is written.
    Target,
    /// A number, a field or a parameter.
    Source,
    /// A source that isn't negative: a shift count, an index, a session, the base or the bound of a hash.
    Unsigned,
    /// A header.
    Header,
    /// A header stack.
    Stack,
    /// A number of elements of a header stack.
    Elements,
    /// A counter.
    Counter,
    /// A register.
    Register,
    /// A meter.
    Meter,
    /// A calculation.
    Calculation,
    /// A field list.
    List,
}
