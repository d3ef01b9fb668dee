// What the place of an expression asks for.
ghost use Rattle.std.specs.Prelude.{◌≡◌, get_or};
ghost use Rattle.p416_syntax.specs.Writes.{is_written_place};
ghost use Rattle.p416_calls.specs.Seen.{seen_place, unasked};

use p416_names::{Enumeration, Kind};

/// What the place of an expression asks for.
#[derive(Clone, Copy, Drop)]
pub enum Place<'a> {
    /// What is of this kind.
    Value(Kind<'a>),
    /// The same, and it is written too.
    Written(Kind<'a>),
    /// Bits, whatever their width.
    AnyBits,
    /// The same, and they are written.
    WrittenBits,
    /// What a cast to `bool` is of.
    OneBit,
    /// What a cast to `bit<1>` is of.
    BitsOrBoolean,
    /// A header that is written.
    WrittenHeader,
    /// A header or a stack, whose headers are put into the packet.
    Emitted,
    /// A literal of this kind.
    LiteralOf(Kind<'a>),
    /// A literal of any kind.
    AnyLiteral,
    /// A list in braces.
    ItemList,
    /// A member of this enumeration.
    MemberOf(Enumeration),
    /// A key of `select`.
    SelectKey,
    /// A key of a table, and whether its kind of match is `exact`.
    TableKey(bool),
    /// The target of an assignment.
    Target,
    /// What stands before a member.
    Owner,
    /// The same, and the method that is called writes it.
    WrittenOwner,
    /// A stack before an element.
    Stack,
    /// What is called.
    Called,
    /// A call as a statement.
    Statement,
    /// What nothing is asked of.
    Unasked,
}

impl Place<'_> {
    /// Whether what stands there is written.
    pub fn is_written(self) -> bool
        ensures { result ≡ is_written_place (seen_place self.entry) }
    {
        match self {
            Place::Written(_) => true,
            Place::WrittenBits => true,
            Place::WrittenHeader => true,
            Place::Target => true,
            Place::WrittenOwner => true,
            _ => false,
        }
    }
}

/// The place with this number; nothing is asked behind the last one.
pub(crate) fn place_at<'a>(places: &[Place<'a>], number: usize) -> Place<'a>
    ensures { result ≡ get_or places.now number unasked }
{
    match places.get(number) {
        Some(place) => *place,
        None => Place::Unasked,
    }
}
