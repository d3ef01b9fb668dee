// What a name is declared as (P4_16 1.2, "Name resolution").
ghost use Rattle.std.specs.Prelude.{◌≡◌, List};
ghost use Rattle.p416_syntax.specs.Scopes.{Known, type_sort, stack_kind};
ghost use Rattle.p416_names.specs.SeenKinds.{seen_kind};
ghost use Rattle.p416_names.specs.Seen.{seen_sort, kind_of_named};

use crate::kind::{Enumeration, Kind, ObjectKind};
use p416_syntax::{Action16, Literal16, Table16};

/// What a name is declared as.
#[derive(Clone, Copy, Drop)]
pub enum Sort<'a> {
    /// A type, and what its values are.
    Type(Kind<'a>),
    /// A variable or a parameter, and whether it can be written.
    Value(Kind<'a>, bool),
    /// An enumeration.
    Enumeration(Enumeration),
    /// A function of `v1model.p4`.
    Function,
    /// A stateful object.
    Object(ObjectKind),
    /// An action.
    Action(&'a Action16),
    /// A table.
    Table(&'a Table16),
    /// A state of a parser.
    State,
    /// A parser or a control.
    Block,
    /// Nothing.
    Undeclared,
}

impl<'a> Sort<'a> {
    /// What the values of a type are; unknown where this is no type.
    fn type_kind(self) -> Kind<'a>
        ensures { (names : List Known) → seen_kind result ≡ type_sort (seen_sort names self.entry) }
    {
        match self {
            Sort::Type(kind) => kind,
            _ => Kind::Unknown,
        }
    }

    /// What the values of a type of this name are, or of a stack of so many of it; unknown where this is no type.
    pub fn named_kind(self, size: Option<Literal16>) -> Kind<'a>
        ensures { (names : List Known) → seen_kind result ≡ kind_of_named (seen_sort names self.entry) size }
    {
        match size {
            None => self.type_kind(),
            Some(size) => stack_kind(size.value, self.type_kind()),
        }
    }
}

/// A stack of so many of these; unknown where these are no headers.
fn stack_kind(size: u128, kind: Kind<'_>) -> Kind<'_>
    ensures { seen_kind result ≡ stack_kind size (seen_kind kind.entry) }
{
    match kind {
        Kind::Header(name) => Kind::Stack(name, size),
        _ => Kind::Unknown,
    }
}
