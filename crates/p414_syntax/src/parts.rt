// Numbers, instances and fields, as many declarations name them.
ghost use Rattle.std.specs.Prelude.{◌≡◌};

use crate::lexeme::Literal;
use p4x_bits::Text;

/// A sign in front of a number.
#[derive(Clone, Copy, PartialEq, Eq, Drop)]
pub enum Sign {
    /// `+`.
    Plus,
    /// `-`.
    Minus,
}

/// A number with its sign, where one is written.
#[derive(Clone, Copy, PartialEq, Eq, Drop)]
pub struct Number {
    /// The sign.
    pub sign: Option<Sign>,
    /// The number without its sign.
    pub literal: Literal,
}

/// The index of an element of a header stack (P4_14 1.0.5, "Headers and Fields").
#[derive(Clone, Copy, PartialEq, Eq, Drop)]
pub enum Index {
    /// A number.
    At(Literal),
    /// `next`.
    Next,
    /// `last`.
    Last,
}

/// A header instance, or an element of a header stack: `NAME` or `NAME[INDEX]`.
#[derive(Drop)]
pub struct Inst {
    /// The name of the instance.
    pub name: Text,
    /// The index, where one is written.
    pub index: Option<Index>,
}

/// A field of an instance: `INSTANCE.FIELD` (P4_14 1.0.5, "Headers and Fields").
pub struct Ref {
    /// The instance.
    pub instance: Inst,
    /// The name of the field.
    pub field: Text,
}

impl Ref {
    /// The name of the field, by value. It takes no memory.
    pub fn into_field(self) -> Text
        ensures { result ≡ self.field }
    {
        let Ref {
            instance: _instance,
            field,
        } = self;
        field
    }
}

impl Drop for Ref {
    fn drop(self) {
        let Ref {
            instance: _instance,
            field: _field,
        } = self;
    }
}
