// The fields of the types of a program (P4_16 1.2, "Derived types").
ghost use Rattle.std.specs.Prelude.{◌≡◌, List, [], ◌∷◌};
ghost use Rattle.p416_syntax.specs.Scopes.{Known, fields_in};
ghost use Rattle.p416_syntax.specs.BuiltIn.{standard_layout};
ghost use Rattle.p416_names.specs.Seen.{seen_fields};
ghost use Rattle.p416_names.specs.internal.Tables.{fields_of};

use p416_syntax::{BitField, Decl16, StructField};

/// The fields of a type.
#[derive(Clone, Copy, Drop)]
pub enum Fields<'a> {
    /// Those of a header.
    Bits(&'a [BitField]),
    /// Those of a struct.
    Typed(&'a [StructField]),
    /// Those of the standard metadata.
    Standard,
    /// None, since no type has the name.
    Missing,
}

/// The fields of a declared type; none of another declaration.
pub(crate) fn fields_of(decl: &Decl16) -> Fields<'_>
    ensures { (names : List Known) → seen_fields names result ≡ fields_of names decl.now }
{
    match decl {
        Decl16::Header(header) => Fields::Bits(header.fields.as_slice()),
        Decl16::Struct(declared) => Fields::Typed(declared.fields.as_slice()),
        _ => Fields::Missing,
    }
}

const STANDARD_METADATA: &[u8] = b"standard_metadata_t";

/// The fields of a type that the program doesn't declare.
pub(crate) fn built_in_fields<'a>(of: &[u8]) -> Fields<'a>
    ensures { (names : List Known) → seen_fields names result ≡ fields_in (standard_layout ∷ []) of.now }
{
    if STANDARD_METADATA == of {
        Fields::Standard
    } else {
        Fields::Missing
    }
}
