// What a language owes.
ghost use Rattle.std.specs.Prelude.{◌≡◌};
ghost use Rattle.token_sheet.specs.Spelling.{IsSpelling};

/// A language whose words can be put on a sheet.
pub trait Spelling {
    /// Its token classes.
    type Kind: Copy;

    ghost use Rattle.std.specs.Prelude.{Bool};
    ghost use Rattle.token_division.specs.Division.{Front};
    ghost use Rattle.token_sheet.specs.Words.{Meets};
    ghost use Rattle.token_sheet.specs.Spelling.{Spells, Parts};

    // What its texts begin with.
    ghost front: { Front Self.Kind };

    // Which octets a token of a class may be written with.
    ghost spells: { Spells Self.Kind };

    ghost parts: { Parts Self.Kind };

    ghost meets: { Meets Self.Kind };

    // Whether a token of this class stands only where nothing but blanks stands before it on its line.
    ghost begins_line: { Self.Kind → Bool };

    /// Whether an octet that stands right behind a token of this class, which has these octets, is no part of it.
    fn parts(kind: Self::Kind, octets: &[u8], next: u8) -> bool
        ensures { result ≡ parts kind octets.now next };

    /// Whether the language tells it where a token of the second class touches one of the first.
    fn meets(first: Self::Kind, second: Self::Kind) -> bool
        ensures { result ≡ meets first second };

    /// Whether a token of this class stands only where nothing but blanks stands before it on its line.
    fn begins_line(kind: Self::Kind) -> bool
        ensures { result ≡ begins_line kind };

    ghost is_spelling: { IsSpelling front spells parts begins_line };
}
