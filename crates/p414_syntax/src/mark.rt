// The marks.
ghost use Rattle.std.specs.Prelude.{◌≡◌, ◌<◌, length};
ghost use Rattle.p414_syntax.specs.Marks.{mark_text};

/// A mark of the grammar (P4_14 1.0.5, "Summary of P4 BNF").
#[derive(Clone, Copy, PartialEq, Eq, Drop)]
pub enum Mark {
    /// `{`.
    BraceOpen,
    /// `}`.
    BraceClose,
    /// `(`.
    ParenOpen,
    /// `)`.
    ParenClose,
    /// `[`.
    BracketOpen,
    /// `]`.
    BracketClose,
    /// `;`.
    Semicolon,
    /// `:`.
    Colon,
    /// `,`.
    Comma,
    /// `.`.
    Dot,
    /// `=`.
    Assign,
    /// `<`.
    Less,
    /// `>`.
    Greater,
    /// `<=`.
    LessEqual,
    /// `>=`.
    GreaterEqual,
    /// `==`.
    Equal,
    /// `!=`.
    NotEqual,
    /// `<<`.
    ShiftLeft,
    /// `>>`.
    ShiftRight,
    /// `+`.
    Plus,
    /// `-`.
    Minus,
    /// `*`.
    Star,
    /// `&`.
    Ampersand,
    /// `|`.
    Bar,
    /// `^`.
    Caret,
    /// `~`.
    Tilde,
}

impl Mark {
    /// The text of the mark, in ASCII.
    pub fn text(self) -> &'static [u8]
        ensures is { result.now ≡ mark_text self }
        ensures some { 0 < length result.now }
    {
        match self {
            Mark::BraceOpen => b"{",
            Mark::BraceClose => b"}",
            Mark::ParenOpen => b"(",
            Mark::ParenClose => b")",
            Mark::BracketOpen => b"[",
            Mark::BracketClose => b"]",
            Mark::Semicolon => b";",
            Mark::Colon => b":",
            Mark::Comma => b",",
            Mark::Dot => b".",
            Mark::Assign => b"=",
            Mark::Less => b"<",
            Mark::Greater => b">",
            Mark::LessEqual => b"<=",
            Mark::GreaterEqual => b">=",
            Mark::Equal => b"==",
            Mark::NotEqual => b"!=",
            Mark::ShiftLeft => b"<<",
            Mark::ShiftRight => b">>",
            Mark::Plus => b"+",
            Mark::Minus => b"-",
            Mark::Star => b"*",
            Mark::Ampersand => b"&",
            Mark::Bar => b"|",
            Mark::Caret => b"^",
            Mark::Tilde => b"~",
        }
    }
}

impl token_division::Mark for Mark {
    ghost use Rattle.p414_syntax.specs.Marks.{mark_text};

    ghost text_of = { mark_text };

    fn octets(self) -> &'static [u8] {
        self.text()
    }
}
