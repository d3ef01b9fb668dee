// The marks.
ghost use Rattle.std.specs.Prelude.{◌≡◌, ◌<◌, length};
ghost use Rattle.p416_syntax.specs.Marks.{mark_text16};

/// A mark of the grammar (P4_16 1.2, "P4 grammar"). `>>` is none: it is two marks that touch.
#[derive(Clone, Copy, PartialEq, Eq, Drop)]
pub enum Mark16 {
    /// `{`.
    BraceOpen,
    /// `}`.
    BraceClose,
    /// `(`.
    ParenOpen,
    /// `)`.
    ParenClose,
    /// `[`.
    BracketOpen,
    /// `]`.
    BracketClose,
    /// `;`.
    Semicolon,
    /// `:`.
    Colon,
    /// `,`.
    Comma,
    /// `.`.
    Dot,
    /// `..`.
    DotDot,
    /// `=`.
    Assign,
    /// `<`.
    Less,
    /// `>`.
    Greater,
    /// `<=`.
    LessEqual,
    /// `>=`.
    GreaterEqual,
    /// `==`.
    Equal,
    /// `!=`.
    NotEqual,
    /// `<<`.
    ShiftLeft,
    /// `+`.
    Plus,
    /// `++`.
    PlusPlus,
    /// `-`.
    Minus,
    /// `|+|`.
    SaturatingPlus,
    /// `|-|`.
    SaturatingMinus,
    /// `*`.
    Star,
    /// `&`.
    Ampersand,
    /// `&&`.
    AndAnd,
    /// `&&&`.
    Mask,
    /// `|`.
    Bar,
    /// `||`.
    OrOr,
    /// `^`.
    Caret,
    /// `~`.
    Tilde,
    /// `!`.
    Bang,
    /// `?`.
    Question,
}

impl Mark16 {
    /// The text of the mark, in ASCII.
    pub fn text(self) -> &'static [u8]
        ensures is { result.now ≡ mark_text16 self }
        ensures some { 0 < length result.now }
    {
        match self {
            Mark16::BraceOpen => b"{",
            Mark16::BraceClose => b"}",
            Mark16::ParenOpen => b"(",
            Mark16::ParenClose => b")",
            Mark16::BracketOpen => b"[",
            Mark16::BracketClose => b"]",
            Mark16::Semicolon => b";",
            Mark16::Colon => b":",
            Mark16::Comma => b",",
            Mark16::Dot => b".",
            Mark16::DotDot => b"..",
            Mark16::Assign => b"=",
            Mark16::Less => b"<",
            Mark16::Greater => b">",
            Mark16::LessEqual => b"<=",
            Mark16::GreaterEqual => b">=",
            Mark16::Equal => b"==",
            Mark16::NotEqual => b"!=",
            Mark16::ShiftLeft => b"<<",
            Mark16::Plus => b"+",
            Mark16::PlusPlus => b"++",
            Mark16::Minus => b"-",
            Mark16::SaturatingPlus => b"|+|",
            Mark16::SaturatingMinus => b"|-|",
            Mark16::Star => b"*",
            Mark16::Ampersand => b"&",
            Mark16::AndAnd => b"&&",
            Mark16::Mask => b"&&&",
            Mark16::Bar => b"|",
            Mark16::OrOr => b"||",
            Mark16::Caret => b"^",
            Mark16::Tilde => b"~",
            Mark16::Bang => b"!",
            Mark16::Question => b"?",
        }
    }
}

impl token_division::Mark for Mark16 {
    ghost use Rattle.p416_syntax.specs.Marks.{mark_text16};

    ghost text_of = { mark_text16 };

    fn octets(self) -> &'static [u8] {
        self.text()
    }
}
