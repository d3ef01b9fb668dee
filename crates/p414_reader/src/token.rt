// Tokens, read where they lie in the text.
ghost use Rattle.std.specs.Prelude.{◌≡◌, ◌<◌, length, map, take, drop, ◌-◌, Some, slice_get, IfOk, true, not};
ghost use Rattle.std.specs.Str.{bytes_eq};
ghost use Rattle.p414_syntax.specs.Conditions.{is_among, is_expression_name, brace_of};
ghost use Rattle.p414_syntax.specs.Keywords.{keyword_text};
ghost use Rattle.p414_reader.specs.internal.Classes.{mark_number, is_mark, is_named, is_number, is_neither, text_of, literal_of};
ghost use Rattle.p414_tok.specs.Lexemes.{lexemes};
ghost use Rattle.p414_reader.specs.internal.Lexemes.{lexeme_of};

use p4x_bits::{OutOfMemory, Text};
use p414_syntax::{Keyword, Lexeme, Literal, Mark};
use p414_tok::{Token14, TokenKind14};
use std::alloc::Global;

/// A token: its class, and the octets of the text that it is written with.
#[derive(Clone, Copy)]
pub struct TokenView<'t> {
    /// Its class. A number and a mark are told by it alone.
    pub kind: TokenKind14,
    /// Its octets. A name is told by them.
    pub octets: &'t [u8],
}

impl TokenView<'_> {
    /// The octets of a name, and none of another token.
    pub fn text(&self) -> &[u8]
        ensures { result.now ≡ text_of (lexeme_of self.now) }
    {
        match self.kind {
            TokenKind14::Name => self.octets,
            TokenKind14::Number(_) | TokenKind14::Mark(_) => &[],
        }
    }

    /// A number, and 0 for another token.
    pub fn literal(&self) -> Literal
        ensures { result ≡ literal_of (lexeme_of self.now) }
    {
        match self.kind {
            TokenKind14::Number(literal) => literal,
            TokenKind14::Name | TokenKind14::Mark(_) => Literal {
                width: None,
                value: 0,
            },
        }
    }

    /// Whether the token is this mark.
    pub fn is_mark(&self, mark: Mark) -> bool
        ensures { result ≡ is_mark mark (lexeme_of self.now) }
    {
        match self.kind {
            TokenKind14::Mark(other) => mark_number(mark) == mark_number(other),
            TokenKind14::Name | TokenKind14::Number(_) => false,
        }
    }

    /// Whether the token is the name that is this word.
    pub fn is_word(&self, word: Keyword) -> bool
        ensures { result ≡ is_named (bytes_eq (keyword_text word)) (lexeme_of self.now) }
    {
        match self.kind {
            TokenKind14::Name => word.text() == self.octets,
            TokenKind14::Number(_) | TokenKind14::Mark(_) => false,
        }
    }

    /// Whether the token is a name.
    pub fn is_name(&self) -> bool
        ensures { result ≡ is_named (λ text. true) (lexeme_of self.now) }
    {
        matches!(self.kind, TokenKind14::Name)
    }

    /// Whether the token is a number.
    pub fn is_number(&self) -> bool
        ensures { result ≡ is_number (lexeme_of self.now) }
    {
        matches!(self.kind, TokenKind14::Number(_))
    }

    /// Whether the token is a name that may stand in an expression.
    pub fn is_expression_name(&self) -> bool
        ensures { result ≡ is_named is_expression_name (lexeme_of self.now) }
    {
        match self.kind {
            TokenKind14::Name => is_expression_name(self.octets),
            TokenKind14::Number(_) | TokenKind14::Mark(_) => false,
        }
    }

    /// Whether the token is `{` or `}`.
    pub fn is_brace(&self) -> bool
        ensures { result ≡ not (is_neither (brace_of (lexeme_of self.now))) }
    {
        matches!(
            self.kind,
            TokenKind14::Mark(Mark::BraceOpen) | TokenKind14::Mark(Mark::BraceClose)
        )
    }

    /// A copy of the token.
    pub fn to_lexeme(&self, alloc: Global) -> Result<Lexeme, OutOfMemory>
        ensures { IfOk result (λ lexeme. lexeme ≡ lexeme_of self.now) }
    {
        match self.kind {
            TokenKind14::Name => Ok(Lexeme::Name(Text::from_slice(alloc, self.octets)?)),
            TokenKind14::Number(literal) => Ok(Lexeme::Number(literal)),
            TokenKind14::Mark(mark) => Ok(Lexeme::Mark(mark)),
        }
    }
}

/// The words that are never names in an expression.
const EXPRESSION_WORDS: [Keyword; 6] = [
    Keyword::And,
    Keyword::Or,
    Keyword::Not,
    Keyword::True,
    Keyword::False,
    Keyword::Valid,
];

/// Whether the text may be a name in an expression.
fn is_expression_name(text: &[u8]) -> bool
    ensures { result ≡ is_expression_name text.now }
{
    !is_keyword_among(text, &EXPRESSION_WORDS)
}

/// Whether the text is one of these words.
fn is_keyword_among(text: &[u8], words: &[Keyword]) -> bool
    ensures { result ≡ is_among text.now (map keyword_text words.now) }
{
    words.iter().any(|word| text == word.text())
}

/// The number of a mark, which tells it from the others.
fn mark_number(mark: Mark) -> u8
    ensures { result ≡ mark_number mark }
{
    match mark {
        Mark::BraceOpen => 0,
        Mark::BraceClose => 1,
        Mark::ParenOpen => 2,
        Mark::ParenClose => 3,
        Mark::BracketOpen => 4,
        Mark::BracketClose => 5,
        Mark::Semicolon => 6,
        Mark::Colon => 7,
        Mark::Comma => 8,
        Mark::Dot => 9,
        Mark::Assign => 10,
        Mark::Less => 11,
        Mark::Greater => 12,
        Mark::LessEqual => 13,
        Mark::GreaterEqual => 14,
        Mark::Equal => 15,
        Mark::NotEqual => 16,
        Mark::ShiftLeft => 17,
        Mark::ShiftRight => 18,
        Mark::Plus => 19,
        Mark::Minus => 20,
        Mark::Star => 21,
        Mark::Ampersand => 22,
        Mark::Bar => 23,
        Mark::Caret => 24,
        Mark::Tilde => 25,
    }
}

/// The token at this place, where it lies in the text.
pub fn token_at<'t>(text: &'t [u8], tokens: &[Token14], place: usize) -> TokenView<'t>
    requires { place < length tokens.now }
    ensures { slice_get (lexemes text.now tokens.now) place ≡ Some (lexeme_of result) }
{
    let token = tokens[place];
    TokenView {
        kind: token.kind,
        octets: octets_of(text, token.from, token.to),
    }
}

/// The octets of the text from one place up to another, as far as it has them.
fn octets_of(text: &[u8], from: usize, to: usize) -> &[u8]
    ensures { result.now ≡ take (to - from) (drop from text.now) }
{
    let (_, rest) = text.split_at(from.min(text.len()));
    rest.split_at(to.saturating_sub(from).min(rest.len())).0
}
