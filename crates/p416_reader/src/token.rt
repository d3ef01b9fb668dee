// Tokens, read where they lie in the text.
ghost use Rattle.std.specs.Prelude.{◌≡◌, ◌<◌, length, true, not, ◌&&◌, take, drop, ◌-◌, ◌+◌, map, Some, IfOk, slice_get};
ghost use Rattle.std.specs.Str.{bytes_eq};
ghost use Rattle.p416_syntax.specs.Tokens.{seen_word};
ghost use Rattle.p416_tok.specs.Lexemes.{inner};
ghost use Rattle.p416_reader.specs.Seen.{seen16, seen_at, back, ahead, is_touched, is_bit_type, ends_bit, ends_bool, is_past_type, follows_lookahead, begins_type, is_sized, ends_type, seen_mark, seen_greater, seen_less, is_less_kind, is_greater_kind, is_dot_kind, is_paren_kind, is_bracket_kind, is_bracket_end_kind, is_number_kind, is_of_kind, is_word_with, is_bits, is_free};
ghost use Rattle.p416_reader.specs.internal.Classes.{mark_number, word_number, note_number, include_number, known_text, is_mark, is_quoted, is_note, is_include, is_id, is_number, is_string, is_opens, is_word, text_of, literal_of};
ghost use Rattle.p416_reader.specs.internal.Lexemes.{seen_of};

use crate::symbols::Known;
use crate::words::{is_reserved, reserved_word};
use p4x_bits::OutOfMemory;
use p416_syntax::{Annotation16, Include16, Keyword16, Literal16, Mark16};
use p416_tok::{Token16, TokenKind16};
use std::alloc::Global;

/// A token as the grammar sees it, with its octets in the text.
#[derive(Clone, Copy)]
pub enum TokenView<'t> {
    /// A name that isn't reserved.
    Name(&'t [u8]),
    /// A reserved word.
    Word(Keyword16),
    /// A number.
    Number(&'t Literal16),
    /// A mark.
    Mark(Mark16),
    /// A string, by what stands between its quotes.
    String(&'t [u8]),
    /// The name of an annotation.
    At(Annotation16),
    /// An include line.
    Include(Include16),
    /// A `>` that another one behind it touches, where the two may be a shift.
    Joined,
    /// The `<` of `.lookahead<TYPE>(`.
    Opens,
}

impl TokenView<'_> {
    /// The octets of a name, a word or a string, and none of another token.
    pub fn text(&self) -> &[u8]
        ensures { result.now ≡ text_of (seen_of self.now) }
    {
        match self {
            TokenView::Name(octets) => octets,
            TokenView::Word(word) => word.text(),
            TokenView::String(octets) => octets,
            _ => &[],
        }
    }

    /// A number, and 0 for another token.
    pub fn literal(&self) -> Literal16
        ensures { result ≡ literal_of (seen_of self.now) }
    {
        match self {
            TokenView::Number(literal) => **literal,
            _ => Literal16 {
                width: None,
                value: 0,
            },
        }
    }

    /// Whether the token is this mark.
    pub fn is_mark(&self, mark: Mark16) -> bool
        ensures { result ≡ is_mark mark (seen_of self.now) }
    {
        match self {
            TokenView::Mark(other) => mark_number(mark) == mark_number(*other),
            _ => false,
        }
    }

    /// Whether the token is this reserved word.
    pub fn is_quoted(&self, word: Keyword16) -> bool
        ensures { result ≡ is_quoted word (seen_of self.now) }
    {
        match self {
            TokenView::Word(other) => word_number(word) == word_number(*other),
            _ => false,
        }
    }

    /// Whether the token is this name.
    pub fn is_known(&self, name: Known) -> bool
        ensures { result ≡ is_id (bytes_eq (known_text name)) (seen_of self.now) }
    {
        match self {
            TokenView::Name(octets) => known_text(name) == *octets,
            _ => false,
        }
    }

    /// Whether the token is a name.
    pub fn is_name(&self) -> bool
        ensures { result ≡ is_id (λ text. true) (seen_of self.now) }
    {
        matches!(self, TokenView::Name(_))
    }

    /// Whether the token is a name or a reserved word.
    pub fn is_word(&self) -> bool
        ensures { result ≡ is_word (seen_of self.now) }
    {
        match self {
            TokenView::Name(octets) => !is_reserved(octets),
            TokenView::Word(_) => true,
            _ => false,
        }
    }

    /// Whether the token is a number.
    pub fn is_number(&self) -> bool
        ensures { result ≡ is_number (seen_of self.now) }
    {
        matches!(self, TokenView::Number(_))
    }

    /// Whether the token is a string.
    pub fn is_string(&self) -> bool
        ensures { result ≡ is_string (seen_of self.now) }
    {
        matches!(self, TokenView::String(_))
    }

    /// Whether the token is the name of this annotation.
    pub fn is_note(&self, annotation: Annotation16) -> bool
        ensures { result ≡ is_note annotation (seen_of self.now) }
    {
        match self {
            TokenView::At(other) => note_number(annotation) == note_number(*other),
            _ => false,
        }
    }

    /// Whether the token is this include line.
    pub fn is_include(&self, line: Include16) -> bool
        ensures { result ≡ is_include line (seen_of self.now) }
    {
        match self {
            TokenView::Include(other) => include_number(line) == include_number(*other),
            _ => false,
        }
    }

    /// Whether the token is the `<` of `.lookahead<TYPE>(`.
    pub fn is_opens(&self) -> bool
        ensures { result ≡ is_opens (seen_of self.now) }
    {
        matches!(self, TokenView::Opens)
    }
}

/// The number of a mark, which tells it from the others.
fn mark_number(mark: Mark16) -> u8
    ensures { result ≡ mark_number mark }
{
    match mark {
        Mark16::BraceOpen => 0,
        Mark16::BraceClose => 1,
        Mark16::ParenOpen => 2,
        Mark16::ParenClose => 3,
        Mark16::BracketOpen => 4,
        Mark16::BracketClose => 5,
        Mark16::Semicolon => 6,
        Mark16::Colon => 7,
        Mark16::Comma => 8,
        Mark16::Dot => 9,
        Mark16::DotDot => 10,
        Mark16::Assign => 11,
        Mark16::Less => 12,
        Mark16::Greater => 13,
        Mark16::LessEqual => 14,
        Mark16::GreaterEqual => 15,
        Mark16::Equal => 16,
        Mark16::NotEqual => 17,
        Mark16::ShiftLeft => 18,
        Mark16::Plus => 19,
        Mark16::PlusPlus => 20,
        Mark16::Minus => 21,
        Mark16::SaturatingPlus => 22,
        Mark16::SaturatingMinus => 23,
        Mark16::Star => 24,
        Mark16::Ampersand => 25,
        Mark16::AndAnd => 26,
        Mark16::Mask => 27,
        Mark16::Bar => 28,
        Mark16::OrOr => 29,
        Mark16::Caret => 30,
        Mark16::Tilde => 31,
        Mark16::Bang => 32,
        Mark16::Question => 33,
    }
}

/// The number of a reserved word, which tells it from the others.
fn word_number(word: Keyword16) -> u8
    ensures { result ≡ word_number word }
{
    match word {
        Keyword16::V1Switch => 0,
        Keyword16::Main => 1,
        Keyword16::Header => 2,
        Keyword16::Bit => 3,
        Keyword16::Struct => 4,
        Keyword16::Parser => 5,
        Keyword16::Control => 6,
        Keyword16::Apply => 7,
        Keyword16::Bool => 8,
        Keyword16::In => 9,
        Keyword16::Out => 10,
        Keyword16::InOut => 11,
        Keyword16::Counter => 12,
        Keyword16::DirectCounter => 13,
        Keyword16::Register => 14,
        Keyword16::Meter => 15,
        Keyword16::Action => 16,
        Keyword16::Table => 17,
        Keyword16::Key => 18,
        Keyword16::Actions => 19,
        Keyword16::NoAction => 20,
        Keyword16::Size => 21,
        Keyword16::Counters => 22,
        Keyword16::DefaultAction => 23,
        Keyword16::State => 24,
        Keyword16::Transition => 25,
        Keyword16::Select => 26,
        Keyword16::Accept => 27,
        Keyword16::Reject => 28,
        Keyword16::Default => 29,
        Keyword16::Underscore => 30,
        Keyword16::If => 31,
        Keyword16::Else => 32,
        Keyword16::Switch => 33,
        Keyword16::ActionRun => 34,
        Keyword16::True => 35,
        Keyword16::False => 36,
        Keyword16::Error => 37,
    }
}

/// The number of an annotation's name.
fn note_number(annotation: Annotation16) -> u8
    ensures { result ≡ note_number annotation }
{
    match annotation {
        Annotation16::Name => 0,
        Annotation16::FieldList => 1,
    }
}

/// The number of an include line.
fn include_number(line: Include16) -> u8
    ensures { result ≡ include_number line }
{
    match line {
        Include16::Core => 0,
        Include16::V1Model => 1,
    }
}

/// The text of a name that the grammar quotes, in ASCII.
fn known_text(name: Known) -> &'static [u8]
    ensures { result.now ≡ known_text name }
{
    match name {
        Known::HashAlgorithm => b"HashAlgorithm",
        Known::CounterType => b"CounterType",
        Known::MeterType => b"MeterType",
        Known::CloneType => b"CloneType",
        Known::Csum16 => b"csum16",
        Known::Crc16 => b"crc16",
        Known::Crc32 => b"crc32",
        Known::Identity => b"identity",
        Known::Packets => b"packets",
        Known::Bytes => b"bytes",
        Known::PacketsAndBytes => b"packets_and_bytes",
        Known::I2E => b"I2E",
        Known::E2E => b"E2E",
        Known::Lookahead => b"lookahead",
    }
}

/// The token that stands at this place, where it lies in the text.
pub fn view_of<'t>(
    text: &'t [u8],
    tokens: &'t [Token16],
    place: usize,
    token: &'t Token16,
) -> TokenView<'t>
    requires { place < length tokens.now }
    ensures { seen_of result ≡ seen_at text.now tokens.now place token.now }
{
    match &token.kind {
        TokenKind16::Name => word_of(octets_of(text, token.from, token.to)),
        TokenKind16::Number(literal) => TokenView::Number(literal),
        TokenKind16::Mark(mark) => mark_of(text, tokens, place, token, *mark),
        TokenKind16::Quoted => TokenView::String(inner(octets_of(text, token.from, token.to))),
        TokenKind16::At(annotation) => TokenView::At(*annotation),
        TokenKind16::Include(line) => TokenView::Include(*line),
    }
}

/// A name or a reserved word.
fn word_of(octets: &[u8]) -> TokenView<'_>
    ensures { seen_of result ≡ seen_word octets.now }
{
    match reserved_word(octets) {
        Some(word) => TokenView::Word(word),
        None => TokenView::Name(octets),
    }
}

/// A mark among its neighbours.
fn mark_of<'t>(
    text: &'t [u8],
    tokens: &[Token16],
    place: usize,
    token: &Token16,
    mark: Mark16,
) -> TokenView<'t>
    requires { place < length tokens.now }
    ensures { seen_of result ≡ seen_mark text.now tokens.now place token.now mark }
{
    match mark {
        Mark16::Greater => greater_of(text, tokens, place, token),
        Mark16::Less => less_of(text, tokens, place),
        other => TokenView::Mark(other),
    }
}

/// A `>` among its neighbours.
fn greater_of<'t>(
    text: &'t [u8],
    tokens: &[Token16],
    place: usize,
    token: &Token16,
) -> TokenView<'t>
    requires { place < length tokens.now }
    ensures { seen_of result ≡ seen_greater (is_touched token.now (ahead tokens.now place 1) && not (is_past_type text.now tokens.now place)) }
{
    if is_touched(token, ahead(tokens, place, 1)) && !is_past_type(text, tokens, place) {
        TokenView::Joined
    } else {
        TokenView::Mark(Mark16::Greater)
    }
}

/// A `<` among its neighbours.
fn less_of<'t>(text: &'t [u8], tokens: &[Token16], place: usize) -> TokenView<'t>
    requires { place < length tokens.now }
    ensures { seen_of result ≡ seen_less (follows_lookahead text.now tokens.now place && begins_type text.now tokens.now place) }
{
    if follows_lookahead(text, tokens, place) && begins_type(text, tokens, place) {
        TokenView::Opens
    } else {
        TokenView::Mark(Mark16::Less)
    }
}

/// The token so many places before this place.
fn back(tokens: &[Token16], place: usize, steps: usize) -> Option<Token16>
    ensures { result ≡ back tokens.now place steps }
{
    if steps <= place {
        tokens.get(place - steps).copied()
    } else {
        None
    }
}

/// The token so many places behind this place.
fn ahead(tokens: &[Token16], place: usize, steps: usize) -> Option<Token16>
    requires { place < length tokens.now }
    ensures { result ≡ ahead tokens.now place steps }
{
    tokens.split_at(place).1.get(steps).copied()
}

/// Whether a token is there and is this mark.
fn is_less(token: Option<Token16>) -> bool
    ensures { result ≡ is_of_kind is_less_kind token }
{
    match token {
        Some(token) => matches!(token.kind, TokenKind16::Mark(Mark16::Less)),
        None => false,
    }
}

/// Whether a token is there and is this mark.
fn is_greater(token: Option<Token16>) -> bool
    ensures { result ≡ is_of_kind is_greater_kind token }
{
    match token {
        Some(token) => matches!(token.kind, TokenKind16::Mark(Mark16::Greater)),
        None => false,
    }
}

/// Whether a token is there and is this mark.
fn is_dot(token: Option<Token16>) -> bool
    ensures { result ≡ is_of_kind is_dot_kind token }
{
    match token {
        Some(token) => matches!(token.kind, TokenKind16::Mark(Mark16::Dot)),
        None => false,
    }
}

/// Whether a token is there and is this mark.
fn is_paren(token: Option<Token16>) -> bool
    ensures { result ≡ is_of_kind is_paren_kind token }
{
    match token {
        Some(token) => matches!(token.kind, TokenKind16::Mark(Mark16::ParenOpen)),
        None => false,
    }
}

/// Whether a token is there and is this mark.
fn is_bracket(token: Option<Token16>) -> bool
    ensures { result ≡ is_of_kind is_bracket_kind token }
{
    match token {
        Some(token) => matches!(token.kind, TokenKind16::Mark(Mark16::BracketOpen)),
        None => false,
    }
}

/// Whether a token is there and is this mark.
fn is_bracket_end(token: Option<Token16>) -> bool
    ensures { result ≡ is_of_kind is_bracket_end_kind token }
{
    match token {
        Some(token) => matches!(token.kind, TokenKind16::Mark(Mark16::BracketClose)),
        None => false,
    }
}

/// Whether a token is there and is a number.
fn is_number(token: Option<Token16>) -> bool
    ensures { result ≡ is_of_kind is_number_kind token }
{
    match token {
        Some(token) => matches!(token.kind, TokenKind16::Number(_)),
        None => false,
    }
}

/// Whether a token is there and is this word.
fn is_text(text: &[u8], octets: &[u8], token: Option<Token16>) -> bool
    ensures { result ≡ is_word_with text.now (bytes_eq octets.now) token }
{
    match token {
        Some(token) => {
            matches!(token.kind, TokenKind16::Name)
                && octets == octets_of(text, token.from, token.to)
        }
        None => false,
    }
}

/// Whether a token is there and is `bit` or `bool`.
fn is_bits(text: &[u8], token: Option<Token16>) -> bool
    ensures { result ≡ is_word_with text.now is_bits token }
{
    match token {
        Some(token) => {
            matches!(token.kind, TokenKind16::Name)
                && is_bit_or_bool(octets_of(text, token.from, token.to))
        }
        None => false,
    }
}

/// Whether the octets are `bit` or `bool`.
fn is_bit_or_bool(octets: &[u8]) -> bool
    ensures { result ≡ is_bits octets.now }
{
    Keyword16::Bit.text() == octets || Keyword16::Bool.text() == octets
}

/// Whether a token is there and is a name that isn't reserved.
fn is_free(text: &[u8], token: Option<Token16>) -> bool
    ensures { result ≡ is_word_with text.now is_free token }
{
    match token {
        Some(token) => {
            matches!(token.kind, TokenKind16::Name)
                && !is_reserved(octets_of(text, token.from, token.to))
        }
        None => false,
    }
}

/// Whether a `>` behind this token touches it.
fn is_touched(token: &Token16, next: Option<Token16>) -> bool
    ensures { result ≡ is_touched token.now next }
{
    match next {
        Some(next) => {
            matches!(next.kind, TokenKind16::Mark(Mark16::Greater)) && token.to == next.from
        }
        None => false,
    }
}

/// Whether `bit<NUMBER` of a type stands before this place.
fn ends_bit(text: &[u8], tokens: &[Token16], place: usize) -> bool
    ensures { result ≡ ends_bit text.now tokens.now place }
{
    is_number(back(tokens, place, 1))
        && is_less(back(tokens, place, 2))
        && is_bit_type(text, back(tokens, place, 4), back(tokens, place, 3))
}

/// Whether the word is `bit` and begins a type: behind a dot it is a member.
fn is_bit_type(text: &[u8], before: Option<Token16>, word: Option<Token16>) -> bool
    ensures { result ≡ is_bit_type text.now before word }
{
    is_text(text, Keyword16::Bit.text(), word) && !is_dot(before)
}

/// Whether `<bool` stands before this place.
fn ends_bool(text: &[u8], tokens: &[Token16], place: usize) -> bool
    ensures { result ≡ ends_bool text.now tokens.now place }
{
    is_text(text, Keyword16::Bool.text(), back(tokens, place, 1)) && is_less(back(tokens, place, 2))
}

/// Whether no operator may stand at this place, since `bit<NUMBER`, `<bool` or another `>` stands before it.
fn is_past_type(text: &[u8], tokens: &[Token16], place: usize) -> bool
    ensures { result ≡ is_past_type text.now tokens.now place }
{
    ends_bit(text, tokens, place)
        || (ends_bool(text, tokens, place) || is_greater(back(tokens, place, 1)))
}

/// Whether `.lookahead` stands before this place.
fn follows_lookahead(text: &[u8], tokens: &[Token16], place: usize) -> bool
    ensures { result ≡ follows_lookahead text.now tokens.now place }
{
    is_text(text, known_text(Known::Lookahead), back(tokens, place, 1))
        && is_dot(back(tokens, place, 2))
}

/// Whether `>(` stands so many places behind this place.
fn ends_type(tokens: &[Token16], place: usize, steps: usize, next: usize) -> bool
    requires place { place < length tokens.now }
    requires next { next ≡ steps + 1 }
    ensures { result ≡ ends_type tokens.now place steps }
{
    is_greater(ahead(tokens, place, steps)) && is_paren(ahead(tokens, place, next))
}

/// Whether a size in brackets and `>(` stand behind the token behind this place.
fn is_sized(tokens: &[Token16], place: usize) -> bool
    requires { place < length tokens.now }
    ensures { result ≡ is_sized tokens.now place }
{
    is_bracket(ahead(tokens, place, 2))
        && is_number(ahead(tokens, place, 3))
        && is_bracket_end(ahead(tokens, place, 4))
        && ends_type(tokens, place, 5, 6)
}

/// Whether the type of a `lookahead` begins behind this place.
fn begins_type(text: &[u8], tokens: &[Token16], place: usize) -> bool
    requires { place < length tokens.now }
    ensures { result ≡ begins_type text.now tokens.now place }
{
    is_bits(text, ahead(tokens, place, 1))
        || (is_free(text, ahead(tokens, place, 1))
            && (ends_type(tokens, place, 2, 3) || is_sized(tokens, place)))
}

/// What stands between the first octet and the last.
fn inner(octets: &[u8]) -> &[u8]
    ensures { result.now ≡ inner octets.now }
{
    octets_of(octets, 1, octets.len().saturating_sub(1))
}

/// The octets of the text from one place up to another, as far as it has them.
fn octets_of(text: &[u8], from: usize, to: usize) -> &[u8]
    ensures { result.now ≡ take (to - from) (drop from text.now) }
{
    let (_, rest) = text.split_at(from.min(text.len()));
    rest.split_at(to.saturating_sub(from).min(rest.len())).0
}
