// The division of a text into tokens.
ghost use Rattle.std.specs.Prelude.{◌≡◌, ◌<◌, ◌≤◌, ◌+◌, ◌++◌, ◌^◌, ℕ, List, length, All, IfOk, OnOk};
ghost use Rattle.token_division.specs.declared.division.Lex.TheVariants.{Memory};
ghost use Rattle.token_division.specs.Division.{IsDivision, place_after, first_after, token_of};
ghost use Rattle.token_division.specs.Layout.{IsLaidOut, IsPieceOf};
ghost use Rattle.token_division.specs.Walk.{IsWalk};

use crate::octets::is_line_feed;
use p4x_bits::{OutOfMemory, Rows};
use p4x_fault::{Fault, Place, Rule};
use std::alloc::Global;
use thiserror::Error;

/// What a piece of a text stands for.
#[derive(Clone, Copy, PartialEq, Eq)]
pub enum What<K> {
    /// One blank.
    Blank,
    /// Trivia of more than one octet: a comment, or a line that stands for nothing.
    Skipped,
    /// A token of this token class.
    Token(K),
}

/// What a text begins with, and how many octets that has.
#[derive(Clone, Copy, PartialEq, Eq)]
pub struct Piece<K> {
    pub what: What<K>,
    pub size: usize,
}

/// A token: its token class, the octets of the text that it is written with, which are those from `from` up to
/// but not with `to`, and the place of the first of them.
#[derive(Clone, Copy, PartialEq, Eq)]
pub struct Token<K> {
    pub kind: K,
    pub from: usize,
    pub to: usize,
    pub place: Place,
}

/// Why a text has no tokens.
#[derive(Debug, PartialEq, Eq, Drop, Error)]
pub enum Lex {
    /// Memory ran out.
    #[error("out of memory")]
    Memory,
    /// The text breaks a rule of its tokens at a place.
    #[error("the text can't be divided into tokens")]
    Refused(Fault),
}

impl From<OutOfMemory> for Lex {
    ghost from_gives = { λ _ lex. lex ≡ Memory };

    fn from(_: OutOfMemory) -> Lex {
        Lex::Memory
    }
}

/// A language, by the pieces that its texts are divided into.
pub trait Lexicon {
    /// Its token classes.
    type Kind: Copy;

    ghost use Rattle.token_division.specs.Division.{Front};

    ghost front: { Front Self.Kind };

    /// The piece that a text begins with, or the rule that the text breaks there. `is_first` says
    /// whether nothing but blanks stands before it on its line.
    fn front(is_first: bool, text: &[u8]) -> Result<Piece<Self::Kind>, Rule>
        requires { 0 < length text.now }
        ensures is { result ≡ front is_first text.now }
        ensures within { IfOk result (λ piece. (0 < piece.size) × (piece.size ≤ length text.now)) };
}

/// The tokens that a text of the language is divided into, or the rule and the place at which the
/// division stops, or want of memory. It goes over the text once. The clause `walk` tells every piece of
/// the text, trivia too, so that a language can say what stands between its tokens and where it stops.
pub fn divide<L: Lexicon>(alloc: Global, text: &[u8]) -> Result<Rows<Token<L::Kind>>, Lex>
    ensures is { IsDivision L.front text.now result }
    ensures laid_out { IfOk result (IsLaidOut text.now) }
    ensures pieces { IfOk result (All (IsPieceOf L.front text.now)) }
    ensures walk { IsWalk L.front text.now result }
{
    let mut tokens = Rows::new(alloc);
    let mut at = 0;
    let mut is_first = true;
    let mut place = Place { line: 1, column: 1 };
    while at < text.len() {
        let (_, left) = text.split_at(at);
        match L::front(is_first, left) {
            Err(rule) => {
                let place = Some(place);
                return Err(Lex::Refused(Fault { rule, place }));
            }
            Ok(piece) => {
                add(&mut tokens, piece, at, place)?;
                is_first = first_after(piece.what, is_first, left[0]);
                place = place_behind(place, &left[..piece.size]);
                at += piece.size;
            }
        }
    }
    Ok(tokens)
}

/// Adds the token that a piece is, if it is one.
fn add<K: Copy>(
    tokens: &mut Rows<Token<K>>,
    piece: Piece<K>,
    at: usize,
    place: Place,
) -> Result<(), OutOfMemory>
    requires { at + piece.size < 2 ^ 64 }
    ensures { OnOk result ((before : List ℕ) → length before ≡ at → place ≡ place_after before
        → tokens.new ≡ tokens.old ++ token_of before piece.what piece.size) }
{
    match piece.what {
        What::Blank | What::Skipped => Ok(()),
        What::Token(kind) => tokens.push(Token {
            kind,
            from: at,
            to: at + piece.size,
            place,
        }),
    }
}

/// Whether nothing but blanks stands on its line before what follows a piece, where `is_first` says so
/// of the piece, and `octet` is the first of the piece.
fn first_after<K: Copy>(what: What<K>, is_first: bool, octet: u8) -> bool
    ensures { result ≡ first_after what is_first octet }
{
    match what {
        What::Blank => is_line_feed(octet) || is_first,
        What::Skipped | What::Token(_) => false,
    }
}

/// The place behind a piece, from the place before it.
#[tactic(auto, using(crate::proofs::Places::place_more_line, crate::proofs::Places::place_more_column))]
fn place_behind(place: Place, piece: &[u8]) -> Place
    requires line { place.line + length piece.now < 2 ^ 64 }
    requires column { place.column + length piece.now < 2 ^ 64 }
    ensures { (before : List ℕ) → place ≡ place_after before → result ≡ place_after (before ++ piece.now) }
{
    let mut line = place.line;
    let mut column = place.column;
    for octet in piece {
        if is_line_feed(*octet) {
            line += 1;
            column = 1;
        } else {
            column += 1;
        }
    }
    Place { line, column }
}

/// The place behind a text: that of an octet that would follow it.
pub fn place_behind_text(text: &[u8]) -> Place
    ensures { result ≡ place_after text.now }
{
    place_behind(Place { line: 1, column: 1 }, text)
}
