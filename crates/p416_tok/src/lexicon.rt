// The tokens of a P4_16 text.
ghost use Rattle.std.specs.Prelude.{◌-◌, drop, All, IfOk, IsTrue};
ghost use Rattle.std.specs.List.{list_all};
ghost use Rattle.token_division.specs.Division.{IsDivision};
ghost use Rattle.token_division.specs.Layout.{IsLaidOut};
ghost use Rattle.token_division.specs.Trivia.{IsTokensAndTrivia};
ghost use Rattle.p416_syntax.specs.SpeltLexemes.{is_spelt_lexeme16};
ghost use Rattle.p416_tok.specs.Front as pieces;
ghost use Rattle.p416_tok.specs.Lexemes.{lexemes16};
ghost use Rattle.p416_tok.specs.Spelled.{IsSpelled};
ghost use Rattle.p416_tok.specs.Trivia.{IsTrivia};
ghost use Rattle.p416_tok.specs.Refusals.{IsRefusedRightly};

use crate::front::front;
use crate::{Token16, TokenKind16};
use p4x_bits::Rows;
use p4x_fault::Rule;
use std::alloc::Global;
use token_division::{Lex, Lexicon, Piece, divide};

/// P4_16, by what its texts may begin with.
struct P416;

impl Lexicon for P416 {
    ghost use Rattle.p416_tok.specs.Front as pieces;

    type Kind = TokenKind16;

    ghost front = { pieces.front };

    fn front(is_first: bool, text: &[u8]) -> Result<Piece<TokenKind16>, Rule> {
        front(is_first, text)
    }
}

/// The tokens of a P4_16 text, in order.
///
/// The text is divided from the left into trivia (blanks and comments) and tokens, the longest mark first:
/// it is its tokens, and before, between and behind them trivia and nothing else. Each name, and what stands
/// in each string, is an identifier; each number has a width of 1 to 128 or none, and its value as it is
/// written (`is_spelt_lexeme16` of p416_syntax). `>>` is two marks, whose spans tell that they touch. Where
/// no piece can follow, the text is refused with the rule that it breaks and the place where the piece would
/// begin: L1 for an octet that begins none, or a number in the form of signed ones, L2 for a comment that
/// isn't closed, L3 for a number over 2^128 - 1 or a width outside 1 to 128, L4 for a line that begins with
/// `#` and is no include line. The only other error is want of memory.
///
/// The text is gone over once, in time linear in its length, at any length of a comment or a number.
pub fn tokens16(alloc: Global, text: &[u8]) -> Result<Rows<Token16>, Lex>
    ensures is { IsDivision pieces.front text.now result }
    ensures laid_out { IfOk result (IsLaidOut text.now) }
    ensures spelled { IfOk result (All (λ token. IsSpelled token.kind (drop token.from text.now) (token.to - token.from))) }
    ensures spelt { IfOk result (λ tokens. IsTrue (list_all is_spelt_lexeme16 (lexemes16 text.now tokens))) }
    ensures trivia { IfOk result (IsTokensAndTrivia IsTrivia text.now) }
    ensures refused { IsRefusedRightly text.now result }
{
    divide::<P416>(alloc, text)
}
