// The tokens of a P4_14 text.
ghost use Rattle.std.specs.Prelude.{◌-◌, drop, All, IfOk, IsTrue};
ghost use Rattle.std.specs.List.{list_all};
ghost use Rattle.token_division.specs.Division.{IsDivision};
ghost use Rattle.token_division.specs.Layout.{IsLaidOut};
ghost use Rattle.token_division.specs.Trivia.{IsTokensAndTrivia};
ghost use Rattle.p414_syntax.specs.SpeltLexemes.{is_spelt_lexeme};
ghost use Rattle.p414_tok.specs.Front as pieces;
ghost use Rattle.p414_tok.specs.Lexemes.{lexemes};
ghost use Rattle.p414_tok.specs.Spelled.{IsSpelled};
ghost use Rattle.p414_tok.specs.Trivia.{IsTrivia};
ghost use Rattle.p414_tok.specs.Refusals.{IsRefusedRightly};

use crate::front::front;
use crate::{Token14, TokenKind14};
use p4x_bits::Rows;
use p4x_fault::Rule;
use std::alloc::Global;
use token_division::{Lex, Lexicon, Piece, divide};

/// P4_14, by what its texts may begin with.
struct P414;

impl Lexicon for P414 {
    ghost use Rattle.p414_tok.specs.Front as pieces;

    type Kind = TokenKind14;

    ghost front = { pieces.front };

    fn front(is_first: bool, text: &[u8]) -> Result<Piece<TokenKind14>, Rule> {
        front(is_first, text)
    }
}

/// The tokens of a P4_14 text, in order.
///
/// The text is divided from the left into trivia (blanks, comments, line markers and pragma lines) and
/// tokens, the longest mark first: it is its tokens, and before, between and behind them trivia and nothing
/// else. Each name is an identifier and each number fits its width (`is_spelt_lexeme` of p414_syntax).
/// Where no piece can follow, the text is refused with the rule that it breaks and the place where the piece
/// would begin: L1 for an octet that begins none, L2 for a comment or the name
/// of a line marker that isn't closed, L3 for a number over 2^128 - 1 or a width outside 1 to 128, L4 for
/// a line that begins with `#` and is no line marker. The only other error is want of memory.
///
/// The text is gone over once, in time linear in its length, at any length of a comment or a number.
pub fn tokens(alloc: Global, text: &[u8]) -> Result<Rows<Token14>, Lex>
    ensures is { IsDivision pieces.front text.now result }
    ensures laid_out { IfOk result (IsLaidOut text.now) }
    ensures spelled { IfOk result (All (λ token. IsSpelled token.kind (drop token.from text.now) (token.to - token.from))) }
    ensures spelt { IfOk result (λ tokens. IsTrue (list_all is_spelt_lexeme (lexemes text.now tokens))) }
    ensures trivia { IfOk result (IsTokensAndTrivia IsTrivia text.now) }
    ensures refused { IsRefusedRightly text.now result }
{
    divide::<P414>(alloc, text)
}
