// Rows that are made where they are chosen from.
ghost use Rattle.std.specs.Prelude.{◌≡◌, ◌<◌, length, None, Some, IfOk, slice_get};
ghost use Rattle.predictive_parser.specs.Choices.{Chooses, first_of};

use crate::{Lookahead, Stack, Symbol};
use p4x_bits::OutOfMemory;

/// A row of a word: a class, for its first token, and the symbols that follow the token.
#[derive(Clone, Copy)]
pub struct Alternative<'r, C, A, W> {
    pub first: C,
    pub rest: &'r [Symbol<C, A, W>],
}

/// The class of the first of the rows that fits the token at this place, if one does. The symbols of the
/// row that follow the token are then put onto the stack, with `more` behind them.
pub fn choose_first<L: Lookahead>(
    lookahead: &L,
    rows: &[Alternative<'_, L::Class, L::Action, L::Word>],
    more: &[Symbol<L::Class, L::Action, L::Word>],
    place: usize,
    stack: &mut Stack<L::Class, L::Action, L::Word>,
) -> Result<Option<L::Class>, OutOfMemory>
    requires { place < length (L.tokens lookahead.now) }
    ensures chooses { IfOk result (λ class. (token : L.Token) → slice_get (L.tokens lookahead.now) place ≡ Some token
        → Chooses class (first_of L.grammar token (L.held lookahead.now) rows.now more.now) stack.old stack.new) }
    ensures none { IfOk result (λ class. class ≡ None → stack.new ≡ stack.old) }
{
    for row in rows {
        if lookahead.accepts(row.first, place) {
            stack.push_all(more)?;
            stack.push_all(row.rest)?;
            return Ok(Some(row.first));
        }
    }
    Ok(None)
}
