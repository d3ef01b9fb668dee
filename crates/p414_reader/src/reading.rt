// Tokens that are read in the grammar of P4_14, and what is built of them.
ghost use Rattle.p414_reader.specs.declared.built.Built as built;
ghost use Rattle.p414_reader.specs.internal.Rows.{grammar14};
ghost use Rattle.p414_reader.specs.internal.Coded.{coded};
ghost use Rattle.std.specs.Prelude.{◌≡◌, ◌<◌, length, None, IfOk};
ghost use Rattle.p414_syntax.specs.declared.lexeme.Lexeme.{Lexeme};
ghost use Rattle.p414_tok.specs.Lexemes.{lexemes};

use crate::built::Built;
use crate::choose_expr::choose_coded;
use crate::rows::{Sym, rows_of};
use crate::symbols::{Action, Class, Word};
use crate::token::token_at;
use p4x_bits::OutOfMemory;
use p414_tok::Token14;
use predictive_parser::{Builder, Lookahead, Stack, WordRows};
use std::alloc::Global;

/// Tokens, and what is built of them so far.
#[derive(Drop)]
pub struct Reading<'t> {
    pub alloc: Global,
    pub text: &'t [u8],
    pub tokens: &'t [Token14],
    pub built: Built,
}

impl Lookahead for Reading<'_> {
    type Class = Class;

    type Action = Action;

    type Word = Word;

    ghost Token = { Lexeme };

    ghost Built = { built.Built };

    ghost grammar = { grammar14 };

    ghost coded = { coded };

    ghost tokens = { λ reading. lexemes reading.text.now reading.tokens.now };

    ghost held = { λ reading. reading.built };

    fn count(&self) -> usize {
        self.tokens.len()
    }

    fn accepts(&self, class: Class, place: usize) -> bool {
        self.built
            .accepts(class, token_at(self.text, self.tokens, place))
    }
}

impl Builder for Reading<'_> {
    fn shift(&mut self, class: Class, place: usize) -> Result<(), OutOfMemory> {
        let token = token_at(self.text, self.tokens, place);
        self.built.shift(self.alloc, class, token)
    }

    fn put(&mut self, action: Action) -> Result<(), OutOfMemory> {
        self.built.put(self.alloc, action)
    }

    fn rows(&self, word: Word) -> WordRows<'_, Class, Action, Word> {
        rows_of(word)
    }

    fn choose_coded(
        &self,
        word: Word,
        more: &[Sym],
        place: usize,
        stack: &mut Stack<Class, Action, Word>,
    ) -> Result<Option<Class>, OutOfMemory> {
        choose_coded(self, word, more, place, stack)
    }
}
