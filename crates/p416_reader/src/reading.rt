// Tokens that are read in the grammar of P4_16, and what is built of them.
ghost use Rattle.p416_reader.specs.declared.built.Built as built;
ghost use Rattle.p416_reader.specs.internal.Rows.{grammar16};
ghost use Rattle.p416_reader.specs.internal.Coded.{coded};
ghost use Rattle.std.specs.Prelude.{◌≡◌, ◌<◌, length, None, IfOk};
ghost use Rattle.p416_syntax.specs.Tokens.{Seen16};

use crate::built::Built;
use crate::choose_operator::choose_coded;
use crate::rows::{Sym, rows_of};
use crate::seen::SeenTokens;
use crate::symbols::{Action, Class, Word};
use p4x_bits::OutOfMemory;
use predictive_parser::{Builder, Lookahead, Stack, WordRows};
use std::alloc::Global;

/// Tokens, and what is built of them so far.
#[derive(Drop)]
pub struct Reading<'t> {
    pub alloc: Global,
    pub seen: SeenTokens<'t>,
    pub built: Built,
}

impl Lookahead for Reading<'_> {
    type Class = Class;

    type Action = Action;

    type Word = Word;

    ghost Token = { Seen16 };

    ghost Built = { built.Built };

    ghost grammar = { grammar16 };

    ghost coded = { coded };

    ghost tokens = { λ reading. reading.seen };

    ghost held = { λ reading. reading.built };

    fn count(&self) -> usize {
        self.seen.len()
    }

    fn accepts(&self, class: Class, place: usize) -> bool {
        self.built.accepts(class, self.seen.token_at(place))
    }
}

impl Builder for Reading<'_> {
    fn shift(&mut self, class: Class, place: usize) -> Result<(), OutOfMemory> {
        let token = self.seen.token_at(place);
        self.built.shift(self.alloc, class, token)?;
        self.seen.go_behind(place);
        Ok(())
    }

    fn put(&mut self, action: Action) -> Result<(), OutOfMemory> {
        self.built.put(self.alloc, action)
    }

    fn rows(&self, word: Word) -> WordRows<'_, Class, Action, Word> {
        rows_of(word)
    }

    fn choose_coded(
        &self,
        word: Word,
        more: &[Sym],
        place: usize,
        stack: &mut Stack<Class, Action, Word>,
    ) -> Result<Option<Class>, OutOfMemory> {
        choose_coded(self, word, more, place, stack)
    }
}
