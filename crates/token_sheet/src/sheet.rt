// A text, seen as the words that it is divided into.
ghost use Rattle.std.specs.Prelude.{◌≡◌, [], ◌∷◌, ◌++◌, true, false, IsTrue, slice_index, OnOk, OnErr, IfOk};
ghost use Rattle.token_sheet.specs.Words.{word, joined, IsDividedInto};

use crate::Spelling;
use crate::blanks::{Gap, blanks_before};
use crate::page::{add, add_two};
use p4x_bits::{Octets, OutOfMemory};
use std::alloc::Global;
use std::marker::Model;

/// A text that is written a word at a time. Contracts see the words that its text, with a line feed at its end, is
/// divided into.
#[derive(Drop)]
pub struct Sheet<L: Spelling> {
    text: Octets,
    last: Option<L::Kind>,
    start: usize,
    is_first: bool,
}

impl<L: Spelling> Model for Sheet<L> {
    ghost use Rattle.std.specs.Prelude.{List};
    ghost use Rattle.token_sheet.specs.Words.{Word, sheet_words};
    ghost use Rattle.token_sheet.specs.Ready.{IsReady};

    ghost Value = { List (Word L.Kind) };

    ghost view = { λ sheet. sheet_words L.front L.meets sheet.text };

    ghost invariant = { λ sheet. IsReady L.front L.parts sheet.text sheet.last sheet.start sheet.is_first };
}

impl<L: Spelling> Sheet<L> {
    /// A sheet without words. It takes no memory until the first.
    pub fn new(alloc: Global) -> Self
        ensures { result ≡ [] }
    {
        Sheet {
            text: Octets::new(alloc),
            last: None,
            start: 0,
            is_first: true,
        }
    }

    /// Puts a word behind the others. The blanks in front of it are those that are asked for, and a blank at least where it
    /// would else be one with the word before it, or be joined to it. For want of memory the sheet stays as it was.
    pub fn put(&mut self, gap: Gap, kind: L::Kind, octets: &[u8]) -> Result<(), OutOfMemory>
        requires { L.spells kind octets.now }
        ensures ok { OnOk result (self.new ≡ self.old ++ word kind octets.now ∷ []) }
        ensures err { OnErr result (self.new ≡ self.old) }
    {
        let (_, last) = self.text.as_slice().split_at(self.start);
        let blanks = blanks_before::<L>(gap, self.last, last, self.is_first, kind, octets[0]);
        self.start = add(&mut self.text, blanks, octets)?;
        self.last = Some(kind);
        self.is_first = false;
        Ok(())
    }

    /// Puts two words behind the others, the second of which is joined to the first. The blanks in front of the first are as
    /// those of a word that is put by itself. For want of memory the sheet stays as it was.
    pub fn put_joined(
        &mut self,
        gap: Gap,
        first: L::Kind,
        octets: &[u8],
        second: L::Kind,
        more: &[u8],
    ) -> Result<(), OutOfMemory>
        requires first { L.spells first octets.now }
        requires second { L.spells second more.now }
        requires parted { IsTrue (L.parts first octets.now (slice_index more.now 0)) }
        requires meet { IsTrue (L.meets first second) }
        requires inside { L.begins_line second ≡ false }
        ensures ok { OnOk result (self.new ≡ self.old ++ joined first octets.now ∷ word second more.now ∷ []) }
        ensures err { OnErr result (self.new ≡ self.old) }
    {
        let (_, last) = self.text.as_slice().split_at(self.start);
        let blanks = blanks_before::<L>(gap, self.last, last, self.is_first, first, octets[0]);
        self.start = add_two(&mut self.text, blanks, octets, more)?;
        self.last = Some(second);
        self.is_first = false;
        Ok(())
    }

    /// What is written: the words of its text are those of the sheet.
    pub fn finish(self) -> Result<Octets, OutOfMemory>
        ensures { IfOk result (λ text. IsDividedInto L.front L.meets text self) }
    {
        let Sheet { mut text, .. } = self;
        text.push(b'\n')?;
        Ok(text)
    }
}
