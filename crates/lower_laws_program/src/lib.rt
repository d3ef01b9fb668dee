//! The program that is put together: types, scopes and frames, and that it carries the program of P4_14 where its
//! blocks are as asked. Each law is the contract of a function that does nothing.
#![tactic(auto)]

ghost use Rattle.lower_laws_program.specs.Laws.{TranslationCarries};

/// A program whose parts are as asked carries the program of P4_14.
pub fn translation_carries()
    ensures { TranslationCarries }
{}
