//! A text whose words are those that a P4_16 syntax is written with, its parentheses among them, reads as that syntax and as no
//! other.
#![tactic(auto)]

ghost use Rattle.std.specs.Prelude.{◌≡◌, ℕ, List, IsTrue};
ghost use Rattle.token_sheet.specs.Words.{IsDividedInto};
ghost use Rattle.p416_tok.specs.Front.{front};
ghost use Rattle.p416_syntax.specs.declared.program.Syntax16.{Syntax16};
ghost use Rattle.p416_syntax.specs.Written.{written};
ghost use Rattle.p416_syntax.specs.Spelt.{is_spelt16};
ghost use Rattle.p416_parentheses.specs.Syntax.{full_syntax};
ghost use Rattle.p416_spelling.specs.Spelled.{meets16};
ghost use Rattle.p416_spelling.specs.Words.{words16};
ghost use Rattle.p416_reader.specs.Reading.{Reads16};

/// A text that is divided into the words that a syntax is written with, which a text can have, reads as this syntax (`reads`),
/// whatever stands between the words, and reads as no other (`alone`). Nothing is asked of how long or how deep the syntax is.
#[tactic(auto, using(crate::proofs::Back::reads_back))]
pub fn words_read_back()
    ensures reads { (text : List ℕ) (syntax : Syntax16) → IsTrue (is_spelt16 syntax) → IsDividedInto front meets16 text (words16 (written (full_syntax syntax))) → Reads16 text syntax }
    ensures alone { (text : List ℕ) (syntax other : Syntax16) → IsTrue (is_spelt16 syntax) → IsDividedInto front meets16 text (words16 (written (full_syntax syntax))) → Reads16 text other → other ≡ syntax }
{}
