//! Where parentheses are written around the expressions of a P4_16 syntax, and that with them it is spelled as the grammar says.
#![tactic(auto)]

ghost use Rattle.std.specs.Prelude.{IsTrue};
ghost use Rattle.p416_syntax.specs.declared.program.Syntax16.{Syntax16};
ghost use Rattle.std.specs.List.{list_all};
ghost use Rattle.p416_syntax.specs.Tokens.{is_spelt_seen};
ghost use Rattle.p416_syntax.specs.Written.{written};
ghost use Rattle.p416_syntax.specs.Spells.{Spells16};
ghost use Rattle.p416_syntax.specs.Spelt.{is_spelt16};
ghost use Rattle.p416_parentheses.specs.Syntax.{full_syntax};

/// A syntax that a text can have is spelled with the tokens that it is written with when these parentheses are put in, and each
/// of these tokens can stand in a text.
#[tactic(auto, using(crate::proofs::Spells::spells_full, crate::proofs::Spells::full_spelt))]
pub fn parentheses_keep_the_syntax()
    ensures spells { (syntax : Syntax16) → IsTrue (is_spelt16 syntax) → Spells16 syntax (written (full_syntax syntax)) }
    ensures spelt { (syntax : Syntax16) → IsTrue (is_spelt16 syntax) → IsTrue (list_all is_spelt_seen (written (full_syntax syntax))) }
{}
