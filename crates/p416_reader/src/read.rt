// The reading of a text.
ghost use Rattle.std.specs.Prelude.{◌≡◌, Ok, Err, IfOk, IsTrue};
ghost use Rattle.p4x_fault.specs.declared.Fault.{Fault};
ghost use Rattle.p416_syntax.specs.declared.program.Syntax16.{Syntax16};
ghost use Rattle.p416_syntax.specs.Spelt.{is_spelt16};
ghost use Rattle.predictive_parser.specs.Grammar.{parse};
ghost use Rattle.text_reading.specs.Reading.{IfRefused, Answers};
ghost use Rattle.text_reading.specs.internal.Machine.{IsParsed};
ghost use Rattle.p416_reader.specs.Reading.{Reads16, IsRefused16};
ghost use Rattle.p416_reader.specs.Seen.{seen16};
ghost use Rattle.p416_reader.specs.declared.symbols.Word.TheVariants as word;
ghost use Rattle.p416_reader.specs.declared.symbols.DeclWord.TheVariants as decl_word;
ghost use Rattle.p416_reader.specs.internal.Built.{nothing};
ghost use Rattle.p416_reader.specs.internal.Rows.{grammar16};
ghost use Rattle.p416_reader.specs.internal.Machine.{HoldsProgram, IsRead16};

use crate::built::Built;
use crate::reading::Reading;
use crate::seen::SeenTokens;
use crate::symbols::{DeclWord, Word};
use p416_syntax::Syntax16;
use p416_tok::{Token16, tokens16};
use std::alloc::Global;
use text_reading::{ReadError, parse_text};

/// The syntax of a P4_16 text (P4_16 1.2, "P4 grammar"; the rules and their places are this project's own).
///
/// What is given is a syntax that a text can have: it keeps to the grammar, each of its names is an identifier and not
/// reserved, and each of its numbers fits (`is_spelt16` of p416_syntax).
///
/// A text that can't be divided into tokens is refused with the L rule that it breaks and the place of what breaks it.
/// A text whose tokens aren't those of a program is refused with S1, and the place of the first token that can't stand
/// where it stands, or the place behind the text where it ends too early. The only other error is want of memory.
///
/// The text is gone over once, in time that grows hardly faster than its length, at any depth of parentheses and blocks.
#[tactic(auto, using(crate::proofs::Clauses::found16, crate::proofs::Clauses::accepts16, crate::proofs::Clauses::refused16, crate::proofs::Clauses::refuses16, crate::proofs::Spelt::spelt_answer))]
pub fn read16(alloc: Global, text: &[u8]) -> Result<Syntax16, ReadError>
    ensures found { IfOk result (Reads16 text.now) }
    ensures accepts { (syntax : Syntax16) → Reads16 text.now syntax → Answers result (Ok syntax) }
    ensures refused { IfRefused result (IsRefused16 text.now) }
    ensures refuses { (fault : Fault) → IsRefused16 text.now fault → Answers result (Err fault) }
    ensures spelt { IfOk result (λ syntax. IsTrue (is_spelt16 syntax)) }
    ensures one_syntax { (syntax other : Syntax16) → Reads16 text.now syntax → Reads16 text.now other → syntax ≡ other }
{
    read_text(alloc, text)
}

/// The same, by what the machine of the rows answers.
fn read_text(alloc: Global, text: &[u8]) -> Result<Syntax16, ReadError>
    ensures { IsRead16 text.now result }
{
    let tokens = tokens16(alloc, text)?;
    parse_tokens(alloc, text, tokens.as_slice())
}

/// The syntax of the tokens of a text, all of them, or the fault at the first that can't stand where it stands.
fn parse_tokens(alloc: Global, text: &[u8], tokens: &[Token16]) -> Result<Syntax16, ReadError>
    ensures { IsParsed text.now tokens.now (parse grammar16 (word.Decl decl_word.Program) nothing (seen16 text.now tokens.now)) result HoldsProgram }
{
    let mut reading = Reading {
        alloc,
        seen: SeenTokens::new(text, tokens),
        built: Built::new(alloc),
    };
    let syntax = parse_program(alloc, &mut reading, text, tokens);
    reading.built.let_go();
    syntax
}

/// The same, where nothing is built yet.
fn parse_program(
    alloc: Global,
    reading: &mut Reading<'_>,
    text: &[u8],
    tokens: &[Token16],
) -> Result<Syntax16, ReadError>
    requires { reading.old.built ≡ nothing }
    ensures { IsParsed text.now tokens.now (parse grammar16 (word.Decl decl_word.Program) nothing reading.old.seen) result HoldsProgram }
{
    parse_text(alloc, reading, Word::Decl(DeclWord::Program), text, tokens)?;
    let decls = reading.built.take_decls(alloc);
    let main = reading.built.take_main(alloc);
    Ok(Syntax16 { decls, main })
}
