// The reading of a text.
ghost use Rattle.std.specs.Prelude.{◌≡◌, Ok, Err, IfOk, IsTrue};
ghost use Rattle.p4x_fault.specs.declared.Fault.{Fault};
ghost use Rattle.p414_syntax.specs.declared.syntax.Syntax14.{Syntax14};
ghost use Rattle.p414_syntax.specs.Spelt.{is_spelt14};
ghost use Rattle.p414_tok.specs.Lexemes.{lexemes};
ghost use Rattle.predictive_parser.specs.Grammar.{parse};
ghost use Rattle.text_reading.specs.Reading.{IfRefused, Answers};
ghost use Rattle.text_reading.specs.internal.Machine.{IsParsed};
ghost use Rattle.p414_reader.specs.declared.symbols.Word.TheVariants as word;
ghost use Rattle.p414_reader.specs.internal.Built.{nothing};
ghost use Rattle.p414_reader.specs.internal.Rows.{grammar14};
ghost use Rattle.p414_reader.specs.Reading.{Reads14, IsRefused14};
ghost use Rattle.p414_reader.specs.internal.Machine.{HoldsDecls, IsRead14};

use crate::built::Built;
use crate::reading::Reading;
use crate::symbols::Word;
use p414_syntax::Syntax14;
use p414_tok::{Token14, tokens};
use std::alloc::Global;
use text_reading::{ReadError, parse_text};

/// The syntax of a P4_14 text (P4_14 1.0.5, "Value Specifications" for its numbers, "Summary of P4 BNF" for its names,
/// marks and grammar; the rules and their places are this project's own).
///
/// What is given is a syntax that a text can have: it keeps to the grammar, each of its names is an identifier, and each
/// of its numbers fits (`is_spelt14` of p414_syntax).
///
/// A text that can't be divided into tokens is refused with the L rule that it breaks and the place of what breaks it.
/// A text whose tokens aren't those of a program is refused with S1, and the place of the first token that can't stand
/// where it stands, or the place behind the text where it ends too early. The only other error is want of memory.
///
/// The text is gone over once, in time that grows hardly faster than its length, at any depth of parentheses and blocks.
#[tactic(auto, using(crate::proofs::Clauses::found14, crate::proofs::Clauses::accepts14, crate::proofs::Clauses::refused14, crate::proofs::Clauses::refuses14, crate::proofs::Clauses::one14, crate::proofs::Spelt::spelt_answer))]
pub fn read14(alloc: Global, text: &[u8]) -> Result<Syntax14, ReadError>
    ensures found { IfOk result (Reads14 text.now) }
    ensures accepts { (syntax : Syntax14) → Reads14 text.now syntax → Answers result (Ok syntax) }
    ensures refused { IfRefused result (IsRefused14 text.now) }
    ensures refuses { (fault : Fault) → IsRefused14 text.now fault → Answers result (Err fault) }
    ensures spelt { IfOk result (λ syntax. IsTrue (is_spelt14 syntax)) }
    ensures one_syntax { (syntax other : Syntax14) → Reads14 text.now syntax → Reads14 text.now other → syntax ≡ other }
{
    read_text(alloc, text)
}

/// The same, by what the machine of the rows answers.
fn read_text(alloc: Global, text: &[u8]) -> Result<Syntax14, ReadError>
    ensures { IsRead14 text.now result }
{
    let tokens = tokens(alloc, text)?;
    parse_tokens(alloc, text, tokens.as_slice())
}

/// The syntax of the tokens of a text, all of them, or the fault at the first that can't stand where it stands.
fn parse_tokens(alloc: Global, text: &[u8], tokens: &[Token14]) -> Result<Syntax14, ReadError>
    ensures { IsParsed text.now tokens.now (parse grammar14 word.Decls nothing (lexemes text.now tokens.now)) result HoldsDecls }
{
    let mut reading = Reading {
        alloc,
        text,
        tokens,
        built: Built::new(alloc),
    };
    let syntax = parse_decls(alloc, &mut reading, text, tokens);
    reading.built.let_go();
    syntax
}

/// The same, where nothing is built yet.
fn parse_decls(
    alloc: Global,
    reading: &mut Reading<'_>,
    text: &[u8],
    tokens: &[Token14],
) -> Result<Syntax14, ReadError>
    requires { reading.old.built ≡ nothing }
    ensures { IsParsed text.now tokens.now (parse grammar14 word.Decls nothing (lexemes reading.old.text.now reading.old.tokens.now)) result HoldsDecls }
{
    parse_text(alloc, reading, Word::Decls, text, tokens)?;
    Ok(Syntax14 {
        decls: reading.built.take_decls(alloc),
    })
}
