// P4_16 texts that are written a token at a time.
ghost use Rattle.std.specs.Prelude.{◌≡◌, ◌++◌, ◌∷◌, [], true, OnOk, IfOk, IsTrue};
ghost use Rattle.p416_syntax.specs.SpeltLexemes.{is_identifier16, is_spelt_literal16};
ghost use Rattle.p416_syntax.specs.Tokens.{string, number as number_token};
ghost use Rattle.p416_spelling.specs.Words.{word16};
ghost use Rattle.p416_sheet.specs.declared.sheet.Token16.TheVariants.{ShiftRight};
ghost use Rattle.p416_sheet.specs.Tokens.{words_put, is_put, all_words_put, are_put};

use crate::{P416, TextView};
use p4x_bits::{Octets, OutOfMemory};
use p416_spelling::number_text;
use p416_syntax::{Annotation16, Include16, Keyword16, Literal16, Mark16};
use p416_tok::TokenKind16;
use std::alloc::Global;
use token_sheet::{Gap, Sheet};

/// A P4_16 text that is written a token at a time.
pub type Sheet16 = Sheet<P416>;

/// A token that is put on a sheet, or two that touch.
#[derive(Drop)]
pub enum Token16<'t> {
    /// A name or a reserved word, by its text.
    Name(TextView<'t>),
    /// A reserved word.
    Word(Keyword16),
    /// A number.
    Number(Literal16),
    /// A mark.
    Mark(Mark16),
    /// A string, by what stands between its quotes.
    Quoted(TextView<'t>),
    /// The name of an annotation.
    At(Annotation16),
    /// An include line.
    Include(Include16),
    /// The two `>` of a shift.
    ShiftRight,
}

/// A token that is put on a sheet, and what stands in front of it.
#[derive(Drop)]
pub struct Put16<'t> {
    /// What stands in front of it.
    pub gap: Gap,
    /// The token.
    pub token: Token16<'t>,
}

/// Puts a token behind the others, or the two of a shift. The blanks in front of it are those that are asked for, and a blank
/// at least where it would else be one with the token before it, or where two `>` would touch that are no shift.
///
/// # Errors
/// It fails for want of memory alone.
pub fn put_token(
    alloc: Global,
    sheet: &mut Sheet16,
    gap: Gap,
    token: &Token16<'_>,
) -> Result<(), OutOfMemory>
    requires { IsTrue (is_put token.now) }
    ensures { OnOk result (sheet.new ≡ sheet.old ++ words_put token.now) }
{
    match token {
        Token16::Name(text) => sheet.put(gap, TokenKind16::Name, text.as_slice()),
        Token16::Word(word) => sheet.put(gap, TokenKind16::Name, word.text()),
        Token16::Number(number) => put_number(alloc, sheet, gap, *number),
        Token16::Mark(mark) => sheet.put(gap, TokenKind16::Mark(*mark), mark.text()),
        Token16::Quoted(text) => put_string(alloc, sheet, gap, text.as_slice()),
        Token16::At(name) => sheet.put(gap, TokenKind16::At(*name), name.text()),
        Token16::Include(line) => sheet.put(gap, TokenKind16::Include(*line), line.text()),
        Token16::ShiftRight => put_shift(sheet, gap),
    }
}

/// Puts tokens behind the others, one after another.
///
/// # Errors
/// It fails for want of memory alone.
pub fn put_tokens(
    alloc: Global,
    sheet: &mut Sheet16,
    tokens: &[Put16<'_>],
) -> Result<(), OutOfMemory>
    requires { IsTrue (are_put tokens.now) }
    ensures { OnOk result (sheet.new ≡ sheet.old ++ all_words_put tokens.now) }
{
    for put in tokens {
        put_token(alloc, sheet, put.gap, &put.token)?;
    }
    Ok(())
}

/// Puts the two `>` of a shift.
fn put_shift(sheet: &mut Sheet16, gap: Gap) -> Result<(), OutOfMemory>
    ensures { OnOk result (sheet.new ≡ sheet.old ++ words_put ShiftRight) }
{
    let greater = TokenKind16::Mark(Mark16::Greater);
    sheet.put_joined(gap, greater, b">", greater, b">")
}

/// Puts a number.
fn put_number(
    alloc: Global,
    sheet: &mut Sheet16,
    gap: Gap,
    number: Literal16,
) -> Result<(), OutOfMemory>
    requires { IsTrue (is_spelt_literal16 number) }
    ensures { OnOk result (sheet.new ≡ sheet.old ++ word16 (number_token number) ∷ []) }
{
    let text = number_text(alloc, number)?;
    sheet.put(gap, TokenKind16::Number(number), text.as_slice())
}

/// Puts a string by what stands between its quotes.
fn put_string(alloc: Global, sheet: &mut Sheet16, gap: Gap, text: &[u8]) -> Result<(), OutOfMemory>
    requires { IsTrue (is_identifier16 text.now) }
    ensures { OnOk result (sheet.new ≡ sheet.old ++ word16 (string text.now) ∷ []) }
{
    let mut octets = Octets::new(alloc);
    octets.push(b'"')?;
    octets.extend_from_slice(text)?;
    octets.push(b'"')?;
    sheet.put(gap, TokenKind16::Quoted, octets.as_slice())
}
