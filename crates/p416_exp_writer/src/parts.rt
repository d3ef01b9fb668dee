// Types and other parts of expressions.
ghost use Rattle.std.specs.Prelude.{◌≡◌, ◌++◌, ◌∷◌, [], OnOk, IsTrue};
ghost use Rattle.p416_syntax.specs.SpeltLexemes.{is_identifier16, is_spelt_literal16};
ghost use Rattle.token_sheet.specs.declared.blanks.Gap.TheVariants.{Nothing};
ghost use Rattle.p416_sheet.specs.declared.sheet.Token16.TheVariants.{Mark, Word, Number};
ghost use Rattle.p416_syntax.specs.declared.parts.Type16.TheVariants.{Named};
ghost use Rattle.p416_sheet.specs.Tokens.{words_put, is_put};
ghost use Rattle.p416_syntax.specs.Written.{written_size, written_type, written_cast};
ghost use Rattle.p416_syntax.specs.Tokens.{id, opens, seen_word, lookahead_text, dot, greater, paren_open, in_parens};
ghost use Rattle.p416_spelling.specs.Words.{words16};
ghost use Rattle.p416_exp_writer.specs.Spelt.{is_spelt_type, is_spelt_cast};
ghost use Rattle.p416_exp_writer.specs.Layouts.{said_part, is_part_spelt};

use crate::work::Part;
use p4x_bits::OutOfMemory;
use p416_sheet::{Gap, Put16, Sheet16, TextView, Token16, put_token, put_tokens};
use p416_syntax::{CastType, Keyword16, Literal16, Mark16, Type16};
use std::alloc::Global;

const LOOKAHEAD: &[u8] = b"lookahead";

fn mark(gap: Gap, mark: Mark16) -> Put16<'static>
    ensures { result ≡ record { gap = gap; token = Mark mark } }
{
    Put16 {
        gap,
        token: Token16::Mark(mark),
    }
}

fn word(gap: Gap, word: Keyword16) -> Put16<'static>
    ensures { result ≡ record { gap = gap; token = Word word } }
{
    Put16 {
        gap,
        token: Token16::Word(word),
    }
}

fn number(number: Literal16) -> Put16<'static>
    ensures { result ≡ record { gap = Nothing; token = Number number } }
{
    Put16 {
        gap: Gap::Nothing,
        token: Token16::Number(number),
    }
}

/// Writes a type behind what stands on the sheet (P4_16 1.2, "Types").
///
/// # Errors
/// It fails for want of memory alone.
pub fn write_type(
    alloc: Global,
    sheet: &mut Sheet16,
    gap: Gap,
    of: &Type16,
) -> Result<(), OutOfMemory>
    requires { IsTrue (is_spelt_type of.now) }
    ensures { OnOk result (sheet.new ≡ sheet.old ++ words16 (written_type of.now)) }
{
    match of {
        Type16::Bit(width) => put_tokens(
            alloc,
            sheet,
            &[
                word(gap, Keyword16::Bit),
                mark(Gap::Nothing, Mark16::Less),
                number(*width),
                mark(Gap::Nothing, Mark16::Greater),
            ],
        ),
        Type16::Bool => put_token(alloc, sheet, gap, &Token16::Word(Keyword16::Bool)),
        Type16::Named(name, size) => {
            let name = TextView::new(name.as_slice());
            write_named(alloc, sheet, gap, &name, *size)
        }
    }
}

/// Writes a type by its name, `NAME` or `NAME[SIZE]` (P4_16 1.2, "Header stacks").
#[tactic(auto, using(crate::proofs::Named::named_by_identifier))]
fn write_named(
    alloc: Global,
    sheet: &mut Sheet16,
    gap: Gap,
    name: &TextView<'_>,
    size: Option<Literal16>,
) -> Result<(), OutOfMemory>
    requires { IsTrue (is_spelt_type (Named name.now size)) }
    ensures { OnOk result (sheet.new ≡ sheet.old ++ words16 (written_type (Named name.now size))) }
{
    let token = Token16::Name(TextView::new(name.as_slice()));
    match size {
        None => put_token(alloc, sheet, gap, &token),
        Some(size) => write_sized(alloc, sheet, Put16 { gap, token }, size),
    }
}

/// Writes a name and `[SIZE]`.
fn write_sized(
    alloc: Global,
    sheet: &mut Sheet16,
    name: Put16<'_>,
    size: Literal16,
) -> Result<(), OutOfMemory>
    requires name { IsTrue (is_put name.token) }
    requires size { IsTrue (is_spelt_literal16 size) }
    ensures { OnOk result (sheet.new ≡ sheet.old ++ (words_put name.entry.token ++ words16 (written_size size))) }
{
    put_tokens(
        alloc,
        sheet,
        &[
            name,
            mark(Gap::Nothing, Mark16::BracketOpen),
            number(size),
            mark(Gap::Nothing, Mark16::BracketClose),
        ],
    )
}

/// Writes a type to which an expression is cast, in parentheses (P4_16 1.2, "Casts").
fn write_cast(alloc: Global, sheet: &mut Sheet16, gap: Gap, to: CastType) -> Result<(), OutOfMemory>
    requires { IsTrue (is_spelt_cast to) }
    ensures { OnOk result (sheet.new ≡ sheet.old ++ words16 (in_parens (written_cast to))) }
{
    match to {
        CastType::Bit(width) => put_tokens(
            alloc,
            sheet,
            &[
                mark(gap, Mark16::ParenOpen),
                word(Gap::Nothing, Keyword16::Bit),
                mark(Gap::Nothing, Mark16::Less),
                number(width),
                mark(Gap::Nothing, Mark16::Greater),
                mark(Gap::Nothing, Mark16::ParenClose),
            ],
        ),
        CastType::Bool => put_tokens(
            alloc,
            sheet,
            &[
                mark(gap, Mark16::ParenOpen),
                word(Gap::Nothing, Keyword16::Bool),
                mark(Gap::Nothing, Mark16::ParenClose),
            ],
        ),
    }
}

/// Writes `.lookahead<TYPE>(` (P4_16 1.2, "Packet lookahead").
#[tactic(auto, using(crate::proofs::Lookahead::lookahead_said))]
fn write_lookahead(alloc: Global, sheet: &mut Sheet16, of: &Type16) -> Result<(), OutOfMemory>
    requires { IsTrue (is_spelt_type of.now) }
    ensures { OnOk result (sheet.new ≡ sheet.old ++ words16 (dot ∷ id lookahead_text ∷ opens ∷ (written_type of.now ++ greater ∷ paren_open ∷ []))) }
{
    open_lookahead(alloc, sheet)?;
    write_type(alloc, sheet, Gap::Nothing, of)?;
    close_lookahead(alloc, sheet)
}

/// Writes `.lookahead<`.
fn open_lookahead(alloc: Global, sheet: &mut Sheet16) -> Result<(), OutOfMemory>
    ensures { OnOk result (sheet.new ≡ sheet.old ++ words16 (dot ∷ id lookahead_text ∷ opens ∷ [])) }
{
    let token = Token16::Name(TextView::new(LOOKAHEAD));
    put_tokens(
        alloc,
        sheet,
        &[
            mark(Gap::Nothing, Mark16::Dot),
            Put16 {
                gap: Gap::Nothing,
                token,
            },
            mark(Gap::Nothing, Mark16::Less),
        ],
    )
}

/// Writes `>(`.
fn close_lookahead(alloc: Global, sheet: &mut Sheet16) -> Result<(), OutOfMemory>
    ensures { OnOk result (sheet.new ≡ sheet.old ++ words16 (greater ∷ paren_open ∷ [])) }
{
    put_tokens(
        alloc,
        sheet,
        &[
            mark(Gap::Nothing, Mark16::Greater),
            mark(Gap::Nothing, Mark16::ParenOpen),
        ],
    )
}

/// Writes `.word` (P4_16 1.2, "Expressions").
#[tactic(auto, using(p416_spelling::proofs::Keywords::member_words))]
fn write_member(alloc: Global, sheet: &mut Sheet16, word: &TextView<'_>) -> Result<(), OutOfMemory>
    requires { IsTrue (is_identifier16 word.now) }
    ensures { OnOk result (sheet.new ≡ sheet.old ++ words16 (dot ∷ seen_word word.now ∷ [])) }
{
    let token = Token16::Name(TextView::new(word.as_slice()));
    put_tokens(
        alloc,
        sheet,
        &[
            mark(Gap::Nothing, Mark16::Dot),
            Put16 {
                gap: Gap::Nothing,
                token,
            },
        ],
    )
}

/// Writes a part of an expression.
pub fn write_part(alloc: Global, sheet: &mut Sheet16, part: &Part<'_>) -> Result<(), OutOfMemory>
    requires { IsTrue (is_part_spelt part.now) }
    ensures { OnOk result (sheet.new ≡ sheet.old ++ said_part part.now) }
{
    match part {
        Part::Put(gap, token) => put_token(alloc, sheet, *gap, token),
        Part::Member(word) => write_member(alloc, sheet, word),
        Part::Index(at) => put_tokens(
            alloc,
            sheet,
            &[
                mark(Gap::Nothing, Mark16::BracketOpen),
                number(*at),
                mark(Gap::Nothing, Mark16::BracketClose),
            ],
        ),
        Part::Slice(high, low) => put_tokens(
            alloc,
            sheet,
            &[
                mark(Gap::Nothing, Mark16::BracketOpen),
                number(*high),
                mark(Gap::Nothing, Mark16::Colon),
                number(*low),
                mark(Gap::Nothing, Mark16::BracketClose),
            ],
        ),
        Part::Lookahead(of) => write_lookahead(alloc, sheet, of),
        Part::Cast(gap, to) => write_cast(alloc, sheet, *gap, *to),
    }
}
