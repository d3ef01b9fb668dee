// Annotations and numbers.
ghost use Rattle.std.specs.Prelude.{◌≡◌, ◌++◌, OnOk, IsTrue};
ghost use Rattle.p416_syntax.specs.Written.{written_notes};
ghost use Rattle.p416_spelling.specs.Words.{words16};
ghost use Rattle.p416_sheet.specs.declared.sheet.Token16.TheVariants.{At};
ghost use Rattle.p416_decl_writer.specs.Tokens.{are_spelt};

use crate::gaps::on_next_line;
use crate::lists::{write_all, write_by_commas};
use crate::written::Written;
use p4x_bits::OutOfMemory;
use p416_sheet::{Gap, Put16, Sheet16, TextView, Token16, put_token, put_tokens};
use p416_syntax::{Annotation16, Literal16, Mark16, Note};
use std::alloc::Global;

impl Written for Literal16 {
    ghost use Rattle.p416_syntax.specs.Written.{written_number};

    ghost plain = { written_number };

    ghost full = { written_number };

    fn write(&self, alloc: Global, sheet: &mut Sheet16, gap: Gap) -> Result<(), OutOfMemory> {
        put_token(alloc, sheet, gap, &Token16::Number(*self))
    }
}

impl Written for Note {
    ghost use Rattle.p416_syntax.specs.Written.{written_note};

    ghost plain = { written_note };

    ghost full = { written_note };

    fn write(&self, alloc: Global, sheet: &mut Sheet16, gap: Gap) -> Result<(), OutOfMemory> {
        match self {
            Note::Name(text) => put_tokens(
                alloc,
                sheet,
                &[
                    annotation(gap, Annotation16::Name),
                    mark!(Gap::Nothing, ParenOpen),
                    Put16 {
                        gap: Gap::Nothing,
                        token: Token16::Quoted(TextView::new(text.as_slice())),
                    },
                    mark!(Gap::Nothing, ParenClose),
                ],
            ),
            Note::FieldList(lists) => {
                put_tokens(
                    alloc,
                    sheet,
                    &[
                        annotation(gap, Annotation16::FieldList),
                        mark!(Gap::Nothing, ParenOpen),
                    ],
                )?;
                write_by_commas(alloc, sheet, lists.as_slice())?;
                put_tokens(alloc, sheet, &[mark!(Gap::Nothing, ParenClose)])
            }
        }
    }
}

/// Writes the annotations of a declaration or a field, and tells what stands in front of the rest of it: where there are
/// annotations, it stands on the next line.
pub fn write_notes(
    alloc: Global,
    sheet: &mut Sheet16,
    gap: Gap,
    notes: &[Note],
) -> Result<Gap, OutOfMemory>
    requires { IsTrue (are_spelt (written_notes notes.now)) }
    ensures { OnOk result (sheet.new ≡ sheet.old ++ words16 (written_notes notes.now)) }
{
    write_all(alloc, sheet, gap, on_next_line(gap), notes)?;
    Ok(behind(gap, notes))
}

/// What stands in front of what has these annotations.
fn behind(gap: Gap, notes: &[Note]) -> Gap {
    if notes.is_empty() {
        gap
    } else {
        on_next_line(gap)
    }
}

fn annotation(gap: Gap, name: Annotation16) -> Put16<'static>
    ensures { result ≡ record { gap = gap; token = At name } }
{
    Put16 {
        gap,
        token: Token16::At(name),
    }
}
