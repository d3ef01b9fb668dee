// Declarations, and `main`.
ghost use Rattle.std.specs.Prelude.{◌≡◌, ◌++◌, OnOk, IsTrue, map};
ghost use Rattle.std.specs.List.{flat_map};
ghost use Rattle.p416_syntax.specs.Written.{written_decl, written_main};
ghost use Rattle.p416_parentheses.specs.Syntax.{full_decl};
ghost use Rattle.p416_spelling.specs.Words.{words16};
ghost use Rattle.p416_decl_writer.specs.Tokens.{are_spelt};

use crate::lists::{write_all, write_by_commas};
use crate::objects::write_object;
use crate::written::Written;
use p4x_bits::{OutOfMemory, Text};
use p416_sheet::{Gap, Put16, Sheet16, TextView, Token16, put_tokens};
use p416_syntax::{Decl16, Keyword16, Mark16};
use std::alloc::Global;

impl Written for Decl16 {
    ghost use Rattle.p416_syntax.specs.Written.{written_decl};
    ghost use Rattle.p416_parentheses.specs.Syntax.{full_decl};

    ghost plain = { written_decl };

    ghost full = { λ d. written_decl (full_decl d) };

    fn write(&self, alloc: Global, sheet: &mut Sheet16, gap: Gap) -> Result<(), OutOfMemory> {
        match self {
            Decl16::Header(header) => header.write(alloc, sheet, gap),
            Decl16::Struct(of) => of.write(alloc, sheet, gap),
            Decl16::Instance(notes, object) => {
                write_object(alloc, sheet, gap, notes.as_slice(), object)
            }
            Decl16::Parser(parser) => parser.write(alloc, sheet, gap),
            Decl16::Control(control) => control.write(alloc, sheet, gap),
        }
    }
}

/// Writes declarations behind what stands on the sheet, each behind a blank line, with parentheses around the parts of their
/// expressions (P4_16 1.2, "P4 grammar").
///
/// # Errors
/// It fails for want of memory alone.
#[tactic(auto, using(crate::proofs::Mapped::decls_written))]
pub fn write_declarations(
    alloc: Global,
    sheet: &mut Sheet16,
    declarations: &[Decl16],
) -> Result<(), OutOfMemory>
    requires { IsTrue (are_spelt (flat_map written_decl declarations.now)) }
    ensures { OnOk result (sheet.new ≡ sheet.old ++ words16 (flat_map written_decl (map full_decl declarations.now))) }
{
    write_all(
        alloc,
        sheet,
        Gap::Paragraph(0),
        Gap::Paragraph(0),
        declarations,
    )
}

impl Written for Text {
    ghost use Rattle.p416_syntax.specs.Written.{written_block_name};

    ghost plain = { written_block_name };

    ghost full = { written_block_name };

    fn write(&self, alloc: Global, sheet: &mut Sheet16, gap: Gap) -> Result<(), OutOfMemory> {
        put_tokens(
            alloc,
            sheet,
            &[
                name!(gap, self.as_slice()),
                mark!(Gap::Nothing, ParenOpen),
                mark!(Gap::Nothing, ParenClose),
            ],
        )
    }
}

/// Writes `V1Switch(NAME(), ..) main;` behind a blank line.
///
/// # Errors
/// It fails for want of memory alone.
pub fn write_main(alloc: Global, sheet: &mut Sheet16, names: &[Text]) -> Result<(), OutOfMemory>
    requires { IsTrue (are_spelt (written_main names.now)) }
    ensures { OnOk result (sheet.new ≡ sheet.old ++ words16 (written_main names.now)) }
{
    put_tokens(
        alloc,
        sheet,
        &[
            word!(Gap::Paragraph(0), V1Switch),
            mark!(Gap::Nothing, ParenOpen),
        ],
    )?;
    write_by_commas(alloc, sheet, names)?;
    put_tokens(
        alloc,
        sheet,
        &[
            mark!(Gap::Nothing, ParenClose),
            word!(Gap::Space, Main),
            mark!(Gap::Nothing, Semicolon),
        ],
    )
}
