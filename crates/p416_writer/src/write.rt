// The text of a syntax.
ghost use Rattle.std.specs.Prelude.{◌≡◌, ◌++◌, IfOk, OnOk, IsTrue};
ghost use Rattle.std.specs.List.{list_all};
ghost use Rattle.token_sheet.specs.Words.{IsDividedInto};
ghost use Rattle.p416_tok.specs.Front.{front};
ghost use Rattle.p416_syntax.specs.declared.program.Syntax16.{Syntax16};
ghost use Rattle.p416_syntax.specs.Tokens.{is_spelt_seen};
ghost use Rattle.p416_syntax.specs.Written.{written};
ghost use Rattle.p416_syntax.specs.Spelt.{is_spelt16};
ghost use Rattle.p416_parentheses.specs.Syntax.{full_syntax};
ghost use Rattle.p416_spelling.specs.Spelled.{meets16};
ghost use Rattle.p416_spelling.specs.Words.{words16};
ghost use Rattle.p416_sheet.specs.declared.sheet.Token16.TheVariants.{Include};
ghost use Rattle.p416_reader.specs.Reading.{Reads16};

use p4x_bits::{Octets, OutOfMemory};
use p416_decl_writer::{write_declarations, write_main};
use p416_sheet::{Gap, Put16, Sheet16, Token16, put_tokens};
use p416_syntax::{Include16, Syntax16};
use std::alloc::Global;

/// A text of a syntax that a text can have (P4_16 1.2, "P4 grammar"; where blanks and parentheses stand is this project's own).
///
/// Its tokens are those of the syntax with parentheses around the parts of expressions, around each operator between two
/// operands among them (`divided`). It reads as this syntax (`reads`), and as no other (`alone`). Each declaration, field,
/// statement, property and state begins a line, four blanks in for each level, up to 32 levels. A blank line stands between
/// declarations and between states, and in front of actions, tables and `apply` that follow something.
///
/// Its time and its memory are proportional to the size of the syntax, at any depth.
///
/// # Errors
/// It fails for want of memory alone.
#[tactic(auto, using(crate::proofs::Spelt::all_spelt))]
pub fn write_syntax16(alloc: Global, syntax: &Syntax16) -> Result<Octets, OutOfMemory>
    requires { IsTrue (is_spelt16 syntax.now) }
    ensures divided { IfOk result (λ text. IsDividedInto front meets16 text (words16 (written (full_syntax syntax.now)))) }
    ensures reads { IfOk result (λ text. Reads16 text syntax.now) }
    ensures alone { IfOk result (λ text. (other : Syntax16) → Reads16 text other → other ≡ syntax.now) }
{
    let text = written_text(alloc, syntax)?;
    Ok(text)
}

/// The same, as far as its tokens go.
fn written_text(alloc: Global, syntax: &Syntax16) -> Result<Octets, OutOfMemory>
    requires { IsTrue (list_all is_spelt_seen (written syntax.now)) }
    ensures { IfOk result (λ text. IsDividedInto front meets16 text (words16 (written (full_syntax syntax.now)))) }
{
    let mut sheet = Sheet16::new(alloc);
    put_syntax(alloc, &mut sheet, syntax)?;
    sheet.finish()
}

/// Puts the include lines, the declarations and `main` on a sheet.
#[tactic(auto, using(crate::proofs::Spelt::decls_spelt, crate::proofs::Spelt::main_spelt))]
fn put_syntax(alloc: Global, sheet: &mut Sheet16, syntax: &Syntax16) -> Result<(), OutOfMemory>
    requires { IsTrue (list_all is_spelt_seen (written syntax.now)) }
    ensures { OnOk result (sheet.new ≡ sheet.old ++ words16 (written (full_syntax syntax.now))) }
{
    put_tokens(
        alloc,
        sheet,
        &[
            include(Gap::Nothing, Include16::Core),
            include(Gap::Line(0), Include16::V1Model),
        ],
    )?;
    write_declarations(alloc, sheet, syntax.decls.as_slice())?;
    write_main(alloc, sheet, syntax.main.as_slice())
}

fn include(gap: Gap, line: Include16) -> Put16<'static>
    ensures { result ≡ record { gap = gap; token = Include line } }
{
    Put16 {
        gap,
        token: Token16::Include(line),
    }
}
