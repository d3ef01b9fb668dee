// The text of a program.
ghost use Rattle.std.specs.Prelude.{◌≡◌, IfOk, Ok};
ghost use Rattle.token_sheet.specs.Words.{IsDividedInto};
ghost use Rattle.p416_tok.specs.Front.{front};
ghost use Rattle.p416_syntax.specs.declared.program.Syntax16.{Syntax16};
ghost use Rattle.p416_syntax.specs.Written.{written};
ghost use Rattle.p416_parentheses.specs.Syntax.{full_syntax};
ghost use Rattle.p416_spelling.specs.Spelled.{meets16};
ghost use Rattle.p416_spelling.specs.Words.{words16};
ghost use Rattle.p416_reader.specs.Reading.{Reads16};
ghost use Rattle.text_reading.specs.Reading.{Answers};

use crate::write::write_syntax16;
use p4x_bits::{Octets, OutOfMemory};
use p416_program::Program16;
use p416_reader::read16;
use p416_syntax::Syntax16;
use std::alloc::Global;
use text_reading::ReadError;

/// The text of a program: that of its syntax, by `write_syntax16`. It reads as the syntax of the program (`reads`), and as no
/// other (`alone`).
///
/// Its time and its memory are proportional to the size of the program, at any depth.
///
/// # Errors
/// It fails for want of memory alone.
pub fn write16(alloc: Global, program: &Program16) -> Result<Octets, OutOfMemory>
    ensures divided { IfOk result (λ text. IsDividedInto front meets16 text (words16 (written (full_syntax program.now)))) }
    ensures reads { IfOk result (λ text. Reads16 text program.now) }
    ensures alone { IfOk result (λ text. (other : Syntax16) → Reads16 text other → other ≡ program.now) }
{
    write_syntax16(alloc, program.syntax())
}

/// What is read of the text of a program: the syntax of this program. So what `write16` writes is never refused.
///
/// # Errors
/// It fails for want of memory alone.
pub fn read_back(alloc: Global, program: &Program16) -> Result<Syntax16, ReadError>
    ensures { Answers result (Ok program.now) }
{
    let text = write16(alloc, program)?;
    read16(alloc, text.as_slice())
}
