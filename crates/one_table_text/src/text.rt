// A program of the form as a program of P4_16, and its text.
ghost use Rattle.std.specs.Prelude.{◌≡◌, true, IfOk};
ghost use Rattle.p416_syntax.specs.declared.program.Syntax16.{Syntax16};
ghost use Rattle.p416_reader.specs.Reading.{Reads16};
ghost use Rattle.one_table_text.specs.Programs.{is_one_table16, program16};
ghost use Rattle.one_table_text.specs.Lawful.{is_lawful};

use crate::build::syntax_of;
use crate::one_table::OneTable16;
use p4x_bits::{Octets, OutOfMemory};
use p416_program::Program16;
use p416_writer::write16;
use std::alloc::Global;

/// The program: its syntax is one that some text spells, and breaks none of the rules T1 to T12. No rule is asked. It takes
/// time and memory in proportion to the number of its fields.
///
/// # Errors
/// It fails for want of memory alone.
pub fn program_of(alloc: Global, program: &OneTable16) -> Result<Program16, OutOfMemory>
    requires form { is_one_table16 program.now ≡ true }
    requires lawful { is_lawful program.now ≡ true }
    ensures { IfOk result (λ p. p ≡ program16 program.now) }
{
    let syntax = syntax_of(alloc, program)?;
    Ok(Program16::new(syntax))
}

/// The text of a program, which reads as its syntax (`reads`), and as no other (`alone`). It takes time and memory in
/// proportion to the number of its fields.
///
/// # Errors
/// It fails for want of memory alone.
pub fn text_of(alloc: Global, program: &OneTable16) -> Result<Octets, OutOfMemory>
    requires form { is_one_table16 program.now ≡ true }
    requires lawful { is_lawful program.now ≡ true }
    ensures reads { IfOk result (λ text. Reads16 text (program16 program.now)) }
    ensures alone { IfOk result (λ text. (other : Syntax16) → Reads16 text other → other ≡ program16 program.now) }
{
    let program = program_of(alloc, program)?;
    let text = write16(alloc, &program)?;
    Ok(text)
}
