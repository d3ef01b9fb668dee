// The check of a program.
ghost use Rattle.std.specs.Prelude.{IsTrue};
ghost use Rattle.p416_syntax.specs.Spelt.{is_spelt16};
ghost use Rattle.p416_types.specs.Answers.{IsJudged};

use crate::fault::Check16;
use crate::judge::judge;
use p416_program::Program16;
use p416_syntax::Syntax16;
use std::alloc::Global;

/// The program of a syntax that some text spells and that breaks none of the rules T1 to T12 (P4_16 1.2, "Name resolution",
/// "P4 data types", "Expressions", "Statements", "Packet parsing", "Actions", "Tables"; `v1model.p4`; what is left out of them,
/// the limits and the numbers of the rules are this project's own).
///
/// A syntax that breaks some of them is refused with the least that it breaks, and without a place. The only other error is
/// want of memory.
pub fn check16(alloc: Global, syntax: Syntax16) -> Result<Program16, Check16>
    requires { IsTrue (is_spelt16 syntax) }
    ensures { IsJudged syntax result }
{
    match judge(alloc, &syntax) {
        Ok(()) => Ok(Program16::new(syntax)),
        Err(fault) => Err(fault),
    }
}
