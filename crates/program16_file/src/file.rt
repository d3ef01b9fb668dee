// The program of a file.
ghost use Rattle.std.specs.Prelude.{◌≡◌, [], ℕ, List, Some, Option, IsTrue, IfErr, OnOk};
ghost use Rattle.p4x_io.specs.Desk.{Moves, Rose};
ghost use Rattle.p416_syntax.specs.Spelt.{is_spelt16};
ghost use Rattle.file_work.specs.Works.{Blames};
ghost use Rattle.program16_file.specs.Programs.{IsTextStop, ReadsOnce};
ghost use Rattle.program16_file.specs.Answers.{AnswersFile};
ghost use Rattle.program16_file.specs.internal.Judged.{AnswersSyntax, AnswersText};

use file_work::{Limited, Stop};
use p4x_io::{Desk, ReadFault, read_file};
use p416_reader::{ReadError, read16};
use p416_syntax::Syntax16;
use p416_types::{Check16, Program16, check16};
use std::alloc::Global;

/// The most octets of a text.
const TEXT_LIMIT: usize = 16777216;

// The program of a syntax.
fn judge(alloc: Global, syntax: Syntax16) -> Result<Program16, Stop>
    requires { IsTrue (is_spelt16 syntax) }
    ensures { AnswersSyntax syntax result }
{
    match check16(alloc, syntax) {
        Ok(program) => Ok(program),
        Err(Check16::Refused(fault)) => Err(Stop::Text(fault)),
        Err(Check16::Memory) => Err(Stop::Memory),
    }
}

// The program of a text.
fn program_of(alloc: Global, text: &[u8]) -> Result<Program16, Stop>
    ensures is { AnswersText text.now result }
    ensures once { OnOk result (ReadsOnce text.now) }
{
    match read16(alloc, text) {
        Ok(syntax) => judge(alloc, syntax),
        Err(ReadError::Refused(fault)) => Err(Stop::Text(fault)),
        Err(ReadError::Memory) => Err(Stop::Memory),
    }
}

/// The program of a file, which breaks no rule; or why there is none: the file is over its limit of 16,777,216 octets, its text is refused
/// with one of L1 to L4 or S1 and a place, or the program breaks one of T1 to T12, and the least of these is told. A fault of the desk or
/// want of memory may come in place of any.
pub fn read_program16<D: Desk>(alloc: Global, desk: &mut D, name: &str) -> Result<Program16, Stop>
    ensures moves { Moves [] (D.view desk.old) (D.view desk.new) }
    ensures gives { (file : Option (List ℕ)) → (D.view desk.old).told name.now ≡ Some file → AnswersFile file result }
    ensures once { OnOk result ((text : List ℕ) → (D.view desk.old).told name.now ≡ Some (Some text) → ReadsOnce text) }
    ensures only { IfErr result (λ e. IsTextStop e) }
    ensures cause { Blames result (Rose ((D.view desk.old).reads name.now) ((D.view desk.new).reads name.now)) }
{
    let text = match read_file(alloc, desk, name, TEXT_LIMIT) {
        Ok(text) => text,
        Err(ReadFault::Limit) => return Err(Stop::Limit(Limited::Text)),
        Err(ReadFault::Failed) => return Err(Stop::Fault),
        Err(ReadFault::Memory) => return Err(Stop::Memory),
    };
    program_of(alloc, &text)
}
