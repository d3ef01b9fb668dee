// The program of a file.
ghost use Rattle.std.specs.Prelude.{◌≡◌, [], ℕ, List, Some, Option, IfErr, OnOk};
ghost use Rattle.p4x_io.specs.Desk.{Moves, Rose};
ghost use Rattle.file_work.specs.Works.{Blames};
ghost use Rattle.program_commands.specs.Programs.{IsProgramStop, ReadsOnce};
ghost use Rattle.program_commands.specs.Answers.{AnswersFile};
ghost use Rattle.program_commands.specs.internal.Judged.{AnswersSyntax, AnswersText};

use file_work::{Limited, Stop};
use p4x_io::{Desk, ReadFault, read_file};
use p414_body_check::{Check14, Program14, check14};
use p414_reader::{ReadError, read14};
use p414_syntax::Syntax14;
use std::alloc::Global;

/// The most octets of a program.
const PROGRAM_LIMIT: usize = 1048576;

// The program of a syntax.
fn judge(alloc: Global, syntax: Syntax14) -> Result<Program14, Stop>
    ensures { AnswersSyntax syntax result }
{
    match check14(alloc, syntax) {
        Ok(program) => Ok(program),
        Err(Check14::Refused(fault)) => Err(Stop::Judged(fault)),
        Err(Check14::Memory) => Err(Stop::Memory),
    }
}

// The program of a text.
fn program_of(alloc: Global, text: &[u8]) -> Result<Program14, Stop>
    ensures is { AnswersText text.now result }
    ensures once { OnOk result (ReadsOnce text.now) }
{
    match read14(alloc, text) {
        Ok(syntax) => judge(alloc, syntax),
        Err(ReadError::Refused(fault)) => Err(Stop::Judged(fault)),
        Err(ReadError::Memory) => Err(Stop::Memory),
    }
}

/// The program of a file, which breaks no rule; or why there is none: the file is over its limit of 1,048,576 octets, its text is refused
/// with one of L1 to L4 or S1 and a place, or the program breaks one of C1 to C28, and the least of these is told. A fault of the desk or
/// want of memory may come in place of any.
pub fn read_program<D: Desk>(alloc: Global, desk: &mut D, name: &str) -> Result<Program14, Stop>
    ensures moves { Moves [] (D.view desk.old) (D.view desk.new) }
    ensures gives { (file : Option (List ℕ)) → (D.view desk.old).told name.now ≡ Some file → AnswersFile file result }
    ensures once { OnOk result ((text : List ℕ) → (D.view desk.old).told name.now ≡ Some (Some text) → ReadsOnce text) }
    ensures only { IfErr result (λ e. IsProgramStop e) }
    ensures cause { Blames result (Rose ((D.view desk.old).reads name.now) ((D.view desk.new).reads name.now)) }
{
    let text = match read_file(alloc, desk, name, PROGRAM_LIMIT) {
        Ok(text) => text,
        Err(ReadFault::Limit) => return Err(Stop::Limit(Limited::Program)),
        Err(ReadFault::Failed) => return Err(Stop::Fault),
        Err(ReadFault::Memory) => return Err(Stop::Memory),
    };
    program_of(alloc, &text)
}
