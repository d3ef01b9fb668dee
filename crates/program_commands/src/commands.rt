// The commands.
ghost use Rattle.std.specs.Prelude.{◌≡◌, [], ◌∷◌, ℕ, List, Option, Some, IfOk, IfErr, OnOk};
ghost use Rattle.p414_body_check.specs.Answers.{IsAccepted};
ghost use Rattle.file_work.specs.Phases.{line_view};
ghost use Rattle.file_work.specs.Works.{Works, Tells};
ghost use Rattle.program_commands.specs.Commands.{CheckDue, OrderDue, EndsByFile};
ghost use Rattle.program_commands.specs.Lines.{accepted_line, PrintsAccepted, PrintsOrder};
ghost use Rattle.program_commands.specs.Programs.{IsProgramStop, ReadsOnce};

use crate::headers::{header_order, instance_lines};
use crate::program::read_program;
use file_work::Stop;
use p4x_bits::{Octets, OutOfMemory};
use p4x_io::Desk;
use p414_syntax::Syntax14;
use std::alloc::Global;

/// The line of a program that is taken.
fn accepted_line(alloc: Global) -> Result<Vec<u8>, OutOfMemory>
    ensures { IfOk result (λ line. line.items ≡ accepted_line) }
{
    let line = Octets::from_slice(alloc, b"accepted\n")?;
    Ok(line.into_vec())
}

/// The command `check`: the line that it prints of a program that is taken, or why it stops. It writes no file.
pub fn check<D: Desk>(alloc: Global, desk: &mut D, program: &str) -> Result<Vec<u8>, Stop>
    ensures works { Works (program.now ∷ []) [] (CheckDue program.now) (D.view desk.old) (D.view desk.new) (line_view result) }
    ensures by_file { (files : List ℕ → Option (List ℕ)) → Tells (program.now ∷ []) (D.view desk.old) files
        → EndsByFile PrintsAccepted program.now files (line_view result) }
    ensures once { OnOk (line_view result) ((text : List ℕ) → (D.view desk.old).told program.now ≡ Some (Some text) → ReadsOnce text) }
    ensures only { IfErr (line_view result) (λ e. IsProgramStop e) }
{
    let _taken = read_program(alloc, desk, program)?;
    let line = accepted_line(alloc)?;
    Ok(line)
}

/// The names of a program's headers in their order, one a line.
fn order_lines(alloc: Global, syntax: &Syntax14) -> Result<Vec<u8>, OutOfMemory>
    requires { IsAccepted syntax.now }
    ensures { IfOk result (λ lines. PrintsOrder syntax.now lines.items) }
{
    let order = header_order(alloc, syntax)?;
    let lines = instance_lines(alloc, syntax.decls.as_slice(), order.as_slice())?;
    Ok(lines.into_vec())
}

/// The command `order`: what it prints of a program that is taken, the names of its headers in the order in which they leave, or
/// why it stops. It writes no file.
pub fn order<D: Desk>(alloc: Global, desk: &mut D, program: &str) -> Result<Vec<u8>, Stop>
    ensures works { Works (program.now ∷ []) [] (OrderDue program.now) (D.view desk.old) (D.view desk.new) (line_view result) }
    ensures by_file { (files : List ℕ → Option (List ℕ)) → Tells (program.now ∷ []) (D.view desk.old) files
        → EndsByFile PrintsOrder program.now files (line_view result) }
    ensures once { OnOk (line_view result) ((text : List ℕ) → (D.view desk.old).told program.now ≡ Some (Some text) → ReadsOnce text) }
    ensures only { IfErr (line_view result) (λ e. IsProgramStop e) }
{
    let taken = read_program(alloc, desk, program)?;
    let lines = order_lines(alloc, taken.syntax())?;
    Ok(lines)
}
