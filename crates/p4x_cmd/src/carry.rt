// The command `carry`.
ghost use Rattle.std.specs.Prelude.{◌≡◌, ◌≢◌, ◌≤◌, ◌⊎◌, ◌∷◌, [], ℕ, List, true, Some, None, Option, IfOk, OnOk, OnErr, IfErr, MatchResult, All};
ghost use Rattle.state_store.specs.Ports.{IsPort};
ghost use Rattle.fabric.specs.Numbers.{IsBound};
ghost use Rattle.p4x_io.specs.Desk.{Rose, Moves, put};
ghost use Rattle.p414_one_table.specs.declared.program.OneTable14.{OneTable14};
ghost use Rattle.p4x_cmd.specs.Calls.{PacketsFit};
ghost use Rattle.p4x_cmd.specs.Carry.{ProgramIs, entries_stop, not_taken, StopsBefore, Begins, CarryDue, InOrder, KeepsInOrder};
ghost use Rattle.p414_one_table.specs.Programs.{is_one_table};
ghost use Rattle.program_commands.specs.Programs.{IsProgramStop, ReadsOnce};
ghost use Rattle.one_table_text.specs.Programs.{program16};
ghost use Rattle.p4x_cmd.specs.internal.Lowering.{lowered};
ghost use Rattle.p4x_cmd.specs.internal.Phases.{AnswersFile, IsTextOf};
ghost use Rattle.file_work.specs.Works.{Blames, ReadsRose, Tells, Works, IsPart};
ghost use Rattle.file_work.specs.Phases.{Loosely, line_view};
ghost use Rattle.p4x_cmd.specs.internal.Plain.{IsSized};
ghost use Rattle.command_words.specs.Words.{carry_inputs, carry_outputs};
ghost use Rattle.command_words.specs.Views.{files_of};

use crate::capture::run_capture;
use crate::lowering::lower;
use command_inputs::read_ports;
use command_words::CarryNames;
use file_work::Stop;
use one_table_text::{OneTable16, text_of};
use p4x_bits::{Numbers, Octets, OutOfMemory};
use p4x_fault::{Fault, Place, Rule};
use p4x_io::{Desk, Failed, append_all, has_octet};
use p414_one_table::{OneTable14, one_table_of};
use program_commands::read_program;
use std::alloc::Global;

/// Why entries aren't taken.
const NOT_TAKEN: Fault = Fault {
    rule: Rule::E(1),
    place: Some(Place { line: 1, column: 1 }),
};

// The written program with its text.
#[derive(Drop)]
struct Translation {
    program: OneTable16,
    text: Octets,
}

// What the work has before anything is written.
struct Beginning {
    program: OneTable16,
    text: Octets,
    ports: Numbers,
}

impl Drop for Beginning {
    fn drop(self) {
        let Beginning {
            program: _program,
            text: _text,
            ports: _ports,
        } = self;
    }
}

// The program of a file, where it is of the one-table form.
fn read_one_table<D: Desk>(alloc: Global, desk: &mut D, name: &str) -> Result<OneTable14, Stop>
    ensures moves { Moves [] (D.view desk.old) (D.view desk.new) }
    ensures gives { (file : Option (List ℕ)) → (D.view desk.old).told name.now ≡ Some file → AnswersFile file result }
    ensures once { OnOk result ((text : List ℕ) → (D.view desk.old).told name.now ≡ Some (Some text) → ReadsOnce text) }
    ensures form { IfOk result (λ p. is_one_table p ≡ true) }
    ensures only { IfErr result (λ e. (e ≡ Stop.Program) ⊎ IsProgramStop e) }
    ensures cause { Blames result (Rose ((D.view desk.old).reads name.now) ((D.view desk.new).reads name.now)) }
{
    let program = read_program(alloc, desk, name)?;
    match one_table_of(alloc, program.syntax()) {
        Ok(Some(program)) => Ok(program),
        Ok(None) => Err(Stop::Program),
        Err(OutOfMemory) => Err(Stop::Memory),
    }
}

// Only an empty entries file is taken.
fn check_entries<D: Desk>(desk: &mut D, name: &str) -> Result<(), Stop>
    ensures moves { Moves [] (D.view desk.old) (D.view desk.new) }
    ensures gives { (file : Option (List ℕ)) → (D.view desk.old).told name.now ≡ Some file
        → MatchResult result (λ u. entries_stop file ≡ None) (λ e. Loosely e (entries_stop file ≡ Some e)) }
    ensures only { IfErr result (λ e. (e ≡ Stop.Fault) ⊎ (e ≡ Stop.Unfit not_taken)) }
    ensures cause { Blames result (Rose ((D.view desk.old).reads name.now) ((D.view desk.new).reads name.now)) }
{
    match has_octet(desk, name, 0) {
        Ok(false) => Ok(()),
        Ok(true) => Err(Stop::Unfit(NOT_TAKEN)),
        Err(Failed) => Err(Stop::Fault),
    }
}

// The program that a program becomes, and its text.
fn translate(alloc: Global, program: &OneTable14) -> Result<Translation, OutOfMemory>
    requires { is_one_table program.now ≡ true }
    ensures program { IfOk result (λ w. w.program ≡ lowered program.now) }
    ensures text { IfOk result (λ w. IsTextOf w.text (program16 w.program)) }
    ensures sized { IfOk result (λ w. IsSized w.program) }
{
    let lowered = lower(alloc, program)?;
    let text = text_of(alloc, &lowered)?;
    Ok(Translation {
        program: lowered,
        text,
    })
}

// Reads and judges the program, the entries and the ports, and makes the text in memory.
fn prepare<D: Desk>(alloc: Global, desk: &mut D, names: &CarryNames<'_>) -> Result<Beginning, Stop>
    ensures moves { Moves [] (D.view desk.old) (D.view desk.new) }
    ensures stops { (files : List ℕ → Option (List ℕ)) → Tells (carry_inputs (files_of names.now)) (D.view desk.old) files
        → IfErr result (λ e. Loosely e (StopsBefore (files_of names.now) files e)) }
    ensures begins { (files : List ℕ → Option (List ℕ)) → Tells (carry_inputs (files_of names.now)) (D.view desk.old) files
        → IfOk result (λ w. (p : OneTable14) × Begins (files_of names.now) files p w.ports × (w.program ≡ lowered p)) }
    ensures order { InOrder (files_of names.now) (D.view desk.old) result }
    ensures once { OnOk result ((text : List ℕ) → (D.view desk.old).told names.now.program.now ≡ Some (Some text) → ReadsOnce text) }
    ensures text { IfOk result (λ w. IsTextOf w.text (program16 w.program)) }
    ensures sized { IfOk result (λ w. IsSized w.program) }
    ensures fits { IfOk result (λ w. All IsPort w.ports) }
    ensures cause { Blames result (ReadsRose (carry_inputs (files_of names.now)) (D.view desk.old) (D.view desk.new)) }
{
    let program = read_one_table(alloc, desk, names.program)?;
    check_entries(desk, names.entries)?;
    let ports = read_ports(alloc, desk, names.ports)?;
    let Translation { program, text } = translate(alloc, &program)?;
    Ok(Beginning {
        program,
        text,
        ports,
    })
}

// Makes the three files, and appends the text.
fn begin<D: Desk>(desk: &mut D, names: &CarryNames<'_>, text: &[u8]) -> Result<(), Stop>
    requires text_sent { names.now.text.now ≢ names.now.sent.now }
    requires text_report { names.now.text.now ≢ names.now.report.now }
    requires sent_report { names.now.sent.now ≢ names.now.report.now }
    ensures moves { Moves (names.now.text.now ∷ names.now.sent.now ∷ names.now.report.now ∷ []) (D.view desk.old) (D.view desk.new) }
    ensures text { OnOk result ((D.view desk.new).told names.now.text.now ≡ put ((D.view desk.old).told names.now.text.now) text.now) }
    ensures sent { OnOk result ((D.view desk.new).told names.now.sent.now ≡ put ((D.view desk.old).told names.now.sent.now) []) }
    ensures report { OnOk result ((D.view desk.new).told names.now.report.now ≡ put ((D.view desk.old).told names.now.report.now) []) }
    ensures part_text { OnErr result (IsPart ((D.view desk.old).told names.now.text.now) ((D.view desk.new).told names.now.text.now) (Some text.now)) }
    ensures part_sent { OnErr result (IsPart ((D.view desk.old).told names.now.sent.now) ((D.view desk.new).told names.now.sent.now) (Some [])) }
    ensures part_report { OnErr result (IsPart ((D.view desk.old).told names.now.report.now) ((D.view desk.new).told names.now.report.now) (Some [])) }
    ensures only { IfErr result (λ e. e ≡ Stop.Fault) }
    ensures cause { OnErr result (Rose ((D.view desk.old).writes names.now.text.now) ((D.view desk.new).writes names.now.text.now)
        ⊎ Rose ((D.view desk.old).writes names.now.sent.now) ((D.view desk.new).writes names.now.sent.now)
        ⊎ Rose ((D.view desk.old).writes names.now.report.now) ((D.view desk.new).writes names.now.report.now)) }
{
    desk.make(names.text)?;
    desk.make(names.sent)?;
    desk.make(names.report)?;
    append_all(desk, names.text, text)?;
    Ok(())
}

/// The command `carry`, with its parts one after another: the line that it prints, or why it stops.
pub(crate) fn carry<D: Desk>(
    alloc: Global,
    desk: &mut D,
    names: &CarryNames<'_>,
) -> Result<Vec<u8>, Stop>
    ensures works { Works (carry_inputs (files_of names.now)) (carry_outputs (files_of names.now)) (CarryDue (files_of names.now)) (D.view desk.old) (D.view desk.new) (line_view result) }
    ensures packets { PacketsFit (files_of names.now) (D.view desk.old) (line_view result) }
    ensures order { InOrder (files_of names.now) (D.view desk.old) (line_view result) }
    ensures kept { KeepsInOrder (files_of names.now) (D.view desk.old) (D.view desk.new) (line_view result) }
    ensures once { OnOk (line_view result) ((text : List ℕ) → (D.view desk.old).told names.now.program.now ≡ Some (Some text) → ReadsOnce text) }
    ensures bound { IsBound names.now.passes }
{
    let beginning = prepare(alloc, desk, names)?;
    begin(desk, names, beginning.text.as_slice())?;
    let ports = beginning.ports.as_slice();
    run_capture(alloc, desk, names, &beginning.program, ports)
}
