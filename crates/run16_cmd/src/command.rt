// The command `run16`.
ghost use Rattle.std.specs.Prelude.{◌≡◌, ◌≢◌, ◌⊎◌, ◌∷◌, [], ℕ, List, Some, Option, Ok, IfOk, OnOk, OnErr, IfErr, All};
ghost use Rattle.state_store.specs.Ports.{IsPort};
ghost use Rattle.fabric.specs.Numbers.{IsBound};
ghost use Rattle.match_core.specs.Fits.{Fits};
ghost use Rattle.match_core.specs.Signatures.{IsSignature};
ghost use Rattle.p4x_io.specs.Desk.{Rose, Moves, put};
ghost use Rattle.pcap_io.specs.Captures.{reading_of, IsRecord};
ghost use Rattle.v1_core.specs.Signatures.{signature16};
ghost use Rattle.v1_core.specs.Programs.{layout16};
ghost use Rattle.v1_passes.specs.Runs.{between_of};
ghost use Rattle.v1model_runner.specs.Runs.{IsBehind};
ghost use Rattle.command_words.specs.Words.{run16_inputs, run16_outputs};
ghost use Rattle.command_words.specs.Views.{run16_files_of};
ghost use Rattle.file_work.specs.Works.{Blames, ReadsRose, Tells, Works, Leaves, IsPart};
ghost use Rattle.file_work.specs.Phases.{Loosely, line_view};
ghost use Rattle.run_stream.specs.Captured.{StopsRun};
ghost use Rattle.command_inputs.specs.EntriesFile.{entries_in};
ghost use Rattle.program16_file.specs.Answers.{AnswersFile};
ghost use Rattle.program16_file.specs.Programs.{ReadsOnce};
ghost use Rattle.run16_cmd.specs.Calls.{PacketsFit, EntriesFit};
ghost use Rattle.run16_cmd.specs.Run16.{StopsBefore, Run16Due, InOrder, KeepsInOrder, setting_for};
ghost use Rattle.run16_cmd.specs.internal.Beginning.{BeginsWith, RunRose};

use crate::beginning::{Beginning, Known};
use crate::runner::ProgramRunner;
use crate::runs::run_ready;
use command_inputs::{read_entries, read_ports};
use command_words::Run16Names;
use file_work::Stop;
use match_core::Signature;
use p4x_bits::OutOfMemory;
use p4x_io::Desk;
use p416_program::Program16;
use p416_signature::signature16;
use program16_file::read_program16;
use std::alloc::Global;
use v1model_program::{frame_layout16, ready_program16};
use v1model_runner::{ReadyProgram16, runner16};

// The signature of a program, where it is well formed: where it has fewer than 2^32 tables.
fn signature_of(alloc: Global, program: &Program16) -> Result<Signature, OutOfMemory>
    ensures is { IfOk result (λ g. g ≡ signature16 program.now) }
    ensures formed { IfOk result IsSignature }
{
    let signature = signature16(alloc, program.syntax())?;
    if signature.is_well_formed(alloc)? {
        Ok(signature)
    } else {
        Err(OutOfMemory)
    }
}

// What is known of a program by itself.
fn known_of(alloc: Global, program: &Program16) -> Result<Known, OutOfMemory>
    ensures signature { IfOk result (λ known. known.signature ≡ signature16 program.now) }
    ensures formed { IfOk result (λ known. IsSignature known.signature) }
    ensures layout { IfOk result (λ known. known.layout ≡ layout16 program.now) }
{
    let signature = signature_of(alloc, program)?;
    let layout = frame_layout16(alloc, program)?;
    Ok(Known { signature, layout })
}

// Reads and judges the program, the entries and the ports.
fn prepare<D: Desk>(alloc: Global, desk: &mut D, names: &Run16Names<'_>) -> Result<Beginning, Stop>
    ensures moves { Moves [] (D.view desk.old) (D.view desk.new) }
    ensures stops { (files : List ℕ → Option (List ℕ)) → Tells (run16_inputs (run16_files_of names.now)) (D.view desk.old) files
        → IfErr result (λ e. Loosely e (StopsBefore (run16_files_of names.now) files e)) }
    ensures begins { (files : List ℕ → Option (List ℕ)) → Tells (run16_inputs (run16_files_of names.now)) (D.view desk.old) files
        → IfOk result (λ b. BeginsWith (run16_files_of names.now) files b) }
    ensures signature { IfOk result (λ b. b.known.signature ≡ signature16 b.program) }
    ensures formed { IfOk result (λ b. IsSignature b.known.signature) }
    ensures layout { IfOk result (λ b. b.known.layout ≡ layout16 b.program) }
    ensures fits { IfOk result (λ b. Fits b.entries b.known.signature) }
    ensures ports { IfOk result (λ b. All IsPort b.ports) }
    ensures answers { (file : Option (List ℕ)) → (D.view desk.old).told names.now.text.now ≡ Some file → IfOk result (λ b. AnswersFile file (Ok b.program)) }
    ensures fills { (file : Option (List ℕ)) → (D.view desk.old).told names.now.entries.now ≡ Some file
        → IfOk result (λ b. entries_in (signature16 b.program) file ≡ Ok b.entries) }
    ensures order { InOrder (run16_files_of names.now) (D.view desk.old) result }
    ensures once { OnOk result ((text : List ℕ) → (D.view desk.old).told names.now.text.now ≡ Some (Some text) → ReadsOnce text) }
    ensures cause { Blames result (ReadsRose (run16_inputs (run16_files_of names.now)) (D.view desk.old) (D.view desk.new)) }
{
    let program = read_program16(alloc, desk, names.text)?;
    let known = known_of(alloc, &program)?;
    let entries = read_entries(alloc, desk, names.entries, &known.signature)?;
    let ports = read_ports(alloc, desk, names.ports)?;
    Ok(Beginning {
        program,
        known,
        entries,
        ports,
    })
}

// Makes both files.
fn begin<D: Desk>(desk: &mut D, names: &Run16Names<'_>) -> Result<(), Stop>
    requires { names.now.sent.now ≢ names.now.report.now }
    ensures moves { Moves (names.now.sent.now ∷ names.now.report.now ∷ []) (D.view desk.old) (D.view desk.new) }
    ensures sent { OnOk result ((D.view desk.new).told names.now.sent.now ≡ put ((D.view desk.old).told names.now.sent.now) []) }
    ensures report { OnOk result ((D.view desk.new).told names.now.report.now ≡ put ((D.view desk.old).told names.now.report.now) []) }
    ensures part_sent { OnErr result (IsPart ((D.view desk.old).told names.now.sent.now) ((D.view desk.new).told names.now.sent.now) (Some [])) }
    ensures part_report { OnErr result (IsPart ((D.view desk.old).told names.now.report.now) ((D.view desk.new).told names.now.report.now) (Some [])) }
    ensures only { IfErr result (λ e. e ≡ Stop.Fault) }
    ensures cause { OnErr result (Rose ((D.view desk.old).writes names.now.sent.now) ((D.view desk.new).writes names.now.sent.now)
        ⊎ Rose ((D.view desk.old).writes names.now.report.now) ((D.view desk.new).writes names.now.report.now)) }
{
    desk.make(names.sent)?;
    desk.make(names.report)?;
    Ok(())
}

// Makes both files, and runs a program over the capture from before its first packet on.
fn run_begun<D: Desk>(
    alloc: Global,
    desk: &mut D,
    names: &Run16Names<'_>,
    beginning: &Beginning,
    runner: &mut ProgramRunner<'_>,
) -> Result<Vec<u8>, Stop>
    requires ports { All IsPort beginning.now.ports }
    requires begins { IsBehind (setting_for beginning.now.program beginning.now.entries) names.now.passes [] runner.old.runner.passes.blocks.setting runner.old.runner.sessions.now (between_of runner.old.runner.passes.blocks.store runner.old.runner.passes.work runner.old.runner.passes.events) }
    requires bound { runner.old.runner.bound ≡ names.now.passes }
    requires runs { runner.old.signature.now ≡ signature16 beginning.now.program }
    ensures moves { Moves (names.now.sent.now ∷ names.now.report.now ∷ []) (D.view desk.old) (D.view desk.new) }
    ensures leaves { (files : List ℕ → Option (List ℕ)) → (D.view desk.old).told names.now.capture.now ≡ Some (files names.now.capture.now)
        → BeginsWith (run16_files_of names.now) files beginning.now
        → Leaves (run16_outputs (run16_files_of names.now)) (Run16Due (run16_files_of names.now) files) (line_view result) (D.view desk.old) (D.view desk.new) }
    ensures known { OnOk result ((text : List ℕ) → (D.view desk.old).told names.now.capture.now ≡ Some (Some text) → All IsRecord (reading_of text).records) }
    ensures stops { IfErr result (λ e. StopsRun e) }
    ensures cause { Blames result (RunRose (run16_files_of names.now) (D.view desk.old) (D.view desk.new)) }
{
    begin(desk, names)?;
    run_ready(alloc, desk, names, beginning, runner)
}

// The runner of a program that is made ready, before its first packet.
fn ready_runner<'s>(
    alloc: Global,
    program: &'s ReadyProgram16<'_>,
    signature: &'s Signature,
    passes: u32,
) -> Result<ProgramRunner<'s>, OutOfMemory>
    requires signature { signature.now ≡ signature16 program.now.syntax }
    requires formed { IsSignature signature.now }
    requires fits { Fits program.now.entries signature.now }
    requires bound { IsBound passes }
    ensures begins { IfOk result (λ r. IsBehind program.now passes [] r.runner.passes.blocks.setting r.runner.sessions.now (between_of r.runner.passes.blocks.store r.runner.passes.work r.runner.passes.events)) }
    ensures bound { IfOk result (λ r. r.runner.bound ≡ passes) }
    ensures runs { IfOk result (λ r. r.signature.now ≡ signature.now) }
{
    let runner = runner16(alloc, program, signature, passes)?;
    Ok(ProgramRunner::new(runner, signature))
}

// Makes the runner of a program that is made ready, and the files, and runs the program over the capture.
fn run_program<D: Desk>(
    alloc: Global,
    desk: &mut D,
    names: &Run16Names<'_>,
    beginning: &Beginning,
    program: &ReadyProgram16<'_>,
) -> Result<Vec<u8>, Stop>
    requires signature { beginning.now.known.signature ≡ signature16 beginning.now.program }
    requires formed { IsSignature beginning.now.known.signature }
    requires fits { Fits beginning.now.entries beginning.now.known.signature }
    requires ports { All IsPort beginning.now.ports }
    requires program { program.now ≡ setting_for beginning.now.program beginning.now.entries }
    ensures moves { Moves (names.now.sent.now ∷ names.now.report.now ∷ []) (D.view desk.old) (D.view desk.new) }
    ensures leaves { (files : List ℕ → Option (List ℕ)) → (D.view desk.old).told names.now.capture.now ≡ Some (files names.now.capture.now)
        → BeginsWith (run16_files_of names.now) files beginning.now
        → Leaves (run16_outputs (run16_files_of names.now)) (Run16Due (run16_files_of names.now) files) (line_view result) (D.view desk.old) (D.view desk.new) }
    ensures known { OnOk result ((text : List ℕ) → (D.view desk.old).told names.now.capture.now ≡ Some (Some text) → All IsRecord (reading_of text).records) }
    ensures stops { IfErr result (λ e. StopsRun e) }
    ensures cause { Blames result (RunRose (run16_files_of names.now) (D.view desk.old) (D.view desk.new)) }
{
    let mut runner = ready_runner(alloc, program, &beginning.known.signature, names.passes)?;
    run_begun(alloc, desk, names, beginning, &mut runner)
}

// Makes the program ready and the files, and runs the program over the capture.
fn run_beginning<D: Desk>(
    alloc: Global,
    desk: &mut D,
    names: &Run16Names<'_>,
    beginning: &Beginning,
) -> Result<Vec<u8>, Stop>
    requires signature { beginning.now.known.signature ≡ signature16 beginning.now.program }
    requires formed { IsSignature beginning.now.known.signature }
    requires layout { beginning.now.known.layout ≡ layout16 beginning.now.program }
    requires fits { Fits beginning.now.entries beginning.now.known.signature }
    requires ports { All IsPort beginning.now.ports }
    ensures moves { Moves (names.now.sent.now ∷ names.now.report.now ∷ []) (D.view desk.old) (D.view desk.new) }
    ensures leaves { (files : List ℕ → Option (List ℕ)) → (D.view desk.old).told names.now.capture.now ≡ Some (files names.now.capture.now)
        → BeginsWith (run16_files_of names.now) files beginning.now
        → Leaves (run16_outputs (run16_files_of names.now)) (Run16Due (run16_files_of names.now) files) (line_view result) (D.view desk.old) (D.view desk.new) }
    ensures known { OnOk result ((text : List ℕ) → (D.view desk.old).told names.now.capture.now ≡ Some (Some text) → All IsRecord (reading_of text).records) }
    ensures stops { IfErr result (λ e. StopsRun e) }
    ensures cause { Blames result (RunRose (run16_files_of names.now) (D.view desk.old) (D.view desk.new)) }
{
    let Known { signature, layout } = &beginning.known;
    let program = ready_program16(
        alloc,
        &beginning.program,
        layout,
        signature,
        &beginning.entries,
    )?;
    run_program(alloc, desk, names, beginning, &program)
}

/// The command `run16`, with its parts one after another: the line that it prints, or why it stops.
///
/// It reads the program, the entries, the ports where a file of them is named, and then the capture, and runs each packet of the capture through
/// the program, under the bound on passes that is named. What is sent and what came of it go into the sent file and the report. The report ends
/// with the counters and the registers that aren't 0, and with the work: how many statements and transitions began, modulo 2^64.
pub fn run16<D: Desk>(alloc: Global, desk: &mut D, names: &Run16Names<'_>) -> Result<Vec<u8>, Stop>
    ensures works { Works (run16_inputs (run16_files_of names.now)) (run16_outputs (run16_files_of names.now)) (Run16Due (run16_files_of names.now)) (D.view desk.old) (D.view desk.new) (line_view result) }
    ensures packets { PacketsFit (run16_files_of names.now) (D.view desk.old) (line_view result) }
    ensures filling { EntriesFit (run16_files_of names.now) (D.view desk.old) (line_view result) }
    ensures order { InOrder (run16_files_of names.now) (D.view desk.old) (line_view result) }
    ensures kept { KeepsInOrder (run16_files_of names.now) (D.view desk.old) (D.view desk.new) (line_view result) }
    ensures once { OnOk (line_view result) ((text : List ℕ) → (D.view desk.old).told names.now.text.now ≡ Some (Some text) → ReadsOnce text) }
    ensures bound { IsBound names.now.passes }
{
    let beginning = prepare(alloc, desk, names)?;
    run_beginning(alloc, desk, names, &beginning)
}
