// The command `run14`.
ghost use Rattle.std.specs.Prelude.{◌≡◌, ◌≢◌, ◌⊎◌, ◌∷◌, [], ℕ, List, Some, None, Option, Ok, IfOk, OnOk, OnErr, IfErr, All};
ghost use Rattle.state_store.specs.Ports.{IsPort};
ghost use Rattle.fabric.specs.Numbers.{IsBound};
ghost use Rattle.match_core.specs.Fits.{Fits};
ghost use Rattle.match_core.specs.Signatures.{IsSignature};
ghost use Rattle.p4x_io.specs.Desk.{Rose, Moves, put};
ghost use Rattle.pcap_io.specs.Captures.{reading_of, IsRecord};
ghost use Rattle.p414_sem.specs.Signatures.{signature14};
ghost use Rattle.command_words.specs.Words.{run14_inputs, run14_outputs};
ghost use Rattle.command_words.specs.Views.{run14_files_of};
ghost use Rattle.file_work.specs.Works.{Blames, ReadsRose, Tells, Works, Leaves, IsPart};
ghost use Rattle.file_work.specs.Phases.{Loosely, line_view};
ghost use Rattle.run_stream.specs.Captured.{StopsRun};
ghost use Rattle.command_inputs.specs.EntriesFile.{entries_in};
ghost use Rattle.program_commands.specs.Answers.{AnswersFile};
ghost use Rattle.program_commands.specs.Programs.{ReadsOnce};
ghost use Rattle.run14_cmd.specs.Calls.{PacketsFit, EntriesFit};
ghost use Rattle.run14_cmd.specs.Run14.{StopsBefore, Run14Due, InOrder, KeepsInOrder};
ghost use Rattle.run14_cmd.specs.internal.Beginning.{BeginsWith, RunRose};

use crate::beginning::Beginning;
use crate::runs::{make_ready, run_ready};
use command_inputs::{read_entries, read_ports};
use command_words::Run14Names;
use file_work::Stop;
use match_core::Signature;
use p4x_bits::OutOfMemory;
use p4x_io::Desk;
use p414_body_check::Program14;
use p414_program_signature::signature14;
use program_commands::read_program;
use std::alloc::Global;

// The signature of a program, where it is well formed: where it has fewer than 2^32 tables.
fn signature_of(alloc: Global, program: &Program14) -> Result<Signature, OutOfMemory>
    ensures is { IfOk result (λ g. g ≡ signature14 program.now.decls) }
    ensures formed { IfOk result IsSignature }
{
    let signature = signature14(alloc, program)?;
    if signature.is_well_formed(alloc)? {
        Ok(signature)
    } else {
        Err(OutOfMemory)
    }
}

// Reads and judges the program, the entries and the ports.
fn prepare<D: Desk>(alloc: Global, desk: &mut D, names: &Run14Names<'_>) -> Result<Beginning, Stop>
    ensures moves { Moves [] (D.view desk.old) (D.view desk.new) }
    ensures stops { (files : List ℕ → Option (List ℕ)) → Tells (run14_inputs (run14_files_of names.now)) (D.view desk.old) files
        → IfErr result (λ e. Loosely e (StopsBefore (run14_files_of names.now) files e)) }
    ensures begins { (files : List ℕ → Option (List ℕ)) → Tells (run14_inputs (run14_files_of names.now)) (D.view desk.old) files
        → IfOk result (λ b. BeginsWith (run14_files_of names.now) files b) }
    ensures signature { IfOk result (λ b. b.signature ≡ signature14 b.program.decls) }
    ensures formed { IfOk result (λ b. IsSignature b.signature) }
    ensures fits { IfOk result (λ b. Fits b.entries b.signature) }
    ensures ports { IfOk result (λ b. All IsPort b.ports) }
    ensures answers { (file : Option (List ℕ)) → (D.view desk.old).told names.now.program.now ≡ Some file → IfOk result (λ b. AnswersFile file (Ok b.program)) }
    ensures fills { (file : Option (List ℕ)) → (D.view desk.old).told names.now.entries.now ≡ Some file
        → IfOk result (λ b. entries_in (signature14 b.program.decls) file ≡ Ok b.entries) }
    ensures order { InOrder (run14_files_of names.now) (D.view desk.old) result }
    ensures once { OnOk result ((text : List ℕ) → (D.view desk.old).told names.now.program.now ≡ Some (Some text) → ReadsOnce text) }
    ensures cause { Blames result (ReadsRose (run14_inputs (run14_files_of names.now)) (D.view desk.old) (D.view desk.new)) }
{
    let program = read_program(alloc, desk, names.program)?;
    let signature = signature_of(alloc, &program)?;
    let entries = read_entries(alloc, desk, names.entries, &signature)?;
    let ports = read_ports(alloc, desk, names.ports)?;
    Ok(Beginning {
        program,
        signature,
        entries,
        ports,
    })
}

// Makes both files.
fn begin<D: Desk>(desk: &mut D, names: &Run14Names<'_>) -> Result<(), Stop>
    requires { names.now.sent.now ≢ names.now.report.now }
    ensures moves { Moves (names.now.sent.now ∷ names.now.report.now ∷ []) (D.view desk.old) (D.view desk.new) }
    ensures sent { OnOk result ((D.view desk.new).told names.now.sent.now ≡ put ((D.view desk.old).told names.now.sent.now) []) }
    ensures report { OnOk result ((D.view desk.new).told names.now.report.now ≡ put ((D.view desk.old).told names.now.report.now) []) }
    ensures part_sent { OnErr result (IsPart ((D.view desk.old).told names.now.sent.now) ((D.view desk.new).told names.now.sent.now) (Some [])) }
    ensures part_report { OnErr result (IsPart ((D.view desk.old).told names.now.report.now) ((D.view desk.new).told names.now.report.now) (Some [])) }
    ensures only { IfErr result (λ e. e ≡ Stop.Fault) }
    ensures cause { OnErr result (Rose ((D.view desk.old).writes names.now.sent.now) ((D.view desk.new).writes names.now.sent.now)
        ⊎ Rose ((D.view desk.old).writes names.now.report.now) ((D.view desk.new).writes names.now.report.now)) }
{
    desk.make(names.sent)?;
    desk.make(names.report)?;
    Ok(())
}

// Makes the program ready and the files, and runs the program over the capture.
fn run_beginning<D: Desk>(
    alloc: Global,
    desk: &mut D,
    names: &Run14Names<'_>,
    beginning: &Beginning,
) -> Result<Vec<u8>, Stop>
    requires signature { beginning.now.signature ≡ signature14 beginning.now.program.decls }
    requires formed { IsSignature beginning.now.signature }
    requires fits { Fits beginning.now.entries beginning.now.signature }
    requires ports { All IsPort beginning.now.ports }
    ensures moves { Moves (names.now.sent.now ∷ names.now.report.now ∷ []) (D.view desk.old) (D.view desk.new) }
    ensures leaves { (files : List ℕ → Option (List ℕ)) → (D.view desk.old).told names.now.capture.now ≡ Some (files names.now.capture.now)
        → BeginsWith (run14_files_of names.now) files beginning.now
        → Leaves (run14_outputs (run14_files_of names.now)) (Run14Due (run14_files_of names.now) files) (line_view result) (D.view desk.old) (D.view desk.new) }
    ensures known { OnOk result ((text : List ℕ) → (D.view desk.old).told names.now.capture.now ≡ Some (Some text) → All IsRecord (reading_of text).records) }
    ensures stops { IfErr result (λ e. StopsRun e) }
    ensures cause { Blames result (RunRose (run14_files_of names.now) (D.view desk.old) (D.view desk.new)) }
{
    let ready = make_ready(alloc, names.rule, beginning)?;
    begin(desk, names)?;
    run_ready(alloc, desk, names, beginning, ready)
}

/// The command `run14`, with its parts one after another: the line that it prints, or why it stops.
///
/// It reads the program, the entries, the ports where a file of them is named, and then the capture, and runs each packet of the capture through
/// the program, under the rule and the bound on passes that are named. What is sent and what came of it go into the sent file and the report. The
/// report ends with the counters and the registers that aren't 0.
pub fn run14<D: Desk>(alloc: Global, desk: &mut D, names: &Run14Names<'_>) -> Result<Vec<u8>, Stop>
    ensures works { Works (run14_inputs (run14_files_of names.now)) (run14_outputs (run14_files_of names.now)) (Run14Due (run14_files_of names.now)) (D.view desk.old) (D.view desk.new) (line_view result) }
    ensures packets { PacketsFit (run14_files_of names.now) (D.view desk.old) (line_view result) }
    ensures filling { EntriesFit (run14_files_of names.now) (D.view desk.old) (line_view result) }
    ensures order { InOrder (run14_files_of names.now) (D.view desk.old) (line_view result) }
    ensures kept { KeepsInOrder (run14_files_of names.now) (D.view desk.old) (D.view desk.new) (line_view result) }
    ensures once { OnOk (line_view result) ((text : List ℕ) → (D.view desk.old).told names.now.program.now ≡ Some (Some text) → ReadsOnce text) }
    ensures bound { IsBound names.now.passes }
{
    let beginning = prepare(alloc, desk, names)?;
    run_beginning(alloc, desk, names, &beginning)
}
