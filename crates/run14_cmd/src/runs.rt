// The run of a program over the capture.
ghost use Rattle.std.specs.Prelude.{◌≡◌, ◌∷◌, [], ℕ, List, Some, None, Option, IfOk, IfErr, OnOk, All};
ghost use Rattle.state_store.specs.Ports.{IsPort};
ghost use Rattle.p4x_io.specs.Desk.{Moves};
ghost use Rattle.match_core.specs.Fits.{Fits};
ghost use Rattle.match_core.specs.Signatures.{IsSignature};
ghost use Rattle.match_core.specs.Stores.{first_store};
ghost use Rattle.pcap_io.specs.Captures.{reading_of, IsRecord};
ghost use Rattle.file_work.specs.Works.{Blames};
ghost use Rattle.file_work.specs.Phases.{line_view};
ghost use Rattle.run_stream.specs.Captured.{DeliversLine, StopsRun};
ghost use Rattle.p414_pipe_run.specs.Prepared.{comes_to};
ghost use Rattle.p414_sem.specs.Expanded.{IsExpanded};
ghost use Rattle.p414_sem.specs.Signatures.{signature14};
ghost use Rattle.command_words.specs.Views.{run14_files_of};
ghost use Rattle.run14_cmd.specs.Run14.{capture_reports, setting_for, ran_word};
ghost use Rattle.run14_cmd.specs.internal.Beginning.{loaded, RunRose};

use crate::beginning::Beginning;
use crate::runner::Runner14;
use command_words::Run14Names;
use file_work::Stop;
use match_core::first_store;
use p4x_bits::OutOfMemory;
use p4x_io::Desk;
use p414_pipe_run::{Passes14, ReadyProgram14, packed_runs_as_the_program, ready_program14};
use p414_syntax::Rule14;
use run_stream::{RunNames, run_command};
use state_store::Store;
use std::alloc::Global;

/// A program that is made ready, with the store that a run begins with.
#[derive(Drop)]
pub(crate) struct Ready<'b> {
    program: ReadyProgram14<'b>,
    store: Store,
}

/// Makes the program ready under a rule of its actions. The one error is want of memory.
pub(crate) fn make_ready(
    alloc: Global,
    rule: Rule14,
    beginning: &Beginning,
) -> Result<Ready<'_>, OutOfMemory>
    requires signature { beginning.now.signature ≡ signature14 beginning.now.program.decls }
    requires formed { IsSignature beginning.now.signature }
    requires fits { Fits beginning.now.entries beginning.now.signature }
    ensures loaded { IfOk result (λ r. r.program.loaded ≡ loaded rule beginning.now) }
    ensures expanded { IfOk result (λ r. IsExpanded beginning.now.program.decls (comes_to r.program)) }
    ensures store { IfOk result (λ r. r.store ≡ first_store beginning.now.signature beginning.now.entries) }
{
    let store = first_store(alloc, &beginning.signature, &beginning.entries)?;
    let program = ready_program14(
        alloc,
        &beginning.program,
        rule,
        &beginning.signature,
        &beginning.entries,
        &store,
    )?;
    Ok(Ready { program, store })
}

/// Reads the capture and runs the program over it, and appends what comes of it to the sent file and the report. It gives the line of the
/// command, or why the capture isn't taken.
pub(crate) fn run_ready<D: Desk>(
    alloc: Global,
    desk: &mut D,
    names: &Run14Names<'_>,
    beginning: &Beginning,
    ready: Ready<'_>,
) -> Result<Vec<u8>, Stop>
    requires signature { beginning.now.signature ≡ signature14 beginning.now.program.decls }
    requires formed { IsSignature beginning.now.signature }
    requires fits { Fits beginning.now.entries beginning.now.signature }
    requires ports { All IsPort beginning.now.ports }
    requires loaded { ready.program.loaded ≡ loaded names.now.rule beginning.now }
    requires store { ready.store ≡ first_store beginning.now.signature beginning.now.entries }
    requires sent_there { (D.view desk.old).told names.now.sent.now ≡ Some None → ⊥ }
    requires report_there { (D.view desk.old).told names.now.report.now ≡ Some None → ⊥ }
    ensures moves { Moves (names.now.sent.now ∷ names.now.report.now ∷ []) (D.view desk.old) (D.view desk.new) }
    ensures gives { (file : Option (List ℕ)) → (D.view desk.old).told names.now.capture.now ≡ Some file
        → DeliversLine ran_word (capture_reports (setting_for (run14_files_of names.now) beginning.now.program beginning.now.entries (comes_to ready.entry.program)) names.now.passes beginning.now.ports file) (line_view result) ((D.view desk.old).told names.now.sent.now) ((D.view desk.new).told names.now.sent.now) ((D.view desk.old).told names.now.report.now) ((D.view desk.new).told names.now.report.now) }
    ensures known { OnOk result ((text : List ℕ) → (D.view desk.old).told names.now.capture.now ≡ Some (Some text) → All IsRecord (reading_of text).records) }
    ensures stops { IfErr result (λ e. StopsRun e) }
    ensures cause { Blames result (RunRose (run14_files_of names.now) (D.view desk.old) (D.view desk.new)) }
{
    packed_runs_as_the_program();
    let Ready { program, store } = ready;
    let passes = Passes14::new(alloc, &program, store);
    let mut runner = Runner14::new(
        alloc,
        passes,
        &beginning.signature,
        beginning.entries.sessions.as_slice(),
        names.passes,
    );
    let files = RunNames {
        capture: names.capture,
        sent: names.sent,
        report: names.report,
    };
    run_command(
        alloc,
        desk,
        &files,
        &mut runner,
        beginning.ports.as_slice(),
        "ran",
    )
}
