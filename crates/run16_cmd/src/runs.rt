// The run of a program over the capture.
ghost use Rattle.std.specs.Prelude.{◌≡◌, ◌∷◌, [], ℕ, List, Some, None, Option, IfErr, OnOk, All};
ghost use Rattle.state_store.specs.Ports.{IsPort};
ghost use Rattle.p4x_io.specs.Desk.{Moves};
ghost use Rattle.pcap_io.specs.Captures.{reading_of, IsRecord};
ghost use Rattle.file_work.specs.Works.{Blames};
ghost use Rattle.file_work.specs.Phases.{line_view};
ghost use Rattle.run_stream.specs.Captured.{DeliversLine, StopsRun};
ghost use Rattle.v1_core.specs.Signatures.{signature16};
ghost use Rattle.v1_passes.specs.Runs.{between_of};
ghost use Rattle.v1model_runner.specs.Runs.{IsBehind};
ghost use Rattle.command_words.specs.Views.{run16_files_of};
ghost use Rattle.run16_cmd.specs.Run16.{capture_reports, setting_for, ran_word};
ghost use Rattle.run16_cmd.specs.internal.Beginning.{RunRose};

use crate::beginning::Beginning;
use crate::runner::ProgramRunner;
use command_words::Run16Names;
use file_work::Stop;
use p4x_io::Desk;
use run_stream::{RunNames, run_command};
use std::alloc::Global;

/// Reads the capture and runs the program over it, from before its first packet on, and appends what comes of it to the sent file and the
/// report. It gives the line of the command, or why the capture isn't taken.
pub(crate) fn run_ready<D: Desk>(
    alloc: Global,
    desk: &mut D,
    names: &Run16Names<'_>,
    beginning: &Beginning,
    runner: &mut ProgramRunner<'_>,
) -> Result<Vec<u8>, Stop>
    requires ports { All IsPort beginning.now.ports }
    requires begins { IsBehind (setting_for beginning.now.program beginning.now.entries) names.now.passes [] runner.old.runner.passes.blocks.setting runner.old.runner.sessions.now (between_of runner.old.runner.passes.blocks.store runner.old.runner.passes.work runner.old.runner.passes.events) }
    requires bound { runner.old.runner.bound ≡ names.now.passes }
    requires runs { runner.old.signature.now ≡ signature16 beginning.now.program }
    requires sent_there { (D.view desk.old).told names.now.sent.now ≡ Some None → ⊥ }
    requires report_there { (D.view desk.old).told names.now.report.now ≡ Some None → ⊥ }
    ensures moves { Moves (names.now.sent.now ∷ names.now.report.now ∷ []) (D.view desk.old) (D.view desk.new) }
    ensures gives { (file : Option (List ℕ)) → (D.view desk.old).told names.now.capture.now ≡ Some file
        → DeliversLine ran_word (capture_reports (setting_for beginning.now.program beginning.now.entries) names.now.passes beginning.now.ports file) (line_view result) ((D.view desk.old).told names.now.sent.now) ((D.view desk.new).told names.now.sent.now) ((D.view desk.old).told names.now.report.now) ((D.view desk.new).told names.now.report.now) }
    ensures known { OnOk result ((text : List ℕ) → (D.view desk.old).told names.now.capture.now ≡ Some (Some text) → All IsRecord (reading_of text).records) }
    ensures stops { IfErr result (λ e. StopsRun e) }
    ensures cause { Blames result (RunRose (run16_files_of names.now) (D.view desk.old) (D.view desk.new)) }
{
    let files = RunNames {
        capture: names.capture,
        sent: names.sent,
        report: names.report,
    };
    run_command(
        alloc,
        desk,
        &files,
        runner,
        beginning.ports.as_slice(),
        "ran",
    )
}
