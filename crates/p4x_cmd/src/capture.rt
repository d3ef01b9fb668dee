// The run of the written program over the capture.
ghost use Rattle.std.specs.Prelude.{◌≡◌, ◌⊎◌, ◌∷◌, [], ℕ, List, Some, None, Option, IfErr, OnOk, All};
ghost use Rattle.state_store.specs.Ports.{IsPort};
ghost use Rattle.p4x_io.specs.Desk.{Rose, Moves};
ghost use Rattle.pcap_io.specs.Captures.{reading_of, IsRecord};
ghost use Rattle.file_work.specs.Works.{Blames};
ghost use Rattle.file_work.specs.Phases.{line_view};
ghost use Rattle.run_stream.specs.Captured.{DeliversLine, StopsRun};
ghost use Rattle.p4x_cmd.specs.Carry.{capture_reports, carried_word};
ghost use Rattle.one_table_text.specs.Programs.{program16};
ghost use Rattle.p4x_cmd.specs.internal.Plain.{IsSized};

use crate::plain::Plain;
use command_words::CarryNames;
use file_work::Stop;
use one_table_text::OneTable16;
use p4x_io::Desk;
use run_stream::{RunNames, run_command};
use std::alloc::Global;

/// Reads the capture and runs the program over it, and appends what comes of it to the sent file and the report. It gives the line of the
/// command, or why the capture isn't taken.
pub(crate) fn run_capture<D: Desk>(
    alloc: Global,
    desk: &mut D,
    names: &CarryNames<'_>,
    program: &OneTable16,
    ports: &[u128],
) -> Result<Vec<u8>, Stop>
    requires sized { IsSized program.now }
    requires ports { All IsPort ports.now }
    requires sent_there { (D.view desk.old).told names.now.sent.now ≡ Some None → ⊥ }
    requires report_there { (D.view desk.old).told names.now.report.now ≡ Some None → ⊥ }
    ensures moves { Moves (names.now.sent.now ∷ names.now.report.now ∷ []) (D.view desk.old) (D.view desk.new) }
    ensures gives { (file : Option (List ℕ)) → (D.view desk.old).told names.now.capture.now ≡ Some file
        → DeliversLine carried_word (capture_reports (program16 program.now) names.now.passes ports.now file) (line_view result) ((D.view desk.old).told names.now.sent.now) ((D.view desk.new).told names.now.sent.now) ((D.view desk.old).told names.now.report.now) ((D.view desk.new).told names.now.report.now) }
    ensures known { OnOk result ((text : List ℕ) → (D.view desk.old).told names.now.capture.now ≡ Some (Some text) → All IsRecord (reading_of text).records) }
    ensures stops { IfErr result (λ e. StopsRun e) }
    ensures cause { Blames result (Rose ((D.view desk.old).reads names.now.capture.now) ((D.view desk.new).reads names.now.capture.now)
        ⊎ Rose ((D.view desk.old).writes names.now.sent.now) ((D.view desk.new).writes names.now.sent.now)
        ⊎ Rose ((D.view desk.old).writes names.now.report.now) ((D.view desk.new).writes names.now.report.now)) }
{
    let mut runner = Plain::new(alloc, program);
    let files = RunNames {
        capture: names.capture,
        sent: names.sent,
        report: names.report,
    };
    run_command(alloc, desk, &files, &mut runner, ports, "carried")
}
