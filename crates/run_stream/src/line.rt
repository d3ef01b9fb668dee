// The run of a capture for a command, which prints a line of it.
ghost use Rattle.std.specs.Prelude.{◌≡◌, ◌⊎◌, ◌∷◌, ◌++◌, [], ℕ, List, Some, None, Option, IfOk, IfErr, OnOk, All};
ghost use Rattle.state_store.specs.Ports.{IsPort};
ghost use Rattle.p4x_io.specs.Desk.{Rose, Moves};
ghost use Rattle.pcap_io.specs.Captures.{reading_of, IsRecord};
ghost use Rattle.file_work.specs.Works.{Blames};
ghost use Rattle.file_work.specs.Phases.{line_view};
ghost use Rattle.run_stream.specs.Captured.{reports_over, DeliversLine, StopsRun};
ghost use Rattle.run_stream.specs.Reports.{run_line, work_line};
ghost use Rattle.run_stream.specs.Runs.{run_of};

use crate::capture::{RunNames, run_capture};
use crate::counts::Counts;
use crate::runner::Runner;
use file_work::Stop;
use p4x_bits::{Octets, OutOfMemory};
use p4x_io::Desk;
use std::alloc::Global;

// The line that a command prints: its word, how many packets came in and went out, and how many items were cut.
fn run_line(alloc: Global, word: &str, counts: Counts) -> Result<Vec<u8>, OutOfMemory>
    ensures { IfOk result (λ line. line.items ≡ run_line word.now counts.arrivals counts.sent counts.cut) }
{
    let Counts {
        arrivals,
        sent,
        cut,
    } = counts;
    let line = format!(in alloc; "{word} {arrivals} {sent} {cut}\n")?;
    Ok(line.into_bytes())
}

/// Puts the line of the work last, for a runner that tells it at the end of its report.
///
/// # Errors
/// It fails for want of memory alone.
pub fn put_work_line(alloc: Global, into: &mut Octets, work: u64) -> Result<(), OutOfMemory>
    ensures { OnOk result (into.new ≡ into.old ++ work_line work) }
{
    let line = format!(in alloc; "work {work}\n")?;
    into.extend_from_slice(line.as_bytes())?;
    Ok(())
}

/// Reads the capture and runs its packets, and appends what comes of them to the sent file and the report, as [`run_capture`] does. It gives
/// the line of the command: its word, how many packets came in and went out, and how many items were cut.
///
/// # Errors
/// Those of [`run_capture`]; or want of memory for the line, and then the files hold all that the capture comes to.
pub fn run_command<D: Desk, R: Runner>(
    alloc: Global,
    desk: &mut D,
    names: &RunNames<'_>,
    runner: &mut R,
    ports: &[u128],
    word: &str,
) -> Result<Vec<u8>, Stop>
    requires work { R.done runner.old ≡ 0 }
    requires ports { All IsPort ports.now }
    requires sent_there { (D.view desk.old).told names.now.sent.now ≡ Some None → ⊥ }
    requires report_there { (D.view desk.old).told names.now.report.now ≡ Some None → ⊥ }
    ensures moves { Moves (names.now.sent.now ∷ names.now.report.now ∷ []) (D.view desk.old) (D.view desk.new) }
    ensures gives { (file : Option (List ℕ)) → (D.view desk.old).told names.now.capture.now ≡ Some file
        → DeliversLine word.now (reports_over (R.end_lines (R.setting runner.old)) (run_of (R.outcome (R.setting runner.old)) (R.store runner.old)) ports.now file) (line_view result) ((D.view desk.old).told names.now.sent.now) ((D.view desk.new).told names.now.sent.now) ((D.view desk.old).told names.now.report.now) ((D.view desk.new).told names.now.report.now) }
    ensures known { OnOk result ((text : List ℕ) → (D.view desk.old).told names.now.capture.now ≡ Some (Some text) → All IsRecord (reading_of text).records) }
    ensures stops { IfErr result (λ e. StopsRun e) }
    ensures cause { Blames result (Rose ((D.view desk.old).reads names.now.capture.now) ((D.view desk.new).reads names.now.capture.now)
        ⊎ Rose ((D.view desk.old).writes names.now.sent.now) ((D.view desk.new).writes names.now.sent.now)
        ⊎ Rose ((D.view desk.old).writes names.now.report.now) ((D.view desk.new).writes names.now.report.now)) }
{
    let counts = run_capture(alloc, desk, names, runner, ports)?;
    let line = run_line(alloc, word, counts)?;
    Ok(line)
}
