// The capture, as it is read and run.
ghost use Rattle.std.specs.Prelude.{◌≡◌, ◌≢◌, ◌≤◌, ◌⊎◌, ◌∷◌, ◌++◌, [], ℕ, List, Some, None, Option, Ok, Err, IfErr, OnOk, OnErr, MatchResult, All};
ghost use Rattle.state_store.specs.Ports.{IsPort};
ghost use Rattle.p4x_fault.specs.declared.Fault.{Fault as Refusal};
ghost use Rattle.p4x_io.specs.Desk.{Rose, Moves, grown};
ghost use Rattle.pcap_io.specs.Captures.{reading_of, refusal_in, IsRecord};
ghost use Rattle.file_work.specs.Works.{Blames};
ghost use Rattle.file_work.specs.Phases.{GrownByFront};
ghost use Rattle.run_stream.specs.Captured.{capture_limit, reports_over, Delivers, StopsRun};
ghost use Rattle.run_stream.specs.Reports.{end_part};
ghost use Rattle.run_stream.specs.Runs.{run_of};
ghost use Rattle.run_stream.specs.internal.Streams.{held_of, view_of, empty, start, cleared, nothing_read, Streamed, PieceEnds, PiecesEnd};

use crate::counts::Counts;
use crate::runner::Runner;
use crate::stream::{Stream, end_part};
use file_work::{Limited, Stop};
use p4x_io::{Desk, PIECE, append_all, has_octet};
use pcap_io::{CaptureFault, RecordReader};
use std::alloc::Global;

/// The most octets of a capture.
const CAPTURE_LIMIT: u64 = 1073741824;

/// The names of the files of a run.
#[derive(Clone, Copy, Drop)]
pub struct RunNames<'a> {
    /// The capture of the packets that arrive.
    pub capture: &'a str,
    /// The capture of the packets that are sent, which the run appends to.
    pub sent: &'a str,
    /// The report, which the run appends to.
    pub report: &'a str,
    ghost sent_apart: { capture.now ≢ sent.now },
    ghost report_apart: { capture.now ≢ report.now },
    ghost apart: { sent.now ≢ report.now },
}

// Appends what the run hasn't appended yet.
fn flush<D: Desk>(desk: &mut D, names: &RunNames<'_>, stream: &mut Stream<'_>) -> Result<(), Stop>
    requires sent_there { (D.view desk.old).told names.now.sent.now ≡ Some None → ⊥ }
    requires report_there { (D.view desk.old).told names.now.report.now ≡ Some None → ⊥ }
    ensures moves { Moves (names.now.sent.now ∷ names.now.report.now ∷ []) (D.view desk.old) (D.view desk.new) }
    ensures sent { OnOk result ((D.view desk.new).told names.now.sent.now ≡ grown ((D.view desk.old).told names.now.sent.now) (held_of stream.old).sent) }
    ensures report { OnOk result ((D.view desk.new).told names.now.report.now ≡ grown ((D.view desk.old).told names.now.report.now) (held_of stream.old).report) }
    ensures part_sent { OnErr result (GrownByFront ((D.view desk.old).told names.now.sent.now) (held_of stream.old).sent ((D.view desk.new).told names.now.sent.now)) }
    ensures part_report { OnErr result (GrownByFront ((D.view desk.old).told names.now.report.now) (held_of stream.old).report ((D.view desk.new).told names.now.report.now)) }
    ensures emptied { OnOk result (held_of stream.new ≡ cleared (held_of stream.old)) }
    ensures ports { stream.new.ports.now ≡ stream.old.ports.now }
    ensures only { IfErr result (λ e. e ≡ Stop.Fault) }
    ensures cause { OnErr result (Rose ((D.view desk.old).writes names.now.sent.now) ((D.view desk.new).writes names.now.sent.now)
        ⊎ Rose ((D.view desk.old).writes names.now.report.now) ((D.view desk.new).writes names.now.report.now)) }
{
    append_all(desk, names.sent, &stream.sent)?;
    append_all(desk, names.report, &stream.report)?;
    stream.sent.clear();
    stream.report.clear();
    Ok(())
}

// Runs the packets whose records end in a piece of the capture.
fn run_piece<D: Desk, R: Runner>(
    desk: &mut D,
    names: &RunNames<'_>,
    runner: &mut R,
    piece: &[u8],
    reader: &mut RecordReader,
    stream: &mut Stream<'_>,
) -> Result<(), Stop>
    requires ports { All IsPort stream.old.ports.now }
    requires sent_there { (D.view desk.old).told names.now.sent.now ≡ Some None → ⊥ }
    requires report_there { (D.view desk.old).told names.now.report.now ≡ Some None → ⊥ }
    ensures moves { Moves (names.now.sent.now ∷ names.now.report.now ∷ []) (D.view desk.old) (D.view desk.new) }
    ensures setting { OnOk result (R.setting runner.new ≡ R.setting runner.old) }
    ensures ran { (store : _) (ports octets : List ℕ) (sent report : Option (Option (List ℕ))) → (reading_of octets).fault ≡ None
        → Streamed (R.outcome (R.setting runner.old)) store ports octets sent report ((D.view desk.old).told names.now.sent.now) ((D.view desk.old).told names.now.report.now) reader.old (view_of stream.old (R.store runner.old) (R.done runner.old))
        → PieceEnds (R.outcome (R.setting runner.old)) store ports (octets ++ piece.now) sent report ((D.view desk.new).told names.now.sent.now) ((D.view desk.new).told names.now.report.now) reader.new (view_of stream.new (R.store runner.new) (R.done runner.new)) result }
    ensures ports { All IsPort stream.new.ports.now }
    ensures stops { IfErr result (λ e. StopsRun e) }
    ensures cause { Blames result (Rose ((D.view desk.old).writes names.now.sent.now) ((D.view desk.new).writes names.now.sent.now)
        ⊎ Rose ((D.view desk.old).writes names.now.report.now) ((D.view desk.new).writes names.now.report.now)) }
{
    let refused = stream.feed(runner, reader, piece)?;
    flush(desk, names, stream)?;
    match refused {
        Some(fault) => Err(Stop::Refused(fault)),
        None => Ok(()),
    }
}

// Reads the capture in pieces, and runs each packet as soon as its record is whole.
fn run_pieces<D: Desk, R: Runner>(
    desk: &mut D,
    names: &RunNames<'_>,
    runner: &mut R,
    reader: &mut RecordReader,
    stream: &mut Stream<'_>,
) -> Result<(), Stop>
    requires ports { All IsPort stream.old.ports.now }
    requires reader { reader.old ≡ nothing_read }
    requires stream { held_of stream.old ≡ empty stream.old.ports.now }
    requires work { R.done runner.old ≡ 0 }
    requires sent_there { (D.view desk.old).told names.now.sent.now ≡ Some None → ⊥ }
    requires report_there { (D.view desk.old).told names.now.report.now ≡ Some None → ⊥ }
    ensures moves { Moves (names.now.sent.now ∷ names.now.report.now ∷ []) (D.view desk.old) (D.view desk.new) }
    ensures gives { (file : Option (List ℕ)) → (D.view desk.old).told names.now.capture.now ≡ Some file
        → PiecesEnd (R.outcome (R.setting runner.old)) (R.store runner.old) stream.old.ports.now file ((D.view desk.old).told names.now.sent.now) ((D.view desk.old).told names.now.report.now) ((D.view desk.new).told names.now.sent.now) ((D.view desk.new).told names.now.report.now) reader.new (view_of stream.new (R.store runner.new) (R.done runner.new)) result }
    ensures report_there { OnOk result ((D.view desk.new).told names.now.report.now ≡ Some None → ⊥) }
    ensures setting { OnOk result (R.setting runner.new ≡ R.setting runner.old) }
    ensures stops { IfErr result (λ e. StopsRun e) }
    ensures cause { Blames result (Rose ((D.view desk.old).reads names.now.capture.now) ((D.view desk.new).reads names.now.capture.now)
        ⊎ Rose ((D.view desk.old).writes names.now.sent.now) ((D.view desk.new).writes names.now.sent.now)
        ⊎ Rose ((D.view desk.old).writes names.now.report.now) ((D.view desk.new).writes names.now.report.now)) }
{
    let mut piece = [0u8; PIECE];
    let mut place = 0u64;
    'pieces: while place < CAPTURE_LIMIT {
        let count = desk.read(names.capture, place, &mut piece)?;
        if count == 0 {
            return Ok(());
        }
        place += count as u64;
        run_piece(desk, names, runner, &piece[..count], reader, stream)?;
    }
    Ok(())
}

// The rule that a capture breaks at its end, which is its refusal.
fn end_capture(reader: &RecordReader) -> Result<(), Stop>
    ensures ends { OnOk result (refusal_in reader.now ≡ None) }
    ensures refused { IfErr result (λ e. (fault : Refusal) × (refusal_in reader.now ≡ Some fault) × (e ≡ Stop.Refused fault)) }
{
    match reader.end() {
        Ok(()) => Ok(()),
        Err(CaptureFault::Refused(fault)) => Err(Stop::Refused(fault)),
        Err(CaptureFault::Memory) => Err(Stop::Memory),
    }
}

// Appends the end part of the report.
fn end_report<D: Desk, R: Runner>(
    alloc: Global,
    desk: &mut D,
    name: &str,
    counts: Counts,
    runner: &R,
) -> Result<(), Stop>
    requires there { (D.view desk.old).told name.now ≡ Some None → ⊥ }
    ensures moves { Moves (name.now ∷ []) (D.view desk.old) (D.view desk.new) }
    ensures line { OnOk result ((D.view desk.new).told name.now ≡ grown ((D.view desk.old).told name.now) (end_part counts.arrivals counts.sent counts.cut (R.end_lines (R.setting runner.now) (R.store runner.now) (R.done runner.now)))) }
    ensures only { IfErr result (λ e. (e ≡ Stop.Fault) ⊎ (e ≡ Stop.Memory)) }
    ensures part { OnErr result (GrownByFront ((D.view desk.old).told name.now) (end_part counts.arrivals counts.sent counts.cut (R.end_lines (R.setting runner.now) (R.store runner.now) (R.done runner.now))) ((D.view desk.new).told name.now)) }
    ensures cause { Blames result (Rose ((D.view desk.old).writes name.now) ((D.view desk.new).writes name.now)) }
{
    let part = end_part(alloc, counts, runner)?;
    append_all(desk, name, part.as_slice())?;
    Ok(())
}

/// Reads the capture and runs its packets, and appends what comes of them to the sent file and the report. It gives how many packets came and
/// left.
///
/// # Errors
/// A rule of captures that is broken, and then both files hold what the records in front of it give, the report without its end part; the
/// capture's limit; a fault of a file; or want of memory.
pub fn run_capture<D: Desk, R: Runner>(
    alloc: Global,
    desk: &mut D,
    names: &RunNames<'_>,
    runner: &mut R,
    ports: &[u128],
) -> Result<Counts, Stop>
    requires work { R.done runner.old ≡ 0 }
    requires ports { All IsPort ports.now }
    requires sent_there { (D.view desk.old).told names.now.sent.now ≡ Some None → ⊥ }
    requires report_there { (D.view desk.old).told names.now.report.now ≡ Some None → ⊥ }
    ensures moves { Moves (names.now.sent.now ∷ names.now.report.now ∷ []) (D.view desk.old) (D.view desk.new) }
    ensures gives { (file : Option (List ℕ)) → (D.view desk.old).told names.now.capture.now ≡ Some file
        → Delivers (reports_over (R.end_lines (R.setting runner.old)) (run_of (R.outcome (R.setting runner.old)) (R.store runner.old)) ports.now file) result ((D.view desk.old).told names.now.sent.now) ((D.view desk.new).told names.now.sent.now) ((D.view desk.old).told names.now.report.now) ((D.view desk.new).told names.now.report.now) }
    ensures known { OnOk result ((text : List ℕ) → (D.view desk.old).told names.now.capture.now ≡ Some (Some text) → All IsRecord (reading_of text).records) }
    ensures stops { IfErr result (λ e. StopsRun e) }
    ensures cause { Blames result (Rose ((D.view desk.old).reads names.now.capture.now) ((D.view desk.new).reads names.now.capture.now)
        ⊎ Rose ((D.view desk.old).writes names.now.sent.now) ((D.view desk.new).writes names.now.sent.now)
        ⊎ Rose ((D.view desk.old).writes names.now.report.now) ((D.view desk.new).writes names.now.report.now)) }
{
    if has_octet(desk, names.capture, CAPTURE_LIMIT)? {
        return Err(Stop::Limit(Limited::Capture));
    }
    let mut reader = RecordReader::new(alloc);
    let mut stream = Stream::new(alloc, ports);
    run_pieces(desk, names, runner, &mut reader, &mut stream)?;
    end_capture(&reader)?;
    end_report(alloc, desk, names.report, stream.counts, runner)?;
    Ok(stream.counts)
}
