// The run over a capture that is read in pieces.
ghost use Rattle.std.specs.Prelude.{◌≡◌, ◌+◌, ◌≤◌, ◌∷◌, ◌++◌, [], length, drop, codes, All, IfOk, OnOk};
ghost use Rattle.std.specs.Fmt.{decimal};
ghost use Rattle.state_store.specs.Ports.{IsPort};
ghost use Rattle.pcap_io.specs.Captures.{IsRecord};
ghost use Rattle.pcap_io.specs.Reader.{fed, rest_of};
ghost use Rattle.run_stream.specs.Reports.{count_lines, end_part};
ghost use Rattle.run_stream.specs.internal.Streams.{held_of, view_of, empty, headed_by, begun, with_out, with_outs, after_one, after_all, drained};

use crate::counts::Counts;
use crate::runner::Runner;
use fabric::{Arrival, Fate, Out};
use itoa::write_digits;
use p4x_bits::{Octets, OutOfMemory};
use p4x_fault::Fault;
use pcap_io::{Record, RecordReader, arrive, file_header, record_header};
use std::alloc::Global;

/// A run that goes on, with what it hasn't appended yet to the sent file and the report.
pub struct Stream<'a> {
    alloc: Global,
    /// The ports of the packets that are still to come.
    pub ports: &'a [u128],
    /// Whether the file header of the sent file was written.
    pub headed: bool,
    /// What came in, was sent and was cut so far.
    pub counts: Counts,
    /// What isn't appended yet to the sent file.
    pub sent: Vec<u8>,
    /// The lines that aren't appended yet to the report.
    pub report: Vec<u8>,
}

impl Drop for Stream<'_> {
    fn drop(self) {
        let Stream {
            alloc: _alloc,
            ports: _ports,
            headed: _headed,
            counts: _counts,
            sent: _sent,
            report: _report,
        } = self;
    }
}

impl<'a> Stream<'a> {
    /// A run before its first packet. It takes no memory.
    pub(crate) fn new(alloc: Global, ports: &'a [u128]) -> Stream<'a>
        ensures { held_of result ≡ empty ports.now }
    {
        Stream {
            alloc,
            ports,
            headed: false,
            counts: Counts {
                arrivals: 0,
                sent: 0,
                cut: 0,
            },
            sent: Vec::new(alloc),
            report: Vec::new(alloc),
        }
    }

    // Writes the file header as soon as that of the capture is known.
    fn begin(&mut self, reader: &RecordReader) -> Result<(), OutOfMemory>
        ensures begun { OnOk result (held_of self.new ≡ headed_by reader.now.head (held_of self.old)) }
        ensures ports { self.new.ports.now ≡ self.old.ports.now }
    {
        if self.headed {
            return Ok(());
        }
        if let (Some(link), Some(nano)) = (reader.link(), reader.nano()) {
            self.sent.extend_from_slice(&file_header(link, nano))?;
            self.headed = true;
        }
        Ok(())
    }

    // Writes the record and the line of a packet that leaves.
    fn send(&mut self, arrival: &Arrival, out: &Out) -> Result<(), OutOfMemory>
        ensures sent { OnOk result (held_of self.new ≡ with_out arrival.now out.now (held_of self.old)) }
        ensures ports { self.new.ports.now ≡ self.old.ports.now }
    {
        let octets = out.octets.as_slice();
        let port = out.port;
        let size = octets.len();
        let length = (size % 0x1_0000_0000) as u32;
        let header = record_header(arrival.seconds, arrival.fraction, length);
        self.sent.extend_from_slice(&header)?;
        self.sent.extend_from_slice(octets)?;
        put_line(&mut self.report, port, size)?;
        Ok(())
    }

    // Writes those of all packets that one arrival gives.
    fn send_all(&mut self, arrival: &Arrival, outs: &[Out]) -> Result<(), OutOfMemory>
        ensures sent { OnOk result (held_of self.new ≡ with_outs arrival.now outs.now (held_of self.old)) }
        ensures ports { self.new.ports.now ≡ self.old.ports.now }
    {
        for out in outs {
            self.send(arrival, out)?;
        }
        self.counts.sent = self.counts.sent.wrapping_add(outs.len() as u64);
        Ok(())
    }

    // A packet comes in on the next port and is run, and what comes of it stands where that of another one stood. Octets are handed
    // back, for the memory that they have.
    fn run<R: Runner>(
        &mut self,
        runner: &mut R,
        one: Record,
        fate: &mut Fate,
    ) -> Result<Octets, OutOfMemory>
        requires known { IsRecord one }
        requires ports { All IsPort self.old.ports.now }
        ensures setting { OnOk result (R.setting runner.new ≡ R.setting runner.old) }
        ensures ran { OnOk result (view_of self.new (R.store runner.new) (R.done runner.new) ≡ after_one (R.outcome (R.setting runner.old)) one (view_of self.old (R.store runner.old) (R.done runner.old))) }
        ensures ports { All IsPort self.new.ports.now }
    {
        let (came, behind) = arrive(one, self.ports);
        self.ports = behind;
        let mut arrival = came;
        runner.one(&mut arrival, fate)?;
        self.counts.arrivals = self.counts.arrivals.wrapping_add(1);
        self.counts.cut = self.counts.cut.wrapping_add(fate.cut);
        self.send_all(&arrival, fate.sent.as_slice())?;
        Ok(arrival.octets)
    }

    // The packets of all whole records come in that the reader has octets of.
    fn run_all<R: Runner>(
        &mut self,
        runner: &mut R,
        reader: &mut RecordReader,
    ) -> Result<(), OutOfMemory>
        requires ports { All IsPort self.old.ports.now }
        ensures setting { OnOk result (R.setting runner.new ≡ R.setting runner.old) }
        ensures ran { OnOk result (view_of self.new (R.store runner.new) (R.done runner.new) ≡ after_all (R.outcome (R.setting runner.old)) (rest_of reader.old).records (view_of self.old (R.store runner.old) (R.done runner.old))) }
        ensures taken { OnOk result (reader.new ≡ drained (rest_of reader.old)) }
        ensures known { OnOk result (All IsRecord (rest_of reader.old).records) }
        ensures ports { All IsPort self.new.ports.now }
    {
        let mut spare = Octets::new(self.alloc);
        let mut fate = Fate::new(self.alloc);
        'records: while let Some(one) = reader.next(spare)? {
            spare = self.run(runner, one, &mut fate)?;
        }
        Ok(())
    }

    /// Reads on through a piece of the capture, and runs each packet of which the whole record is there. It gives the rule that the capture
    /// breaks, where it breaks one of K2, K3 and K5, and fails for want of memory alone.
    pub(crate) fn feed<R: Runner>(
        &mut self,
        runner: &mut R,
        reader: &mut RecordReader,
        piece: &[u8],
    ) -> Result<Option<Fault>, OutOfMemory>
        requires ports { All IsPort self.old.ports.now }
        ensures setting { OnOk result (R.setting runner.new ≡ R.setting runner.old) }
        ensures ran { OnOk result (view_of self.new (R.store runner.new) (R.done runner.new) ≡ after_all (R.outcome (R.setting runner.old)) (fed reader.old piece.now).records (begun (fed reader.old piece.now).head (view_of self.old (R.store runner.old) (R.done runner.old)))) }
        ensures reads { OnOk result (reader.new ≡ drained (fed reader.old piece.now)) }
        ensures known { OnOk result (All IsRecord (fed reader.old piece.now).records) }
        ensures refused { IfOk result (λ refused. refused ≡ (fed reader.old piece.now).fault) }
        ensures ports { All IsPort self.new.ports.now }
    {
        reader.feed(piece)?;
        self.begin(reader)?;
        self.run_all(runner, reader)?;
        Ok(reader.fault())
    }
}

// Puts an octet in front of what stands from a place on, and gives its place.
fn put_octet(octet: u8, line: &mut [u8], end: usize) -> usize
    requires { (1 ≤ end) × (end ≤ length line.old) }
    ensures start { result + 1 ≡ end }
    ensures written { drop result line.new ≡ octet ∷ drop end line.old }
{
    line[end - 1] = octet;
    end - 1
}

// Writes the two numbers of a line and its line feed at the end of a buffer, and gives where they begin.
fn put_numbers(port: u16, size: u64, line: &mut [u8; 27]) -> usize
    ensures within { result ≤ 27 }
    ensures written { drop result line.new ≡ decimal port ++ 32 ∷ (decimal size ++ 10 ∷ []) }
{
    let end = put_octet(b'\n', line, 27);
    let end = write_digits(size, line, end);
    let end = put_octet(b' ', line, end);
    write_digits(u64::from(port), line, end)
}

// Puts the line of a packet that leaves last.
#[tactic(auto, using(crate::proofs::Sending::line_is))]
fn put_line(report: &mut Vec<u8>, port: u16, size: usize) -> Result<(), OutOfMemory>
    ensures { OnOk result (report.new.items ≡ report.old.items ++ ((codes "sent " ++ decimal port) ++ (32 ∷ decimal size) ++ 10 ∷ [])) }
{
    let mut numbers = [0u8; 27];
    let start = put_numbers(port, size as u64, &mut numbers);
    report.extend_from_slice(b"sent ")?;
    report.extend_from_slice(&numbers[start..])?;
    Ok(())
}

/// The lines of how many packets came in and left, with which the end part of the report begins.
fn count_lines(alloc: Global, counts: Counts) -> Result<Octets, OutOfMemory>
    ensures { IfOk result (λ lines. lines ≡ count_lines counts.arrivals counts.sent counts.cut) }
{
    let Counts {
        arrivals,
        sent,
        cut,
    } = counts;
    let lines = format!(in alloc; "in {arrivals}\nout {sent}\ncut {cut}\n")?;
    let lines = Octets::from_slice(alloc, lines.as_bytes())?;
    Ok(lines)
}

/// The end part of the report of a run with these counts.
pub(crate) fn end_part<R: Runner>(
    alloc: Global,
    counts: Counts,
    runner: &R,
) -> Result<Octets, OutOfMemory>
    ensures { IfOk result (λ part. part ≡ end_part counts.arrivals counts.sent counts.cut (R.end_lines (R.setting runner.now) (R.store runner.now) (R.done runner.now))) }
{
    let mut part = count_lines(alloc, counts)?;
    runner.put_end_lines(alloc, &mut part)?;
    Ok(part)
}
