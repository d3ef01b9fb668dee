// What a packet is run with besides its frame and the store, and how a run begins and ends.
ghost use Rattle.std.specs.Prelude.{◌≡◌, [], OnOk, IfOk};
ghost use Rattle.p4x_bits.specs.BitLists.{octet_bits, IsOctets};
ghost use Rattle.v1_core.specs.Cells.{AreWhole};
ghost use Rattle.v1_control_run.specs.internal.Runs.{begun_run, HasEnded};

use p4x_bits::{Bits, Octets, OutOfMemory, Rows};
use std::alloc::Global;
use v1_core::{Frame, FrameLayout};
use v1_parse_run::{ParserMachine, ParserRoom};
use v1_statement_run::Run;

/// What packets are run with whose frames have this layout, besides their frames and the store. Its room stays from packet to packet.
/// The one error is want of memory.
pub fn spare_machine<'r>(
    alloc: Global,
    layout: &'r FrameLayout,
) -> Result<ParserMachine<'r>, OutOfMemory>
    ensures { IfOk result (λ machine. machine.run.waiting.layout ≡ layout.now) }
{
    let waiting = Frame::of_layout(alloc, layout)?;
    let room = ParserRoom::with_capacity(alloc, 0)?;
    Ok(ParserMachine {
        parsed: 0,
        run: Run {
            waiting,
            emitted: Bits::new(alloc),
            work: 0,
            stopped: None,
            hit: None,
            values: Rows::new(alloc),
            list: Bits::new(alloc),
        },
        room,
    })
}

/// What holds of octets: each is one. It does nothing.
pub fn are_octets(octets: &[u8])
    ensures { IsOctets octets.now }
{
    let _ = octets;
}

/// The bits are those of these octets. For want of memory they are none.
fn put_bits(bits: &mut Bits, octets: &[u8]) -> Result<(), OutOfMemory>
    ensures put { OnOk result (bits.new ≡ octet_bits octets.now) }
    ensures are { IsOctets octets.now }
{
    bits.clear();
    if octets.is_empty() {
        return Ok(());
    }
    bits.push_octets(octets)
}

/// A run begins where these octets were emitted, with this count of work.
pub fn begin(run: &mut Run<'_>, emitted: &[u8], work: u64) -> Result<(), OutOfMemory>
    ensures begins { OnOk result (run.new ≡ begun_run (octet_bits emitted.now) work run.old) }
    ensures octets { IsOctets emitted.now }
    ensures waiting { AreWhole run.new.waiting }
{
    run.waiting.is_whole();
    put_bits(&mut run.emitted, emitted)?;
    run.work = work;
    run.stopped = None;
    run.hit = None;
    Ok(())
}

/// The list is these octets. For want of memory it is none.
fn put_octets(out: &mut Octets, octets: &[u8]) -> Result<(), OutOfMemory>
    ensures put { OnOk result (out.new ≡ octets.now) }
    ensures are { IsOctets octets.now }
{
    out.clear();
    if octets.is_empty() {
        return Ok(());
    }
    out.extend_from_slice(octets)
}

/// A run ended: the octets that it emitted. A run that is stopped, in which an action runs, or that emitted a part of an octet
/// counts as want of memory: no control of an accepted program leaves one.
#[tactic(auto, using(crate::proofs::Ending::all_bits))]
pub fn end(run: &Run<'_>, emitted: &mut Octets) -> Result<(), OutOfMemory>
    ensures { OnOk result (HasEnded run.now emitted.new) }
{
    if run.stopped.is_some() || run.hit.is_some() || run.emitted.len() % 8 != 0 {
        return Err(OutOfMemory);
    }
    put_octets(emitted, run.emitted.as_octets())
}

/// A run of the parser ended, which was stopped by nothing any more, in which no action runs, and that emitted nothing. Another one
/// counts as want of memory: no parser of an accepted program leaves one.
pub fn end_silently(run: &Run<'_>) -> Result<(), OutOfMemory>
    ensures { OnOk result (HasEnded run.now []) }
{
    if run.stopped.is_some() || run.hit.is_some() || !run.emitted.is_empty() {
        return Err(OutOfMemory);
    }
    Ok(())
}
