// A capture that is read whole.
ghost use Rattle.std.specs.Prelude.{All, IfOk};
ghost use Rattle.state_store.specs.Ports.{IsPort};
ghost use Rattle.fabric.specs.Numbers.{IsArrival};
ghost use Rattle.pcap_io.specs.Captures.{refusal, IsCapture};
ghost use Rattle.pcap_io.specs.Reader.{Answers};

use crate::arrivals::on_ports;
use crate::faults::CaptureFault;
use crate::ports::Ports;
use crate::progress::{close, read_on};
use fabric::Arrival;
use p4x_bits::Rows;
use std::alloc::Global;
use std::collections::VecDeque;

/// What a capture holds.
#[derive(Drop)]
pub struct Capture {
    /// The link type of its file header.
    pub link: u32,
    /// Whether its fractions are nanoseconds; else they are microseconds.
    pub nano: bool,
    /// Its packets in order.
    pub arrivals: Rows<Arrival>,
}

/// Reads a whole capture. Its i-th packet comes in on the i-th port, and on port 0 where there are fewer
/// ports; ports left over are ignored.
///
/// It is refused exactly where it breaks a rule, with the first of K1 to K5 that it breaks.
pub fn read_capture(alloc: Global, octets: &[u8], ports: &Ports) -> Result<Capture, CaptureFault>
    requires { All IsPort ports.now.list }
    ensures is { IfOk result (λ capture.
        IsCapture octets.now ports.now.list capture.link capture.nano capture.arrivals) }
    ensures refuses { Answers (refusal octets.now) result }
    ensures fits { IfOk result (λ capture. All IsArrival capture.arrivals) }
{
    let mut records = VecDeque::new(alloc);
    let progress = read_on(alloc, None, octets, &mut records)?;
    let (_, left) = octets.split_at(progress.used);
    let head = match close(progress.head, progress.fault, left) {
        Ok(head) => head,
        Err(fault) => return Err(CaptureFault::Refused(fault)),
    };
    let arrivals = on_ports(alloc, records, ports.list.as_slice())?;
    Ok(Capture {
        link: head.link,
        nano: head.nano,
        arrivals,
    })
}
