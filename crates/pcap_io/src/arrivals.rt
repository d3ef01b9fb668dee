// How the packets of records come in.
ghost use Rattle.std.specs.Prelude.{◌≡◌, drop, slice_get, All, IfOk};
ghost use Rattle.std.specs.Option.{unwrap_or};
ghost use Rattle.state_store.specs.Ports.{IsPort};
ghost use Rattle.fabric.specs.Numbers.{IsArrival};
ghost use Rattle.pcap_io.specs.Captures.{arrival_of, arrivals_of, IsRecord};

use crate::records::Record;
use fabric::Arrival;
use p4x_bits::{OutOfMemory, Rows};
use std::alloc::Global;
use std::collections::VecDeque;

/// The packet of a record, as it comes in on the first of the ports, each 0 to 510, and on port 0 where there is none; and
/// the ports behind the first, on which the packets of the records behind it come in. It takes no memory.
pub fn arrive(one: Record, ports: &[u128]) -> (Arrival, &[u128])
    requires { All IsPort ports.now }
    ensures is { result.0 ≡ arrival_of ports.now one }
    ensures behind { result.1.now ≡ drop 1 ports.now }
    ensures ports { All IsPort result.1.now }
    ensures fits { IsRecord one → IsArrival result.0 }
{
    let (port, behind) = next_port(ports);
    let arrival = Arrival {
        octets: one.octets,
        port,
        seconds: one.seconds,
        fraction: one.fraction,
    };
    (arrival, behind)
}

/// The first of the ports, and 0 where there is none; and the ports behind it.
fn next_port(ports: &[u128]) -> (u16, &[u128])
    requires { All IsPort ports.now }
    ensures first { result.0 ≡ unwrap_or (slice_get ports.now 0) 0 }
    ensures fits { IsPort result.0 }
    ensures behind { result.1.now ≡ drop 1 ports.now }
    ensures ports { All IsPort result.1.now }
{
    match ports {
        [port, behind @ ..] => (*port as u16, behind),
        [] => (0, ports),
    }
}

/// The packets of records, each on its port.
pub(crate) fn on_ports(
    alloc: Global,
    records: VecDeque<Record>,
    ports: &[u128],
) -> Result<Rows<Arrival>, OutOfMemory>
    requires ports { All IsPort ports.now }
    requires records { All IsRecord records.items }
    ensures is { IfOk result (λ arrivals. arrivals ≡ arrivals_of ports.now records.items) }
    ensures fits { IfOk result (λ arrivals. All IsArrival arrivals) }
{
    let mut arrivals = Rows::new(alloc);
    let mut records = records;
    let mut ports = ports;
    'records: while let Some(one) = records.pop_front() {
        let (arrival, behind) = arrive(one, ports);
        arrivals.push(arrival)?;
        ports = behind;
    }
    Ok(arrivals)
}
