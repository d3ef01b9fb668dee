// The headers of a capture, as they are written.
ghost use Rattle.std.specs.Prelude.{◌≡◌, ◌≤◌, List, ◌++◌, length, map, All};
ghost use Rattle.std.specs.List.{flat_map};
ghost use Rattle.fabric.specs.declared.packets.Arrival.{Arrival};
ghost use Rattle.fabric.specs.Numbers.{IsArrival};
ghost use Rattle.pcap_io.specs.Captures.{longest_record, IsCapture};
ghost use Rattle.pcap_io.specs.Sent.{magic_of, file_header_of, record_header_of, arrival_bytes};

use crate::head::{MICRO_MAGIC, NANO_MAGIC};

/// The magic number of a file with nanoseconds or microseconds.
fn magic_of(nano: bool) -> u32
    ensures { result ≡ magic_of nano }
{
    if nano { NANO_MAGIC } else { MICRO_MAGIC }
}

/// The file header of a capture with this link type, and nanoseconds or microseconds. It takes no memory.
///
/// With the records of packets behind it, of at most `LONGEST_RECORD` octets each, it is a capture that is read as
/// exactly these packets (clause `read_back`).
#[tactic(auto, using(crate::proofs::Written::header_octets))]
pub fn file_header(link: u32, nano: bool) -> [u8; 24]
    ensures is { result ≡ file_header_of link nano }
    ensures read_back { (arrivals : List Arrival)
        → All IsArrival arrivals
        → All (λ arrival. length arrival.octets ≤ longest_record) arrivals
        → IsCapture (result ++ flat_map arrival_bytes arrivals) (map (λ arrival. arrival.port) arrivals)
        link nano arrivals }
{
    let magic = magic_of(nano);
    let [m0, m1, m2, m3] = magic.to_le_bytes();
    let [l0, l1, l2, l3] = link.to_le_bytes();
    [
        m0, m1, m2, m3, 2, 0, 4, 0, 0, 0, 0, 0, 0, 0, 0, 0, 0, 0, 4, 0, l0, l1, l2, l3,
    ]
}

/// The header of a record with these times and this length in octets, which is both the captured and the original
/// one. It takes no memory.
#[tactic(auto, using(crate::proofs::Written::record_octets))]
pub fn record_header(seconds: u32, fraction: u32, length: u32) -> [u8; 16]
    ensures { result ≡ record_header_of seconds fraction length }
{
    let [s0, s1, s2, s3] = seconds.to_le_bytes();
    let [f0, f1, f2, f3] = fraction.to_le_bytes();
    let [n0, n1, n2, n3] = length.to_le_bytes();
    [
        s0, s1, s2, s3, f0, f1, f2, f3, n0, n1, n2, n3, n0, n1, n2, n3,
    ]
}
