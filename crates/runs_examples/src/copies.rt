// A list of packets in one call.
ghost use Rattle.std.specs.Prelude.{All, IfOk};
ghost use Rattle.fabric.specs.Numbers.{HasPort};

use crate::programs::{entries_of, program_of};
use fabric::Arrival;
use p4x_bits::{Octets, OutOfMemory};
use p414_body_check::Program14;
use p414_pipe_run::run14;
use p414_syntax::Rule14;
use std::alloc::Global;

/// Each packet leaves on port 3.
const PROGRAM: &[u8] = b"header_type eth_t { fields { a : 48; b : 48; c : 16; } }
header eth_t eth;
parser start { extract(eth); return ingress; }
action out3() { modify_field(standard_metadata.egress_spec, 3); }
table t { actions { out3; } default_action : out3(); } control ingress { apply(t); }
";

/// A packet.
const PACKET: [u8; 14] = [1, 2, 3, 4, 5, 6, 7, 8, 9, 10, 11, 12, 13, 14];

/// One that comes in on port 5.
fn arrival(alloc: Global) -> Result<Arrival, OutOfMemory>
    ensures { IfOk result HasPort }
{
    let octets = Octets::from_slice(alloc, &PACKET)?;
    Ok(Arrival {
        octets,
        port: 5,
        seconds: 0,
        fraction: 0,
    })
}

/// So many of them.
fn copies_of(alloc: Global, count: u32) -> Result<Vec<Arrival>, OutOfMemory>
    ensures { IfOk result (λ arrivals. All HasPort arrivals.items) }
{
    let mut arrivals = Vec::new(alloc);
    for made in 0..count {
        arrivals.push(arrival(alloc)?)?;
    }
    Ok(arrivals)
}

/// How many packets leave of so many copies.
fn sent_of(alloc: Global, program: &Program14, count: u32) -> Result<usize, OutOfMemory> {
    let arrivals = copies_of(alloc, count)?;
    match entries_of(alloc, program, b"") {
        Some(entries) => {
            let ran = run14(alloc, program, Rule14::Sequential, &entries, 256, &arrivals)?;
            Ok(ran.sent.len())
        }
        None => Ok(0),
    }
}

/// Whether each of ten thousand packets leaves.
fn each_leaves(alloc: Global) -> bool {
    match program_of(alloc, PROGRAM) {
        Some(program) => sent_of(alloc, &program, 10_000) == Ok(10_000),
        None => false,
    }
}

#[test]
fn each_of_ten_thousand_packets_leaves(rt: HostRuntime) {
    assert!(rt; each_leaves(rt.alloc()));
}
