// What a P4_14 program of the one-table form does, by the steps of its meaning. It is slow: each header is taken apart into
// the numbers of its fields and put together again.
ghost use Rattle.std.specs.Prelude.{◌≡◌, ◌≤◌, length, sum, IfOk};
ghost use Rattle.p4x_bits.specs.BitLists.{IsOctets};
ghost use Rattle.state_store.specs.Ports.{drop_port};
ghost use Rattle.p4x_cmd.specs.Headers.{numbers_in, bits_in};
ghost use Rattle.command_examples.specs.Plain.{AreWidths, IsRun14};
ghost use Rattle.command_examples.specs.internal.Passes.{IsPass14};

use p4x_bits::{Bits, Octets, OutOfMemory, Rows};
use state_store::DROP_PORT;
use std::alloc::Global;

/// A packet that leaves.
#[derive(Drop)]
pub struct Leaving {
    /// The number of its arrival, from 0.
    pub arrival: u64,
    /// The port that it leaves on, from 0 to `GREATEST_PORT`.
    pub port: u16,
    /// The octets that leave.
    pub octets: Octets,
}

// The header's bits again, from the number of each field.
fn header_again(alloc: Global, widths: &[u8], packet: &Bits) -> Result<Bits, OutOfMemory>
    requires widths { AreWidths widths.now }
    requires fits { sum widths.now ≤ length packet.now }
    ensures { IfOk result (λ header. header ≡ bits_in widths.now (numbers_in widths.now packet.now)) }
{
    let mut header = Bits::new(alloc);
    let mut at = 0;
    for width in widths {
        header.push_number(*width, packet.read_field(at, *width))?;
        at += usize::from(*width);
    }
    Ok(header)
}

// How many bits the header has.
fn header_bits(widths: &[u8]) -> u64
    requires { sum widths.now ≤ 8192 }
    ensures { result ≡ sum widths.now }
{
    widths.iter().map(|width| u64::from(*width)).sum()
}

// The octets in a list of their own.
fn copied(alloc: Global, octets: &[u8]) -> Result<Octets, OutOfMemory>
    ensures same { IfOk result (λ list. list ≡ octets.now) }
    ensures octets { IsOctets octets.now }
{
    Octets::from_slice(alloc, octets)
}

// One packet: the octets that leave, or None where it is dropped.
fn pass14(
    alloc: Global,
    widths: &[u8],
    port: u16,
    octets: &[u8],
) -> Result<Option<Octets>, OutOfMemory>
    requires widths { AreWidths widths.now }
    requires port { port ≤ drop_port }
    ensures { IfOk result (IsPass14 widths.now port octets.now) }
{
    let bits = header_bits(widths);
    if (octets.len() as u128) * 8 < u128::from(bits) {
        return Ok(None);
    }
    let mut packet = Bits::new(alloc);
    packet.push_octets(octets)?;
    let header = header_again(alloc, widths, &packet)?;
    if port == DROP_PORT {
        return Ok(None);
    }
    let mut leaving = copied(alloc, header.as_octets())?;
    leaving.extend_from_slice(&octets[(bits / 8) as usize..])?;
    Ok(Some(leaving))
}

/// What a program whose header has fields of these widths, and which sends to this port, sends of these packets in order.
pub fn run14(
    alloc: Global,
    widths: &[u8],
    port: u16,
    packets: &[Octets],
) -> Result<Rows<Leaving>, OutOfMemory>
    requires widths { AreWidths widths.now }
    requires port { port ≤ drop_port }
    ensures { IfOk result (IsRun14 widths.now port packets.now) }
{
    let mut sent = Rows::new(alloc);
    for (number, packet) in packets.iter().enumerate() {
        if let Some(octets) = pass14(alloc, widths, port, packet.as_slice())? {
            sent.push(Leaving {
                arrival: number as u64,
                port,
                octets,
            })?;
        }
    }
    Ok(sent)
}
