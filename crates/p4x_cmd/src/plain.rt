// The written program as a runner of packets.
ghost use Rattle.std.specs.Prelude.{◌≡◌, ◌≤◌, ◌+◌, ◌%◌, ◌^◌, sum_by, OnOk};
ghost use Rattle.state_store.specs.State.{Contents};
ghost use Rattle.state_store.specs.Ports.{drop_port};
ghost use Rattle.fabric.specs.Numbers.{IsArrival};
ghost use Rattle.one_table_text.specs.declared.one_table.OneTable16.{OneTable16 as Program};
ghost use Rattle.run_stream.specs.Reports.{work_line};
ghost use Rattle.p4x_cmd.specs.internal.Plain.{plain_pass, own_outcome, no_store, outs_of, end_of, are_few, IsSized};

use fabric::{Arrival, Fate, Out};
use one_table_text::OneTable16;
use p4x_bits::{Octets, OutOfMemory};
use p414_one_table::Field;
use run_stream::{Runner, put_work_line};
use state_store::DROP_PORT;
use std::alloc::Global;
use std::mem::replace;

/// A program of the one-table form that runs packets, without entries.
#[derive(Drop)]
pub struct Plain<'a> {
    alloc: Global,
    program: &'a OneTable16,
    // How many bits its header has.
    bits: u64,
    // How many statements and transitions began so far, modulo 2^64.
    work: u64,
    ghost bits_are: { bits ≡ sum_by (λ f. f.width) program.now.fields },
    ghost sized: { IsSized program.now },
}

// How many bits the fields have together.
fn header_bits(fields: &[Field]) -> u64
    requires { sum_by (λ f. f.width) fields.now ≤ 8192 }
    ensures { result ≡ sum_by (λ f. f.width) fields.now }
{
    fields.iter().map(|field| field.width).sum()
}

// The port that a packet leaves on, if it does, and how many statements and transitions began. It is
// dropped where it is too short or the port drops, and else leaves as it came.
fn pass(bits: u64, port: u64, arrival: &Arrival) -> (Option<u16>, u64)
    requires bits { bits ≤ 8192 }
    requires port { port ≤ drop_port }
    ensures end { (plain_pass bits port arrival.now).end ≡ end_of result.0 arrival.now.octets }
    ensures work { (plain_pass bits port arrival.now).work ≡ result.1 }
{
    let octets = arrival.octets.len();
    if (octets as u128) * 8 < u128::from(bits) {
        (None, 3)
    } else if port == u64::from(DROP_PORT) {
        (None, 5)
    } else {
        (Some(port as u16), 6)
    }
}

// What leaves of a packet with these octets on this port: they are moved there, and others stand where they stood.
fn leave(
    alloc: Global,
    port: Option<u16>,
    octets: &mut Octets,
    fate: &mut Fate,
) -> Result<(), OutOfMemory>
    ensures sent { OnOk result (fate.new.sent ≡ outs_of (end_of port octets.old)) }
    ensures cut { OnOk result (fate.new.cut ≡ 0) }
{
    let room = fate.reclaim();
    fate.cut = 0;
    if let Some(port) = port {
        let octets = replace(octets, room.unwrap_or(Octets::new(alloc)));
        fate.sent.push(Out { port, octets })?;
    }
    Ok(())
}

impl<'a> Plain<'a> {
    /// The runner before its first packet. It takes no memory.
    pub(crate) fn new(alloc: Global, program: &'a OneTable16) -> Plain<'a>
        requires { IsSized program.now }
        ensures program { result.program.now ≡ program.now }
        ensures work { result.work ≡ 0 }
    {
        Plain {
            alloc,
            program,
            bits: header_bits(program.fields.as_slice()),
            work: 0,
        }
    }
}

impl<'a> Runner for Plain<'a> {
    ghost Setting = { Program };

    ghost setting = { λ plain. plain.program.now };

    ghost Store = { Contents };

    ghost outcome = { own_outcome };

    ghost store = { λ plain. no_store };

    ghost done = { λ plain. plain.work };

    fn one(&mut self, arrival: &mut Arrival, fate: &mut Fate) -> Result<(), OutOfMemory> {
        let (port, work) = pass(self.bits, self.program.port, arrival);
        self.work = self.work.wrapping_add(work);
        leave(self.alloc, port, &mut arrival.octets, fate)?;
        Ok(())
    }

    ghost end_lines = { λ program store work. work_line work };

    fn put_end_lines(&self, alloc: Global, into: &mut Octets) -> Result<(), OutOfMemory> {
        put_work_line(alloc, into, self.work)
    }

    ghost few = { are_few };
}
