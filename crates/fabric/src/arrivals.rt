// Packets that come in one after another.
ghost use Rattle.std.specs.Prelude.{◌≡◌, ◌%◌, ◌^◌, ◌++◌, All, map, IfOk, OnOk};
ghost use Rattle.state_store.specs.Ports.{AreSessions};
ghost use Rattle.fabric.specs.Numbers.{IsBound, HasPort};
ghost use Rattle.fabric.specs.Fabric.{fabric_of, numbered};

use crate::calls::Passes;
use crate::fates::serve;
use crate::packets::{Arrival, Out, Sent};
use p4x_bits::{OutOfMemory, Rows};
use state_store::Session;
use std::alloc::Global;

/// What comes of a list of arrivals, beside what the passes keep.
#[derive(Drop)]
pub struct Total {
    /// What was sent, in order.
    pub sent: Rows<Sent>,
    /// How many items the bound on passes cut, modulo 2^64.
    pub cut: u64,
}

/// Puts what was sent for the arrival of this number behind what was sent before.
fn add_sent(sent: &mut Rows<Sent>, arrival: u64, outs: Rows<Out>) -> Result<(), OutOfMemory>
    ensures { OnOk result (sent.new ≡ sent.old ++ map (numbered arrival) outs) }
{
    for out in outs.into_vec() {
        sent.push(Sent {
            arrival,
            port: out.port,
            octets: out.octets,
        })?;
    }
    Ok(())
}

/// What becomes of packets that come in one after another, each with at most `bound` passes for itself and all that
/// comes of it. Each finds the passes as the one before it left them. Arrivals are numbered from 0.
///
/// # Errors
/// It fails for want of memory alone, and then the passes are not used again.
pub fn serve_all<P: Passes>(
    alloc: Global,
    passes: &mut P,
    sessions: &[Session],
    arrivals: &[Arrival],
    bound: u32,
) -> Result<Total, OutOfMemory>
    requires sessions { AreSessions sessions.now }
    requires from { All HasPort arrivals.now }
    requires bound { IsBound bound }
    ensures setting { OnOk result (P.setting passes.new ≡ P.setting passes.old) }
    ensures state { OnOk result (P.state passes.new ≡ (fabric_of (P.machine (P.setting passes.old)) sessions.now bound (P.state passes.old) arrivals.now).state) }
    ensures sent { IfOk result (λ total. total.sent ≡ (fabric_of (P.machine (P.setting passes.old)) sessions.now bound (P.state passes.old) arrivals.now).sent) }
    ensures cut { IfOk result (λ total. total.cut ≡ (fabric_of (P.machine (P.setting passes.old)) sessions.now bound (P.state passes.old) arrivals.now).cut % 2 ^ 64) }
{
    let mut sent = Rows::new(alloc);
    let mut cut: u64 = 0;
    for (number, arrival) in arrivals.iter().enumerate() {
        let fate = serve(alloc, passes, sessions, arrival, bound)?;
        add_sent(&mut sent, number as u64, fate.sent)?;
        cut = cut.wrapping_add(fate.cut);
    }
    Ok(Total { sent, cut })
}
