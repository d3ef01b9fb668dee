// The run of packets one after another.
ghost use Rattle.std.specs.Prelude.{◌≡◌, ℕ, ◌%◌, ◌^◌, List, [], ◌∷◌, ◌++◌, length, All, IfOk, OnOk};
ghost use Rattle.state_store.specs.Ports.{IsPort, AreSessions};
ghost use Rattle.match_core.specs.Stores.{first_store};
ghost use Rattle.fabric.specs.Numbers.{IsBound, HasPort};
ghost use Rattle.fabric.specs.declared.packets.Arrival.{Arrival as Came};
ghost use Rattle.fabric.specs.Fabric.{fabric};
ghost use Rattle.v1_core.specs.Surroundings.{Setting};
ghost use Rattle.v1_core.specs.Signatures.{signature16};
ghost use Rattle.v1_core.specs.Runs.{Run16, Work16, machine16, before};
ghost use Rattle.v1_passes.specs.Runs.{between_of, run_on};

use crate::blocks::Blocks;
use crate::passes::Passes16;
use fabric::{Arrival, Fate, RunResult, serve, serve_all, serve_into};
use p4x_bits::OutOfMemory;
use state_store::{Session, Store};
use std::alloc::Global;

/// A program that runs on one packet after another. After want of memory it isn't used again.
#[derive(Drop)]
pub struct Runner16<'r, B: Blocks<'r> + Drop> {
    alloc: Global,
    /// The passes.
    pub passes: Passes16<'r, B>,
    /// The clone sessions.
    pub sessions: &'r [Session],
    /// How many passes a packet and all that comes of it make at most, 1 to 65,536.
    pub bound: u32,
}

impl<'r, B: Blocks<'r> + Drop> Runner16<'r, B> {
    /// The program over these blocks, with these clone sessions, where a packet and all that comes of it make at most so many
    /// passes.
    pub fn new(alloc: Global, blocks: B, sessions: &'r [Session], bound: u32) -> Self
        ensures blocks { result.passes.blocks ≡ blocks }
        ensures work { result.passes.work ≡ 0 }
        ensures events { result.passes.events ≡ [] }
        ensures sessions { result.sessions.now ≡ sessions.now }
        ensures bound { result.bound ≡ bound }
    {
        Runner16 {
            alloc,
            passes: Passes16::new(alloc, blocks),
            sessions,
            bound,
        }
    }

    /// A packet comes in, on a port from 0 to 510: it makes its passes, and so does what comes of it. It gives what was sent and how
    /// many items were cut.
    ///
    /// # Errors
    /// It fails for want of memory alone, and then the runner isn't used again.
    #[tactic(auto, using(crate::proofs::Twins::one_fate))]
    pub fn one(&mut self, arrival: &Arrival) -> Result<Fate, OutOfMemory>
        requires sessions { AreSessions self.old.sessions.now }
        requires bound { IsBound self.old.bound }
        requires port { IsPort arrival.now.port }
        ensures setting { OnOk result (B.setting self.new.passes.blocks ≡ B.setting self.old.passes.blocks) }
        ensures sessions { self.new.sessions.now ≡ self.old.sessions.now }
        ensures bound { self.new.bound ≡ self.old.bound }
        ensures fate { IfOk result (λ fate. fabric (machine16 (B.setting self.old.passes.blocks)) self.old.sessions.now self.old.bound (between_of (B.store self.old.passes.blocks) self.old.passes.work self.old.passes.events) arrival.now ≡ record { state = between_of (B.store self.new.passes.blocks) self.new.passes.work self.new.passes.events; sent = fate.sent; cut = fate.cut }) }
    {
        let fate = serve(
            self.alloc,
            &mut self.passes,
            self.sessions,
            arrival,
            self.bound,
        )?;
        Ok(fate)
    }

    /// The same, put in the place of what came of another packet, whatever that was, and in its room. The octets of the arrival are
    /// taken: behind it others stand there, of no account but for the memory that they have.
    ///
    /// # Errors
    /// It fails for want of memory alone, and then the runner isn't used again.
    pub fn one_into(&mut self, arrival: &mut Arrival, fate: &mut Fate) -> Result<(), OutOfMemory>
        requires sessions { AreSessions self.old.sessions.now }
        requires bound { IsBound self.old.bound }
        requires port { IsPort arrival.old.port }
        ensures setting { OnOk result (B.setting self.new.passes.blocks ≡ B.setting self.old.passes.blocks) }
        ensures sessions { self.new.sessions.now ≡ self.old.sessions.now }
        ensures bound { self.new.bound ≡ self.old.bound }
        ensures fate { OnOk result (fabric (machine16 (B.setting self.old.passes.blocks)) self.old.sessions.now self.old.bound (between_of (B.store self.old.passes.blocks) self.old.passes.work self.old.passes.events) arrival.old ≡ record { state = between_of (B.store self.new.passes.blocks) self.new.passes.work self.new.passes.events; sent = fate.new.sent; cut = fate.new.cut }) }
        ensures seconds { arrival.new.seconds ≡ arrival.old.seconds }
        ensures fraction { arrival.new.fraction ≡ arrival.old.fraction }
    {
        self.passes.reuse(fate.reclaim());
        serve_into(
            self.alloc,
            &mut self.passes,
            self.sessions,
            arrival,
            self.bound,
            fate,
        )?;
        Ok(())
    }

    /// The counters, registers and meters as the packets so far left them.
    pub fn store(&self) -> &Store
        ensures { result.now ≡ B.store self.now.passes.blocks }
    {
        self.passes.store()
    }

    /// How many statements and transitions began so far, modulo 2^64.
    pub fn work(&self) -> u64
        ensures { result ≡ self.now.passes.work }
    {
        self.passes.work()
    }
}

/// A run over one packet more is the run so far, and then what comes of the packet from the state that was left. So what
/// `Runner16::one` gives of one packet after another is what the run over all of them gives. It does nothing.
#[tactic(auto, using(crate::proofs::Twins::run_begins, crate::proofs::Twins::run_goes_on))]
pub fn one_packet_more()
    ensures begins { (c : Setting) (bound : ℕ) → Run16 c bound [] ≡ record { state = before c; sent = []; cut = 0 } }
    ensures goes_on { (c : Setting) (bound : ℕ) (arrivals : List Came) (arrival : Came) → Run16 c bound (arrivals ++ arrival ∷ []) ≡ run_on c bound (length arrivals) (Run16 c bound arrivals) arrival }
{}

/// What comes of a list of packets, over blocks whose counters and registers are 0 and whose meters have the colours of the
/// entries.
///
/// # Errors
/// It fails for want of memory alone.
#[tactic(auto, using(crate::proofs::Twins::all_fates))]
pub fn run_blocks<'r, B: Blocks<'r> + Drop>(
    alloc: Global,
    blocks: B,
    sessions: &[Session],
    bound: u32,
    arrivals: &[Arrival],
) -> Result<RunResult, OutOfMemory>
    requires sessions { AreSessions sessions.now }
    requires entries { (B.setting blocks).entries.sessions ≡ sessions.now }
    requires first { B.store blocks ≡ first_store (signature16 (B.setting blocks).syntax) (B.setting blocks).entries }
    requires bound { IsBound bound }
    requires from { All HasPort arrivals.now }
    ensures sent { IfOk result (λ run. run.sent ≡ (Run16 (B.setting blocks) bound arrivals.now).sent) }
    ensures store { IfOk result (λ run. run.store ≡ (Run16 (B.setting blocks) bound arrivals.now).state.store) }
    ensures cut { IfOk result (λ run. run.cut ≡ (Run16 (B.setting blocks) bound arrivals.now).cut % 2 ^ 64) }
    ensures work { IfOk result (λ run. run.work ≡ Work16 (B.setting blocks) bound arrivals.now) }
{
    let mut passes = Passes16::new(alloc, blocks);
    let total = serve_all(alloc, &mut passes, sessions, arrivals, bound)?;
    let work = passes.work();
    Ok(RunResult {
        sent: total.sent,
        store: passes.into_store(),
        cut: total.cut,
        work,
    })
}
