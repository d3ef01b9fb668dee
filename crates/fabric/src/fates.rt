// The queue of one packet, and its passes.
ghost use Rattle.std.specs.Prelude.{◌≡◌, ◌++◌, ◌∷◌, [], IfOk, OnOk};
ghost use Rattle.state_store.specs.Ports.{IsPort, AreSessions};
ghost use Rattle.fabric.specs.declared.items.Job.TheVariants.{Ordinary};
ghost use Rattle.fabric.specs.Numbers.{IsBound};
ghost use Rattle.fabric.specs.Fabric.{port_of, clone_of, ingress_clones, egress_clones, resubmitted, after_egress, after_ingress, pass, fabric};
ghost use Rattle.fabric.specs.Owned.{IsOwnItem, IsOwnIngressNext};
ghost use Rattle.fabric.specs.Queue.{run, send_first};
ghost use Rattle.fabric.specs.internal.Progress.{IsOwnJob, Leaves, left_at};
ghost use Rattle.std.specs.List.{AllByRecursion};

use crate::calls::Passes;
use crate::items::{EgressNext, IngressNext, Item, Job};
use crate::packets::{Arrival, Fate, Out};
use crate::queue::Queue;
use p4x_bits::{Octets, OutOfMemory, Rows};
use state_store::Session;
use std::alloc::Global;
use std::mem::replace;

/// What the passes of a packet so far left: the items that wait, and what was sent.
#[derive(Drop)]
struct Progress<J: Drop> {
    queue: Queue<J>,
    sent: Rows<Out>,
}

/// The port of the session of this number, None exactly where no session has it.
fn port_of(sessions: &[Session], number: u32) -> Option<u16>
    ensures { result ≡ port_of sessions.now number }
{
    for session in sessions {
        if session.number == number {
            return Some(session.port);
        }
    }
    None
}

/// The clone that is made of a request: the port of its session, and what is cloned. None where none was asked for, and
/// where the session is unknown.
fn clone_of<X: Drop>(sessions: &[Session], asked: Option<(u32, X)>) -> Option<(u16, X)>
    ensures { result ≡ clone_of sessions.now asked }
{
    let (number, what) = asked?;
    let port = port_of(sessions, number)?;
    Some((port, what))
}

/// Queues the clone that is made at the end of ingress, if any. It takes the octets where it is made, and else leaves them.
fn queue_ingress_clone<Q: Drop, H: Drop>(
    alloc: Global,
    queue: &mut Queue<Job<Q, H>>,
    octets: &mut Octets,
    from: u16,
    clone: Option<(u16, Q)>,
) -> Result<(), OutOfMemory>
    ensures { OnOk result (queue.new ≡ queue.old ++ ingress_clones octets.old from clone) }
{
    if let Some((port, kept)) = clone {
        let came = Item {
            octets: replace(octets, Octets::new(alloc)),
            port: from,
            instance: 1,
            kept,
        };
        queue.push(Job::IngressClone(port, came))?;
    }
    Ok(())
}

/// Queues the clone that is made at the end of egress, if any.
fn queue_egress_clone<Q: Drop, H: Drop>(
    queue: &mut Queue<Job<Q, H>>,
    clone: Option<(u16, H)>,
) -> Result<(), OutOfMemory>
    ensures { OnOk result (queue.new ≡ queue.old ++ egress_clones clone) }
{
    if let Some((port, held)) = clone {
        queue.push(Job::EgressClone(port, held))?;
    }
    Ok(())
}

/// Ends the pass of an item that is resubmitted: queues the clone that is made at the end of ingress, if any, and behind
/// it the item with what is preserved now. The octets are taken, and copied only where both need them.
fn end_resubmitted<Q: Drop, H: Drop>(
    alloc: Global,
    queue: &mut Queue<Job<Q, H>>,
    came: &mut Item<Q>,
    from: u16,
    clone: Option<(u16, Q)>,
    kept: Q,
) -> Result<(), OutOfMemory>
    ensures { OnOk result (queue.new ≡ queue.old ++ (ingress_clones came.old.octets from clone ++ resubmitted came.old.octets from kept ∷ [])) }
{
    if clone.is_some() {
        let mut copied = Octets::from_slice(alloc, came.octets.as_slice())?;
        queue_ingress_clone(alloc, queue, &mut copied, from, clone)?;
    }
    queue.push(Job::Ordinary(Item {
        octets: replace(&mut came.octets, Octets::new(alloc)),
        port: from,
        instance: 6,
        kept,
    }))
}

/// Ends the pass of an item that ingress dropped: queues the clone that is made at the end of ingress, if any. Its octets are left
/// where none is made.
fn end_dropped<Q: Drop, H: Drop>(
    alloc: Global,
    queue: &mut Queue<Job<Q, H>>,
    came: &mut Item<Q>,
    from: u16,
    clone: Option<(u16, Q)>,
) -> Result<(), OutOfMemory>
    ensures { OnOk result (queue.new ≡ queue.old ++ ingress_clones came.old.octets from clone) }
{
    queue_ingress_clone(alloc, queue, &mut came.octets, from, clone)
}

/// Egress of what is held, and what comes of the packet after it.
fn make_egress<P: Passes>(
    passes: &mut P,
    progress: &mut Progress<Job<P::Kept, P::Held>>,
    sessions: &[Session],
    from: u16,
    held: P::Held,
    port: u16,
    instance: u32,
) -> Result<(), OutOfMemory>
    requires sessions { AreSessions sessions.now }
    requires from { IsPort from }
    requires port { IsPort port }
    requires own { (P.own (P.setting passes.old)).held held }
    ensures setting { OnOk result (P.setting passes.new ≡ P.setting passes.old) }
    ensures leaves { let ended = after_egress sessions.now from port ((P.machine (P.setting passes.old)).egress (P.state passes.old) held port instance) in
        OnOk result (Leaves (IsOwnJob (P.own (P.setting passes.old))) ended (P.state passes.new) progress.old progress.new) }
{
    let ended = passes.egress(held, port, instance)?;
    queue_egress_clone(&mut progress.queue, clone_of(sessions, ended.clone))?;
    match ended.end {
        EgressNext::Drop => {}
        EgressNext::Recirculate(octets, kept) => {
            progress.queue.push(Job::Ordinary(Item {
                octets,
                port: from,
                instance: 4,
                kept,
            }))?;
        }
        EgressNext::Send(octets) => {
            progress.sent.push(Out { port, octets })?;
        }
    }
    Ok(())
}

/// Parsing and ingress of an ordinary item, and what comes of it. Its octets are left where no item that is queued needs them.
fn make_ingress<P: Passes>(
    alloc: Global,
    passes: &mut P,
    progress: &mut Progress<Job<P::Kept, P::Held>>,
    sessions: &[Session],
    from: u16,
    came: &mut Item<P::Kept>,
) -> Result<(), OutOfMemory>
    requires sessions { AreSessions sessions.now }
    requires from { IsPort from }
    requires own { IsOwnItem (P.own (P.setting passes.old)) came.old }
    ensures setting { OnOk result (P.setting passes.new ≡ P.setting passes.old) }
    ensures leaves { let ended = pass (P.machine (P.setting passes.old)) sessions.now from (P.state passes.old) (Ordinary came.old) in
        OnOk result (Leaves (IsOwnJob (P.own (P.setting passes.old))) ended (P.state passes.new) progress.old progress.new) }
{
    let ended = passes.ingress(came)?;
    let clone = clone_of(sessions, ended.clone);
    match ended.next {
        IngressNext::Resubmit(kept) => {
            end_resubmitted(alloc, &mut progress.queue, came, from, clone, kept)?;
        }
        IngressNext::Drop => end_dropped(alloc, &mut progress.queue, came, from, clone)?,
        IngressNext::Go(port, held) => {
            let instance = came.instance;
            end_dropped(alloc, &mut progress.queue, came, from, clone)?;
            make_egress(passes, progress, sessions, from, held, port, instance)?;
        }
    }
    Ok(())
}

/// One pass, of what was taken from the queue.
fn make_pass<P: Passes>(
    alloc: Global,
    passes: &mut P,
    progress: &mut Progress<Job<P::Kept, P::Held>>,
    sessions: &[Session],
    from: u16,
    job: Job<P::Kept, P::Held>,
) -> Result<(), OutOfMemory>
    requires sessions { AreSessions sessions.now }
    requires from { IsPort from }
    requires own { IsOwnJob (P.own (P.setting passes.old)) job }
    ensures setting { OnOk result (P.setting passes.new ≡ P.setting passes.old) }
    ensures leaves { let ended = pass (P.machine (P.setting passes.old)) sessions.now from (P.state passes.old) job in
        OnOk result (Leaves (IsOwnJob (P.own (P.setting passes.old))) ended (P.state passes.new) progress.old progress.new) }
{
    match job {
        Job::Ordinary(came) => {
            let mut came = came;
            make_ingress(alloc, passes, progress, sessions, from, &mut came)
        }
        Job::IngressClone(port, came) => {
            let held = passes.reparse(&came)?;
            make_egress(passes, progress, sessions, from, held, port, came.instance)
        }
        Job::EgressClone(port, held) => {
            make_egress(passes, progress, sessions, from, held, port, 2)
        }
    }
}

/// The passes of what waits, and of what these passes queue, at most `most` of them. What still waits then stays in the queue.
#[inline(never)]
fn make_passes<P: Passes>(
    alloc: Global,
    passes: &mut P,
    progress: &mut Progress<Job<P::Kept, P::Held>>,
    sessions: &[Session],
    from: u16,
    most: u32,
) -> Result<(), OutOfMemory>
    requires sessions { AreSessions sessions.now }
    requires from { IsPort from }
    requires jobs { AllByRecursion (IsOwnJob (P.own (P.setting passes.old))) progress.old.queue }
    ensures setting { OnOk result (P.setting passes.new ≡ P.setting passes.old) }
    ensures runs { OnOk result (send_first progress.old.sent (run (pass (P.machine (P.setting passes.old)) sessions.now from) most (P.state passes.old) progress.old.queue) ≡ left_at (P.state passes.new) progress.new) }
{
    let mut left = most;
    while left > 0 {
        match progress.queue.pop() {
            None => break,
            Some(job) => {
                left -= 1;
                make_pass(alloc, passes, progress, sessions, from, job)?;
            }
        }
    }
    Ok(())
}

/// The passes of what waits, as [`make_passes`] makes them; most often nothing does.
fn make_rest<P: Passes>(
    alloc: Global,
    passes: &mut P,
    progress: &mut Progress<Job<P::Kept, P::Held>>,
    sessions: &[Session],
    from: u16,
    most: u32,
) -> Result<(), OutOfMemory>
    requires sessions { AreSessions sessions.now }
    requires from { IsPort from }
    requires jobs { AllByRecursion (IsOwnJob (P.own (P.setting passes.old))) progress.old.queue }
    ensures setting { OnOk result (P.setting passes.new ≡ P.setting passes.old) }
    ensures runs { OnOk result (send_first progress.old.sent (run (pass (P.machine (P.setting passes.old)) sessions.now from) most (P.state passes.old) progress.old.queue) ≡ left_at (P.state passes.new) progress.new) }
{
    if progress.queue.is_empty() {
        return Ok(());
    }
    make_passes(alloc, passes, progress, sessions, from, most)
}

/// A list of what was sent, emptied: the room of one that isn't used any more.
fn emptied(alloc: Global, sent: &mut Rows<Out>) -> Rows<Out>
    ensures { result ≡ [] }
{
    let mut emptied = replace(sent, Rows::new(alloc));
    emptied.clear();
    emptied
}

/// What becomes of a packet that comes in: its passes, and those of all that comes of it, at most `bound` of them. What
/// still waits then is cut. The fate stands in the place of another one, whatever that was, and in its room.
///
/// The octets of the arrival are moved, and copied only where a clone and a resubmitted packet both need them. Behind it
/// the arrival has octets of no account, for the memory that they have. The first pass is made without the queue.
///
/// # Errors
/// It fails for want of memory alone, and then the passes are not used again.
pub fn serve_into<P: Passes>(
    alloc: Global,
    passes: &mut P,
    sessions: &[Session],
    arrival: &mut Arrival,
    bound: u32,
    fate: &mut Fate,
) -> Result<(), OutOfMemory>
    requires sessions { AreSessions sessions.now }
    requires from { IsPort arrival.old.port }
    requires bound { IsBound bound }
    ensures setting { OnOk result (P.setting passes.new ≡ P.setting passes.old) }
    ensures fate { OnOk result (fabric (P.machine (P.setting passes.old)) sessions.now bound (P.state passes.old) arrival.old ≡ record { state = P.state passes.new; sent = fate.new.sent; cut = fate.new.cut }) }
    ensures port { arrival.new.port ≡ arrival.old.port }
    ensures seconds { arrival.new.seconds ≡ arrival.old.seconds }
    ensures fraction { arrival.new.fraction ≡ arrival.old.fraction }
{
    let kept = passes.nothing()?;
    let from = arrival.port;
    let mut came = Item {
        octets: replace(&mut arrival.octets, Octets::new(alloc)),
        port: from,
        instance: 0,
        kept,
    };
    let mut progress = Progress {
        queue: Queue::new(alloc),
        sent: emptied(alloc, &mut fate.sent),
    };
    make_ingress(alloc, passes, &mut progress, sessions, from, &mut came)?;
    make_rest(alloc, passes, &mut progress, sessions, from, bound - 1)?;
    arrival.octets = came.octets;
    fate.cut = progress.queue.count();
    fate.sent = progress.sent;
    Ok(())
}

/// What becomes of a packet that comes in, as [`serve_into`] says, of a copy of its octets.
///
/// # Errors
/// It fails for want of memory alone, and then the passes are not used again.
pub fn serve<P: Passes>(
    alloc: Global,
    passes: &mut P,
    sessions: &[Session],
    arrival: &Arrival,
    bound: u32,
) -> Result<Fate, OutOfMemory>
    requires sessions { AreSessions sessions.now }
    requires from { IsPort arrival.now.port }
    requires bound { IsBound bound }
    ensures setting { OnOk result (P.setting passes.new ≡ P.setting passes.old) }
    ensures fate { IfOk result (λ fate. fabric (P.machine (P.setting passes.old)) sessions.now bound (P.state passes.old) arrival.now ≡ record { state = P.state passes.new; sent = fate.sent; cut = fate.cut }) }
{
    let mut copied = Arrival {
        octets: Octets::from_slice(alloc, arrival.octets.as_slice())?,
        port: arrival.port,
        seconds: arrival.seconds,
        fraction: arrival.fraction,
    };
    let mut fate = Fate::new(alloc);
    serve_into(alloc, passes, sessions, &mut copied, bound, &mut fate)?;
    Ok(fate)
}
