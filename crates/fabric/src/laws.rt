// Laws of the fabric, each as the contract of a function that does nothing.
ghost use Rattle.std.specs.Prelude.{◌≡◌, ℕ, ◌+◌, ◌*◌, ◌≤◌, List, ◌++◌, [], length, All};
ghost use Rattle.state_store.specs.declared.ports.Session.{Session};
ghost use Rattle.fabric.specs.declared.packets.Arrival.{Arrival};
ghost use Rattle.fabric.specs.declared.items.Event.{Event};
ghost use Rattle.fabric.specs.Fabric.{Machine, fabric, fabric_from, followed, raised};
ghost use Rattle.fabric.specs.Twins.{Fit, FitsSession, SamePasses, SameFates};
ghost use Rattle.fabric.specs.Traces.{SameEvents, SameTraces, Call, traced, trace};

use crate::calls::Passes;

/// Pairs of machines whose steps correspond.
pub trait Twins {
    // What names a pair.
    ghost Name: { Type 0 };

    ghost State: { Type 0 };

    ghost Kept: { Type 0 };

    ghost Held: { Type 0 };

    ghost OtherState: { Type 0 };

    ghost OtherKept: { Type 0 };

    ghost OtherHeld: { Type 0 };

    ghost first: { Name → Machine State Kept Held };

    ghost second: { Name → Machine OtherState OtherKept OtherHeld };

    // Which octets and ports are meant.
    ghost fit: { Fit };

    // Which states, preserved values and held values correspond.
    ghost same_state: { Name → State → OtherState → Type 0 };

    ghost same_kept: { Name → Kept → OtherKept → Type 0 };

    ghost same_held: { Name → Held → OtherHeld → Type 0 };

    // The events of the last call.
    ghost first_events: { State → List Event };

    ghost second_events: { OtherState → List Event };

    /// It does nothing.
    fn twins();

    ghost steps: { (name : Name) → SamePasses fit (same_state name) (same_kept name) (same_held name) (first name) (second name) };

    ghost events: { (name : Name) → SameEvents (same_state name) first_events second_events };
}

/// Twins send the same and cut as many, over every bound and every list of arrivals that fit, and are left in states that
/// correspond.
pub fn same_fates<T: Twins>()
    ensures { (name : T.Name) (sessions : List Session) → All (FitsSession T.fit) sessions → (s : T.State) (t : T.OtherState) → T.same_state name s t → SameFates T.fit (T.same_state name) sessions (T.first name) (T.second name) s t }
{}

/// Twins have the same traces, over every bound and every list of arrivals that fit.
pub fn same_traces<T: Twins>()
    ensures { (name : T.Name) (sessions : List Session) → All (FitsSession T.fit) sessions → (s : T.State) (t : T.OtherState) → T.same_state name s t → SameTraces T.fit sessions T.first_events T.second_events (T.first name) (T.second name) s t }
{}

/// To keep a trace changes nothing of the fate, and what is traced of a packet doesn't depend on what was traced before.
pub fn traced_fates<P: Passes>()
    ensures { (setting : P.Setting) (sessions : List Session) (bound : ℕ) (state : P.State) (before : List Call) (arrival : Arrival) →
        fabric (traced P.events_of (P.machine setting)) sessions bound (state, before) arrival
        ≡ (let fate = fabric (P.machine setting) sessions bound state arrival in
        record { state = (fate.state, before ++ (trace P.events_of (P.machine setting) sessions bound state arrival).calls); sent = fate.sent; cut = fate.cut }) }
{}

/// The run of two lists of arrivals, one behind the other, is the run of the first, and then the run of the second from
/// the state that the first left, with arrivals numbered on. And numbers of arrivals that begin later are those that
/// begin at 0, raised.
pub fn joined_arrivals<P: Passes>()
    ensures joined { (setting : P.Setting) (sessions : List Session) (bound number : ℕ) (state : P.State) (some more : List Arrival) →
        fabric_from (P.machine setting) sessions bound number state (some ++ more)
        ≡ (let first = fabric_from (P.machine setting) sessions bound number state some in
        followed first (fabric_from (P.machine setting) sessions bound (number + length some) first.state more)) }
    ensures raised { (setting : P.Setting) (sessions : List Session) (bound by number : ℕ) (state : P.State) (arrivals : List Arrival) →
        fabric_from (P.machine setting) sessions bound (by + number) state arrivals ≡ raised by (fabric_from (P.machine setting) sessions bound number state arrivals) }
{}

/// A packet gives no more packets than there are passes, since a pass sends at most one. No more items are cut than twice
/// the passes and one, since a pass takes one item and queues at most three.
pub fn few_packets<P: Passes>()
    ensures sent { (setting : P.Setting) (sessions : List Session) (bound : ℕ) (state : P.State) (arrival : Arrival) → length (fabric (P.machine setting) sessions bound state arrival).sent ≤ bound }
    ensures cut { (setting : P.Setting) (sessions : List Session) (bound : ℕ) (state : P.State) (arrival : Arrival) → (fabric (P.machine setting) sessions bound state arrival).cut ≤ 2 * bound + 1 }
{}
