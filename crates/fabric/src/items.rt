// The items that wait for a pass, and how a pass ends.
use p4x_bits::Octets;

/// An item of a packet's queue, but for a clone that is made at the end of egress.
///
/// `Q` is what a runner preserves of metadata from one pass to the next.
#[derive(Drop)]
pub struct Item<Q> {
    /// The octets that are parsed.
    pub octets: Octets,
    /// The port that the packet came in on, 0 to `state_store::GREATEST_PORT`.
    pub port: u16,
    /// What it is, as `standard_metadata.instance_type` tells: 0 for a packet that came in, 1 and 2 for
    /// clones made at the end of ingress and of egress, 4 for a recirculated packet, 6 for a resubmitted
    /// one.
    pub instance: u32,
    /// What is preserved of the metadata of the pass that made it.
    pub kept: Q,
}

/// What waits for a pass in a packet's queue.
///
/// `H` is what a runner holds of a packet between ingress and egress.
#[derive(Drop)]
pub enum Job<Q, H> {
    /// A packet that came in, or one that was resubmitted or recirculated: it is parsed and goes through
    /// ingress.
    Ordinary(Item<Q>),
    /// A clone made at the end of ingress, with the port of its session, 0 to `state_store::GREATEST_PORT`:
    /// it is parsed and goes to egress on that port.
    IngressClone(u16, Item<Q>),
    /// A clone made at the end of egress, with the port of its session, 0 to `state_store::GREATEST_PORT`: it
    /// goes to egress on that port.
    EgressClone(u16, H),
}

/// How parsing and ingress of an item end.
///
/// `H` is what a runner holds of a packet between ingress and egress.
#[derive(Drop)]
pub struct IngressEnd<Q, H> {
    /// The clone of the item's octets that was asked for: the number of its session, and what is preserved.
    pub clone: Option<(u32, Q)>,
    /// What comes of the item itself.
    pub next: IngressNext<Q, H>,
}

/// What comes of an item after ingress.
#[derive(Drop)]
pub enum IngressNext<Q, H> {
    /// Its octets are queued again, with what is preserved.
    Resubmit(Q),
    /// It is dropped.
    Drop,
    /// It goes on to egress on this port, 0 to `state_store::GREATEST_PORT`.
    Go(u16, H),
}

/// How egress of an item ends.
#[derive(Drop)]
pub struct EgressEnd<Q, H> {
    /// The clone of the packet as egress left it that was asked for: the number of its session, and the
    /// packet.
    pub clone: Option<(u32, H)>,
    /// What comes of the item itself.
    pub end: EgressNext<Q>,
}

/// What comes of an item after egress.
#[derive(Drop)]
pub enum EgressNext<Q> {
    /// It is dropped.
    Drop,
    /// The packet as it was put together is queued again, with what is preserved.
    Recirculate(Octets, Q),
    /// The packet as it was put together is sent.
    Send(Octets),
}

/// An application of a table. The numbers are those of the program's signature.
#[derive(Clone, Copy, PartialEq, Eq)]
pub struct Event {
    /// The table.
    pub table: u32,
    /// The entry that was hit, from 0 in the order of the table's entries; None exactly on a miss.
    pub entry: Option<u32>,
    /// The action that ran, by its number in the table; None exactly where no action ran.
    pub action: Option<u32>,
}

/// What a control can ask for beside the way of its packet. The last request of a kind in a control
/// counts.
#[derive(Clone, Copy, PartialEq, Eq)]
pub enum RequestKind {
    /// A clone of the octets as they came in, made at the end of ingress.
    CloneI2E,
    /// A clone of the packet as egress left it, made at the end of egress.
    CloneE2E,
    /// The octets as they came in take another pass.
    Resubmit,
    /// The packet as it was put together takes another pass.
    Recirculate,
}
