// How many packets came in and were sent, and how many items were cut.

/// How many packets of a run came in and were sent, and how many items the bound on passes cut, each modulo
/// 2^64.
#[derive(Clone, Copy, PartialEq, Eq, Drop)]
pub struct Counts {
    /// The packets that came in.
    pub arrivals: u64,
    /// The packets that were sent.
    pub sent: u64,
    /// The items that were left in a queue when the bound on passes was reached.
    pub cut: u64,
}
