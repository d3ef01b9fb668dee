// Why there is no order.
use thiserror::Error;

/// Why no order of a program's headers was found.
#[derive(Debug, PartialEq, Eq, Drop, Error)]
pub enum OrderFault {
    /// Memory ran out.
    #[error("out of memory")]
    Memory,
    /// No order of the instances keeps the order of each walk: two of them come before each other.
    #[error("two headers come before each other")]
    Cycle,
}
