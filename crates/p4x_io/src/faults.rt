// The errors without fields.
use std::alloc::{AllocError, AllocFailed};
use thiserror::Error;

/// The outside failed: a file or the output couldn't be read, made or written.
#[derive(Clone, Copy, Debug, PartialEq, Eq, Drop, Error)]
#[error("a file or the output failed")]
pub struct Failed;

/// There was no memory left. The object that was called is as it was before.
#[derive(Clone, Copy, Debug, PartialEq, Eq, Drop, Error)]
#[error("out of memory")]
pub struct OutOfMemory;

impl From<AllocError> for OutOfMemory {
    fn from(_error: AllocError) -> OutOfMemory {
        OutOfMemory
    }
}

impl<T: Drop> From<AllocFailed<T>> for OutOfMemory {
    fn from(_error: AllocFailed<T>) -> OutOfMemory {
        OutOfMemory
    }
}
