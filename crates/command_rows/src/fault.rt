// Why the rows were not all run.
use p4x_io::{Failed, OutOfMemory};
use std::alloc::{AllocError, AllocFailed};
use std::io;

/// What is wrong, in words: a mistake in the rows, or a want of memory or a failure of the system.
#[derive(Clone, Copy, Drop)]
pub struct Fault {
    /// The words.
    pub words: &'static str,
}

impl Fault {
    /// The fault with these words.
    pub fn new(words: &'static str) -> Fault {
        Fault { words }
    }
}

const NO_MEMORY: Fault = Fault {
    words: "there was no memory left",
};

const NO_FILE: Fault = Fault {
    words: "a file or the output failed",
};

impl From<AllocError> for Fault {
    fn from(_error: AllocError) -> Fault {
        NO_MEMORY
    }
}

impl<T: Drop> From<AllocFailed<T>> for Fault {
    fn from(_error: AllocFailed<T>) -> Fault {
        NO_MEMORY
    }
}

impl From<OutOfMemory> for Fault {
    fn from(_error: OutOfMemory) -> Fault {
        NO_MEMORY
    }
}

impl From<Failed> for Fault {
    fn from(_error: Failed) -> Fault {
        NO_FILE
    }
}

impl From<io::Error> for Fault {
    fn from(_error: io::Error) -> Fault {
        NO_FILE
    }
}
