// Whole files and lines, read, written and printed piece by piece.
ghost use Rattle.std.specs.Prelude.{◌≡◌};
ghost use Rattle.p4x_io.specs.declared.files.ReadFault.TheVariants.{Memory};

use std::alloc::AllocError;
use thiserror::Error;

mod calls;

pub use calls::{append_all, has_octet, print_all, read_file, say};

/// The most octets that one call reads or appends of a file: 65,536.
pub const PIECE: usize = 65536;

/// Why a whole file wasn't read.
#[derive(Clone, Copy, Debug, PartialEq, Eq, Drop, Error)]
pub enum ReadFault {
    /// The desk failed: the read count of the name rose.
    #[error("the file failed")]
    Failed,
    /// The file has more octets than the limit.
    #[error("the file is over its limit")]
    Limit,
    /// There was no memory left.
    #[error("out of memory")]
    Memory,
}

impl From<AllocError> for ReadFault {
    ghost from_gives = { λ _ e. e ≡ Memory };

    fn from(_error: AllocError) -> ReadFault {
        ReadFault::Memory
    }
}
