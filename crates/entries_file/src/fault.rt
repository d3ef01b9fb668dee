// Why an entries file gives no entries.
use p4x_bits::OutOfMemory;
use p4x_fault::Fault;
use std::alloc::AllocError;
use thiserror::Error;

/// Why an entries file gives no entries.
#[derive(Debug, PartialEq, Eq, Drop, Error)]
pub enum EntryFault {
    /// Memory ran out.
    #[error("out of memory")]
    Memory,
    /// A line breaks one of the rules E1 to E12. The place is the beginning of the line.
    #[error("a line of the entries file is refused")]
    Refused(Fault),
}

/// Why a line isn't taken.
#[derive(PartialEq, Eq, Drop)]
pub enum Stop {
    /// Memory ran out.
    Memory,
    /// The line breaks the rule with this number.
    Broken(u8),
}

impl From<OutOfMemory> for Stop {
    ghost use Rattle.std.specs.Prelude.{◌≡◌};
    ghost use Rattle.entries_file.specs.declared.fault.Stop.TheVariants.{Memory};

    ghost from_gives = { λ _ stop. stop ≡ Memory };

    fn from(_: OutOfMemory) -> Stop {
        Stop::Memory
    }
}

impl From<AllocError> for Stop {
    ghost use Rattle.std.specs.Prelude.{◌≡◌};
    ghost use Rattle.entries_file.specs.declared.fault.Stop.TheVariants.{Memory};

    ghost from_gives = { λ _ stop. stop ≡ Memory };

    fn from(_: AllocError) -> Stop {
        Stop::Memory
    }
}
