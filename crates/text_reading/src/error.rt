// Why a text isn't read.
ghost use Rattle.std.specs.Prelude.{◌≡◌};
ghost use Rattle.text_reading.specs.declared.error.ReadError.TheVariants.{Memory};
ghost use Rattle.text_reading.specs.internal.Machine.{from_lex};

use p4x_bits::OutOfMemory;
use p4x_fault::Fault;
use thiserror::Error;
use token_division::Lex;

/// Why a text isn't read.
#[derive(Debug, PartialEq, Eq, Drop, Error)]
pub enum ReadError {
    /// Memory ran out.
    #[error("out of memory")]
    Memory,
    /// The text breaks a rule of its tokens or its syntax at a place.
    #[error("the text can't be read")]
    Refused(Fault),
}

impl From<OutOfMemory> for ReadError {
    ghost from_gives = { λ _ error. error ≡ Memory };

    fn from(_: OutOfMemory) -> ReadError {
        ReadError::Memory
    }
}

impl From<Lex> for ReadError {
    ghost from_gives = { λ lex error. error ≡ from_lex lex };

    fn from(error: Lex) -> ReadError {
        match error {
            Lex::Memory => ReadError::Memory,
            Lex::Refused(fault) => ReadError::Refused(fault),
        }
    }
}
