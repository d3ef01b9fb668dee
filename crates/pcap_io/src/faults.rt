// Why a file isn't taken.
ghost use Rattle.std.specs.Prelude.{◌≡◌};

use p4x_bits::OutOfMemory;
use p4x_fault::Fault;
use thiserror::Error;

/// Why a capture isn't read.
#[derive(Clone, Copy, Debug, PartialEq, Eq, Error)]
pub enum CaptureFault {
    /// Memory ran out.
    #[error("out of memory")]
    Memory,
    /// The file breaks one of the rules K1 to K5.
    #[error("the capture is refused")]
    Refused(Fault),
}

impl From<OutOfMemory> for CaptureFault {
    ghost use Rattle.pcap_io.specs.declared.faults.CaptureFault.TheVariants as capture;

    ghost from_gives = { λ _ fault. fault ≡ capture.Memory };

    fn from(_: OutOfMemory) -> CaptureFault {
        CaptureFault::Memory
    }
}

/// Why a list of ports isn't read.
#[derive(Clone, Copy, Debug, PartialEq, Eq, Error)]
pub enum PortFault {
    /// Memory ran out.
    #[error("out of memory")]
    Memory,
    /// A line breaks rule P1 or P2.
    #[error("the list of ports is refused")]
    Refused(Fault),
}

impl From<OutOfMemory> for PortFault {
    ghost use Rattle.pcap_io.specs.declared.faults.PortFault.TheVariants as ports;

    ghost from_gives = { λ _ fault. fault ≡ ports.Memory };

    fn from(_: OutOfMemory) -> PortFault {
        PortFault::Memory
    }
}
