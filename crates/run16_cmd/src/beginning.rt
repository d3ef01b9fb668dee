// What the work has before anything is written.
use match_core::{Entries, Signature};
use p4x_bits::Numbers;
use p416_program::Program16;
use v1_core::FrameLayout;

/// What is known of a program by itself.
pub struct Known {
    /// Its signature.
    pub signature: Signature,
    /// The parts of its frames.
    pub layout: FrameLayout,
}

impl Drop for Known {
    fn drop(self) {
        let Known {
            signature: _signature,
            layout: _layout,
        } = self;
    }
}

/// What the work has before anything is written: the program with what is known of it, what fills its tables, and the ports that packets
/// come in on.
pub struct Beginning {
    /// The program.
    pub program: Program16,
    /// What is known of it.
    pub known: Known,
    /// What fills its tables.
    pub entries: Entries,
    /// The ports that packets come in on.
    pub ports: Numbers,
}

impl Drop for Beginning {
    fn drop(self) {
        let Beginning {
            program: _program,
            known: _known,
            entries: _entries,
            ports: _ports,
        } = self;
    }
}
