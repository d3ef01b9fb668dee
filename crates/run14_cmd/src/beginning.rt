// What the work has before anything is written.
use match_core::{Entries, Signature};
use p4x_bits::Numbers;
use p414_body_check::Program14;

/// What the work has before anything is written: the program with its signature, what fills its tables, and the ports that packets come in
/// on.
pub struct Beginning {
    /// The program.
    pub program: Program14,
    /// Its signature.
    pub signature: Signature,
    /// What fills its tables.
    pub entries: Entries,
    /// The ports that packets come in on.
    pub ports: Numbers,
}

impl Drop for Beginning {
    fn drop(self) {
        let Beginning {
            program: _program,
            signature: _signature,
            entries: _entries,
            ports: _ports,
        } = self;
    }
}
