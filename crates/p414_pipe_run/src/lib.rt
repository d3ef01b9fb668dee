//! The runner of P4_14 programs: the passes of packets through parser, controls and deparser, and the run of a program on a list of
//! packets.
#![tactic(auto)]

mod ends;
mod held;
mod laws;
mod passes;
mod ready;
mod run;

pub use held::Held14;
pub use laws::packed_runs_as_the_program;
pub use passes::Passes14;
pub use ready::{ReadyProgram14, ready_program14};
pub use run::run14;
