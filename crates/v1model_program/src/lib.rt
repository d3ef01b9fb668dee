//! P4_16 programs made ready to run packets, with entries that fit: what is ready runs exactly the program.
#![tactic(auto)]

mod law;
mod program;
mod run;

pub use law::ready_blocks_do;
pub use program::{frame_layout16, ready_program16};
pub use run::run16;
