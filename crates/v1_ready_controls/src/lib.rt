//! The controls of a P4_16 program made ready: what they declare, their tables and their statements.
#![tactic(auto)]

mod control;
mod declared;
mod parts;
mod program;
mod singles;
mod whole;

pub use control::ready_control;
pub use program::ProgramParts;
pub use singles::InBlock;
