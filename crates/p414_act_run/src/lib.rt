//! The actions of a P4_14 program, run on the state of a packet and on the stores, under the sequential and the parallel rule.
#![tactic(auto)]

mod calculations;
mod effect;
mod effects;
mod falls;
mod fields;
mod fits;
mod hashes;
mod making;
mod program;
mod run;
mod sources;
mod terms;

pub use calculations::{Algorithm, Calculations, ReadyCalculation};
pub use fields::{bits_of, is_live, put, read};
pub use fits::fit_all;
pub use program::{act14, calculations14, ready14};
pub use run::act_ready;
