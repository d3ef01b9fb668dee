//! What `p4x` tells the person at the terminal beside the printed line. It is outside of every contract.
#![tactic(auto)]

mod advice;
mod heard;
mod rules;

pub use advice::{Advice, advice_on};
pub use heard::Heard;
