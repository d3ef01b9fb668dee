//! What names of instances and fields of a P4_14 program mean by number, found without going through lists.
#![tactic(auto)]

mod fields;
mod numbers;
mod slot;
mod slots;

pub use numbers::{add_bits, low, narrow_number, narrow_width};
pub use slot::FieldSlot;
pub use slots::{Slots, element_number};
