//! Which slots of a packet's frame its passes read and write by themselves, under a P4_16 program: fields of the standard metadata,
//! and the metadata with the field lists that preserve each of its slots.
#![tactic(auto)]

mod find;
mod lists;
mod slots;
mod structs;

pub use find::pass_slots;
pub use slots::{PassSlots, SlotLists, Slots, StandardSlots};
