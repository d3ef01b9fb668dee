//! The field lists of a P4_14 program, ready for packets: expanded, with their fields by number. The bits of a list are those
//! of its items in a packet's state, item after item.
#![tactic(auto)]

mod bits;
mod expand;
mod items;
mod lists;
mod program;
mod rows;

pub use lists::FieldLists;
pub use program::{field_list_bits, field_lists14};
pub use rows::ItemRow;
