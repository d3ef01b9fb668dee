//! Lists of octets, numbers, names and rows, and bit lists with fields of up to 128 bits.
#![tactic(auto)]

mod bits;
mod fields;
mod memory;
mod rows;

pub use bits::Bits;
pub use fields::{read_octet_field, write_octet_field};
pub use memory::OutOfMemory;
pub use rows::{Numbers, Octets, Rows, Text};
