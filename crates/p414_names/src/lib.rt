//! The names of a P4_14 program, sort by sort, with what they are declared by; and the primitive actions, whose names every
//! program has.
#![tactic(auto)]

mod name_set;
mod names;
mod primitives;
mod scope;
mod twice;
mod types;

pub use name_set::NameSet;
pub use names::{Names14, names_of, size_in};
pub use primitives::{
    is_among, is_any_primitive, is_left_out_primitive, is_standard, places_of, primitive_places,
};
pub use types::MOST_HEADER_BITS;
