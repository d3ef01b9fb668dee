//! What expressions of P4_16 are, as values of code, and what operators make of them; what the names at the top of a
//! program mean, the types of the program and their fields: each found by one look-up.
#![tactic(auto)]

mod built_in;
mod decl;
mod fields;
mod kind;
mod layout;
mod members;
mod operators;
mod sort;
mod top;

pub use decl::{decl_name, decl_sort, instance_name, instance_sort};
pub use fields::Fields;
pub use kind::{Enumeration, Kind, ObjectKind};
pub use members::{has_member, is_among, is_error_name};
pub use operators::{
    binary_kind, cast_kind, choice_kind, element_kind, joint_bits, number_kind, slice_kind,
    unary_kind,
};
pub use sort::Sort;
pub use top::Top;
