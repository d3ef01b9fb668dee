//! The layout of the frames of a P4_16 program: which parts its headers, its metadata, its standard metadata and its variables
//! have.
#![tactic(auto)]

mod depth;
mod fields;
mod kinds;
mod program;
mod values;
mod variables;

pub use depth::depth_of;
pub use fields::field_kinds;
pub use kinds::{add_declared, frame_kinds};
pub use program::{layout_of_kinds, layout_of_program};
pub use variables::add_local;
