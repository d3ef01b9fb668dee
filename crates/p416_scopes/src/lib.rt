//! The names in scope at a place of a P4_16 program: those at the top, and those that are declared one behind another within
//! a parser or a control. Each name means its innermost declaration, found by one look-up.
#![tactic(auto)]

mod enter;
mod methods;
mod scope;

pub use scope::{Part, Scope};
