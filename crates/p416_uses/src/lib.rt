//! All that the rules of P4_16 judge in a declaration, one after another: each name, type, number, statement and expression in
//! its scope and place.
#![tactic(auto)]

mod bodies;
mod controls;
mod declarations;
mod keysets;
mod names;
mod notes;
mod objects;
mod parsers;
mod statements;
mod tables;
mod types;
mod variables;

pub use controls::see_action;
pub use declarations::see_declaration;
