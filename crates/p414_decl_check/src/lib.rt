//! The check of a P4_14 program's declarations: the names of a program that breaks none of the rules C1 to C8, and else the
//! least of them that it breaks.
#![tactic(auto)]

mod currents;
mod declarations;
mod fault;
mod flat;
mod selects;
mod stacks;
mod totals;
mod unknown;
mod widths;

pub use declarations::decls;
pub use fault::DeclFault;
pub use p414_names::Names14;
