//! Sets of names, and whether a name stands twice among others.
#![tactic(auto)]

mod name_set;
mod repeated;

pub use name_set::NameSet;
pub use repeated::is_repeated;
