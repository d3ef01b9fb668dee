//! The bodies of actions under both rules of P4_14, and whether the primitives of an action are apart: none reads what an earlier one
//! changes. Then both rules are one, and a body needs no copies.
#![tactic(auto)]

mod actions;
mod apart;
mod bodies;
mod changed;
mod laws;
mod reading;

pub use actions::action_body;
pub use apart::are_rows_apart;
pub use bodies::body;
pub use changed::ChangedParts;
pub use laws::{alike_are_apart, called_rows_are_kept, fitting_rows_have};
pub use reading::fields_read;
