//! What a P4_14 program does with a packet, as definitions in `specs/`: the state of a packet, parsing, actions under
//! both rules, tables and controls, calculated fields, the passes of a packet, and the signature that a control plane
//! sees. Here stand the plain types that they name.
#![tactic(auto)]

mod parsed;
mod requests;
mod stage;
mod standard;

pub use parsed::Parsed;
pub use requests::Request14;
pub use stage::Stage14;
pub use standard::Standard;
