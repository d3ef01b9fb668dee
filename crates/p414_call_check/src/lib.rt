//! What is wanted of the arguments of calls, and the rules of P4_14 programs over calls as they are written: C13, C14,
//! C25 of what is written, and C27.
#![tactic(auto)]

mod forms;
mod misused;
mod placed;
mod targets;
mod types;
mod wanted;
mod wrong_calls;

pub use forms::{takes, takes_field, takes_number};
pub use misused::has_misused_parameter;
pub use placed::{PlacedArgument, placed_arguments};
pub use targets::{has_bad_target, writes_group};
pub use wanted::{Wanted, action_of, wanted_of};
pub use wrong_calls::{has_wrong_call, is_wrong_call};
