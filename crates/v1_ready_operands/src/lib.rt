//! What the single statements of a P4_16 block are made of, ready: sources, targets, numbers and arguments that are
//! given, the actions and objects that a call names, and the place at which a statement is put.
#![tactic(auto)]

mod callees;
mod follow;
mod found;
mod given_values;
mod lone_arguments;
mod next_arguments;
mod passed;
mod putting;
mod sources;

pub use callees::{Callees, FoundAction, OwnAction, action_called, name_in, object_called};
pub use given_values::{number_given, range_given, target_given};
pub use lone_arguments::{one_list, one_value};
pub use next_arguments::{algorithm_given, member_word, next_argument, put_execute};
pub use passed::{Passed, passed_to};
pub use putting::put_statement;
pub use sources::ready_source;
