//! The statements of a P4_16 block made ready with all within them: blocks, `if`, `switch` and variables, over whatever makes single
//! statements ready.
#![tactic(auto)]

mod bodies;
mod cases;
mod joining;
mod making;
mod putting;
mod singles;
mod standing;
mod variables;

pub use bodies::{ready_behind, ready_body};
pub use putting::ready_nothing;
pub use singles::Singles;
pub use standing::Standing;
pub use variables::{OwnVariable, ready_variables};
