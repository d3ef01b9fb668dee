//! Which rule an expression of P4_16 breaks first in its place by itself, given what is known of it: T1 to T6, T8 or T10.
#![tactic(auto)]

mod calls;
mod fits;
mod judge;
mod literals;
mod names;
mod sizes;
mod stands;
mod takes;

pub use judge::broken_rule;
pub use literals::is_too_large;
pub use stands::applies_nothing;
