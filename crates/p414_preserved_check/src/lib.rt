//! The rules C18, C19 and C20 of P4_14 programs: what the field lists that calls preserve have in them, and where
//! `payload` stands. Nothing is expanded: what is asked of an expanded list is asked of the items of the lists that it
//! leads to.
#![tactic(auto)]

mod asking;
mod marks;
mod named;
mod payload;
mod preserved;

pub use payload::has_bad_payload;
pub use preserved::{has_bad_preserved_list, preserves_initialized};
