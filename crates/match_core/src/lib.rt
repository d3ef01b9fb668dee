// Signatures of tables and stateful objects, the entries that fill them, and the look-up of a key.
#![tactic(auto)]

mod entries;
mod exact;
mod groups;
mod identity;
mod index;
mod key;
mod levels;
mod numbers;
mod order;
mod plain;
mod scan;
mod signatures;
mod stores;
mod table;
mod well_formed;

pub use entries::{DefaultCall, Entries, Entry, KeyMatch, TableFill};
pub use identity::{counted, push_identity};
pub use key::Key;
pub use scan::{by_priority, has_priority};
pub use signatures::{ActionSig, KeyKind, KeySpec, ObjectSig, Signature, TableSig};
pub use state_store::Session;
pub use stores::first_store;
pub use table::{Table, build_tables};
pub use well_formed::{MOST_KEYS, are_specs};
