//! What a program reads and writes: files by name, and one place to print to.
//!
//! [`Desk`] and [`Sink`] are what the rest of the workspace is written against. [`MemoryDesk`] and
//! [`MemorySink`] keep all in memory and fail where a test asks for it; [`HostDesk`] and
//! [`HostSink`] are the thin edge over the system's files and standard output. Each counts its own
//! faults, so that a caller's contract can say that a fault is answered only where one came.
#![tactic(auto)]

mod desk;
mod faults;
mod files;
mod host;
mod memory;
mod sink;
mod slot;

pub use desk::{Desk, Sink};
pub use faults::{Failed, OutOfMemory};
pub use files::{PIECE, ReadFault, append_all, has_octet, print_all, read_file, say};
pub use host::{HostDesk, HostSink};
pub use memory::MemoryDesk;
pub use sink::MemorySink;
