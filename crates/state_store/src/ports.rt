// Ports and clone sessions: what their numbers may be.
ghost use Rattle.std.specs.Prelude.{◌≡◌, IsTrue, ◌↔◌, ◌<◌, ◌≤◌, IfOk};
ghost use Rattle.state_store.specs.Ports.{IsPort, IsSession, AreSessions, drop_port, greatest_session};
ghost use Rattle.state_store.specs.internal.Marks.{is_unmarked};

use crate::state::OutOfMemory;
use std::alloc::{AllocError, Global};

/// The greatest port that a packet comes in on or leaves on. (This project's own.)
pub const GREATEST_PORT: u16 = 510;

/// The port that drops: a packet that is sent there leaves nowhere. (This project's own.)
pub const DROP_PORT: u16 = 511;

/// The greatest number of a clone session. (This project's own.)
pub const GREATEST_SESSION: u32 = 32_767;

/// A clone session: a packet cloned under its number leaves by its port (P4_14 1.0.5, "Clone";
/// v1model.p4: `clone`).
#[derive(Clone, Copy, PartialEq, Eq)]
pub struct Session {
    /// The session's number, from 0 to `GREATEST_SESSION`.
    pub number: u32,
    /// The egress port, from 0 to `GREATEST_PORT`.
    pub port: u16,
}

/// Whether packets come in and leave on this port: from 0 to `GREATEST_PORT`.
pub fn is_port(port: u16) -> bool
    ensures { IsTrue result ↔ IsPort port }
{
    port <= GREATEST_PORT
}

/// Whether this is `DROP_PORT`.
pub fn is_drop(port: u16) -> bool
    ensures { IsTrue result ↔ port ≡ drop_port }
{
    port == DROP_PORT
}

/// Whether a clone session may have this number: from 0 to `GREATEST_SESSION`.
pub fn is_session_number(number: u32) -> bool
    ensures { IsTrue result ↔ number ≤ greatest_session }
{
    number <= GREATEST_SESSION
}

/// Whether the number and the port of a session are in their ranges.
pub fn is_session(session: Session) -> bool
    ensures { IsTrue result ↔ IsSession session }
{
    is_session_number(session.number) && is_port(session.port)
}

/// Whether these are the clone sessions of a run: each number and each port in its range, and no number
/// twice. It takes 32 KiB of memory for the while, and time in proportion to the number of sessions.
/// The one error is want of memory.
pub fn are_sessions(alloc: Global, sessions: &[Session]) -> Result<bool, OutOfMemory>
    ensures { IfOk result (λ are. IsTrue are ↔ AreSessions sessions.now) }
{
    Ok(are_unmarked(alloc, GREATEST_SESSION + 1, sessions)?)
}

/// The same with a mark for each of so many numbers.
fn are_unmarked(alloc: Global, numbers: u32, sessions: &[Session]) -> Result<bool, AllocError>
    requires { greatest_session < numbers }
    ensures { IfOk result (λ are. IsTrue are ↔ AreSessions sessions.now) }
{
    let mut seen = vec![in alloc; false; numbers as usize]?;
    for session in sessions {
        if !is_unmarked(seen.as_slice(), *session) {
            return Ok(false);
        }
        seen[session.number as usize] = true;
    }
    Ok(true)
}

/// Whether the session's number and port are in their ranges, and its number has a mark that isn't set.
fn is_unmarked(seen: &[bool], session: Session) -> bool
    ensures { result ≡ is_unmarked seen.now session }
{
    session.number <= GREATEST_SESSION
        && session.port <= GREATEST_PORT
        && !seen.get(session.number as usize).copied().unwrap_or(true)
}
