// The files and the standard output of the system. They tell nothing of content.
ghost use Rattle.std.specs.Prelude.{◌≡◌, ◌<◌, ◌≤◌, ℕ, [], ◌∷◌, None, Some, length, take, IfOk, OnOk, OnErr};
ghost use Rattle.p4x_io.specs.Desk.{Rose, Moves, Reads, Takes, counted, put, grown, said};
ghost use Rattle.p4x_io.specs.Host.{host_desk, host_sink};

use crate::desk::{Desk, Sink};
use crate::faults::Failed;
use std::io;
use std::marker::Model;
use std::rt::Files;

mod handles;
mod tries;

use handles::{Handles, append_to, make_at, read_from};
use tries::try_write;

/// The system's files.
///
/// It tells nothing of their content. Contracts see it as its count of faults, which is each of its
/// counts: 0 at `new`, one more after a call that failed, and as it was after one that didn't. Files
/// stand open between calls, those used last, up to three for reading and three for appending, under
/// names of up to 255 octets, so that a file that is read at rising places, or appended to, costs one
/// system call a call. Others are opened at each call. A system call that was interrupted is made
/// again, up to a thousand times; then it is a fault.
#[derive(Drop)]
pub struct HostDesk<'a, R: Files> {
    rt: &'a R,
    reading: Handles<R::File>,
    appending: Handles<R::File>,
    faults: u64,
}

impl<'a, R: Files> Model for HostDesk<'a, R> {
    ghost Value = { ℕ };

    ghost view = { λ d. d.faults };
}

impl<'a, R: Files> HostDesk<'a, R> {
    /// The files that this runtime reaches. No fault is counted yet.
    pub fn new(rt: &'a R) -> Self
        ensures { result ≡ 0 }
    {
        HostDesk {
            rt,
            reading: Handles::new(),
            appending: Handles::new(),
            faults: 0,
        }
    }
}

impl<'a, R: Files> Desk for HostDesk<'a, R> {
    ghost view = { host_desk };

    #[tactic(auto, using(crate::proofs::Untold::reads_untold))]
    fn read(&mut self, name: &str, place: u64, into: &mut [u8]) -> Result<usize, Failed>
        requires room { 0 < length into.old }
        requires near { place ≤ 1073741824 }
        ensures moves { Moves [] (host_desk self.old) (host_desk self.new) }
        ensures octets { IfOk result (λ n. Reads None place n into.new) }
        ensures cause { OnErr result (Rose self.old self.new) }
        ensures count { self.new ≡ counted result self.old }
    {
        match read_from(self.rt, &mut self.reading, name, place, into) {
            Ok(count) => Ok(count),
            Err(_) => {
                self.faults = self.faults.saturating_add(1);
                Err(Failed)
            }
        }
    }

    fn make(&mut self, name: &str) -> Result<(), Failed>
        ensures moves { Moves (name.now ∷ []) (host_desk self.old) (host_desk self.new) }
        ensures made { OnOk result ((host_desk self.new).told name.now ≡ put ((host_desk self.old).told name.now) []) }
        ensures kept { OnErr result ((host_desk self.new).told name.now ≡ (host_desk self.old).told name.now) }
        ensures cause { OnErr result (Rose self.old self.new) }
        ensures count { self.new ≡ counted result self.old }
    {
        self.reading.forget(name);
        self.appending.forget(name);
        match make_at(self.rt, name) {
            Ok(()) => Ok(()),
            Err(_) => {
                self.faults = self.faults.saturating_add(1);
                Err(Failed)
            }
        }
    }

    fn append(&mut self, name: &str, piece: &[u8]) -> Result<usize, Failed>
        requires piece { 0 < length piece.now }
        ensures moves { Moves (name.now ∷ []) (host_desk self.old) (host_desk self.new) }
        ensures takes { IfOk result (Takes piece.now) }
        ensures grown { IfOk result (λ n. (host_desk self.new).told name.now ≡ grown ((host_desk self.old).told name.now) (take n piece.now)) }
        ensures kept { OnErr result ((host_desk self.new).told name.now ≡ (host_desk self.old).told name.now) }
        ensures cause { OnErr result (Rose self.old self.new) }
        ensures count { self.new ≡ counted result self.old }
    {
        match append_to(self.rt, &mut self.appending, name, piece) {
            Ok(count) if count > 0 && count <= piece.len() => Ok(count),
            _ => {
                self.faults = self.faults.saturating_add(1);
                Err(Failed)
            }
        }
    }
}

/// The system's standard output.
///
/// It tells nothing of what was printed. Contracts see it as its count of faults: 0 at `new`, one more
/// after a write that failed, and as it was after one that didn't. A system call that was interrupted
/// is made again, up to a thousand times; then it is a fault.
#[derive(Drop)]
pub struct HostSink<'a, R: Print> {
    rt: &'a R,
    faults: u64,
}

impl<'a, R: Print> Model for HostSink<'a, R> {
    ghost Value = { ℕ };

    ghost view = { λ s. s.faults };
}

impl<'a, R: Print> HostSink<'a, R> {
    /// The standard output that this runtime reaches. No fault is counted yet.
    pub fn new(rt: &'a R) -> Self
        ensures { result ≡ 0 }
    {
        HostSink { rt, faults: 0 }
    }
}

impl<'a, R: Print> Sink for HostSink<'a, R> {
    ghost view = { host_sink };

    fn write(&mut self, piece: &[u8]) -> Result<usize, Failed>
        requires { 0 < length piece.now }
        ensures later { self.old ≤ self.new }
        ensures takes { IfOk result (Takes piece.now) }
        ensures said { IfOk result (λ n. (host_sink self.new).printed ≡ said (host_sink self.old).printed (take n piece.now)) }
        ensures kept { OnErr result ((host_sink self.new).printed ≡ (host_sink self.old).printed) }
        ensures cause { OnErr result (Rose self.old self.new) }
        ensures count { self.new ≡ counted result self.old }
    {
        let mut out = io::writer(self.rt);
        match try_write(&mut out, piece) {
            Ok(count) if count > 0 && count <= piece.len() => Ok(count),
            _ => {
                self.faults = self.faults.saturating_add(1);
                Err(Failed)
            }
        }
    }
}
