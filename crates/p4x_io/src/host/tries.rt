// System calls, made again where they were interrupted. Such a call did nothing.
ghost use Rattle.std.specs.Prelude.{◌≤◌, length, take, IfOk, OnErr};
ghost use Rattle.std.specs.Io.KnownBytes.{Keeps, Appends, Consumes};

use std::fs::OpenOptions;
use std::io;
use std::io::{ErrorKind, Read, Seek, SeekFrom, Write};
use std::rt::Files;

// How often a call is made at most.
const MOST_TRIES: u32 = 1000;

// What is answered where each try was interrupted.
fn interrupted() -> io::Error {
    io::Error::from(ErrorKind::Interrupted)
}

pub(super) fn try_open<R: Files>(rt: &R, how: &OpenOptions, name: &str) -> io::Result<R::File> {
    for _ in 0..MOST_TRIES {
        match how.open(rt, name) {
            Err(error) if error.kind() == ErrorKind::Interrupted => {}
            answer => return answer,
        }
    }
    Err(interrupted())
}

pub(super) fn try_seek<S: Seek>(file: &mut S, place: u64) -> io::Result<u64> {
    for _ in 0..MOST_TRIES {
        match file.seek(SeekFrom::Start(place)) {
            Err(error) if error.kind() == ErrorKind::Interrupted => {}
            answer => return answer,
        }
    }
    Err(interrupted())
}

pub(super) fn try_read<F: Read>(file: &mut F, into: &mut [u8]) -> io::Result<usize>
    ensures fits { IfOk result (λ n. n ≤ length into.new) }
    ensures given { IfOk result (λ n. Consumes (F.remaining file.old) (F.remaining file.new) (take n into.new)) }
    ensures kept { OnErr result (Keeps (F.remaining file.old) (F.remaining file.new)) }
{
    for _ in 0..MOST_TRIES {
        match file.read(into) {
            Ok(count) => return Ok(count),
            Err(error) if error.kind() == ErrorKind::Interrupted => {}
            Err(error) => return Err(error),
        }
    }
    Err(interrupted())
}

pub(super) fn try_write<W: Write>(out: &mut W, piece: &[u8]) -> io::Result<usize>
    ensures fits { IfOk result (λ n. n ≤ length piece.now) }
    ensures taken { IfOk result (λ n. Appends (W.contents out.old) (W.contents out.new) (take n piece.now)) }
    ensures kept { OnErr result (Keeps (W.contents out.old) (W.contents out.new)) }
{
    for _ in 0..MOST_TRIES {
        match out.write(piece) {
            Ok(count) => return Ok(count),
            Err(error) if error.kind() == ErrorKind::Interrupted => {}
            Err(error) => return Err(error),
        }
    }
    Err(interrupted())
}
