// Files that stand open under their names.
ghost use Rattle.std.specs.Prelude.{◌≤◌, length, IfOk};

use crate::host::tries::{try_open, try_read, try_seek, try_write};
use arrayvec::ArrayString;
use std::fs::OpenOptions;
use std::io;
use std::rt::Files;

// A longer name isn't kept.
const LONGEST_NAME: usize = 255;

// An open file, and the place where reading goes on.
#[derive(Drop)]
struct Handle<F: Drop> {
    name: ArrayString<LONGEST_NAME>,
    file: F,
    place: u64,
}

// A few open files, each under another name: the one used last comes first.
pub(super) struct Handles<F: Drop> {
    first: Option<Handle<F>>,
    second: Option<Handle<F>>,
    third: Option<Handle<F>>,
}

impl<F: Drop> Drop for Handles<F> {
    fn drop(self) {
        let Handles {
            first: _first,
            second: _second,
            third: _third,
        } = self;
    }
}

// Takes the handle out where it is of this name.
fn take_of<F: Drop>(kept: &mut Option<Handle<F>>, name: &str) -> Option<(F, u64)> {
    let handle = kept.take()?;
    if handle.name.as_str() == name {
        return Some((handle.file, handle.place));
    }
    *kept = Some(handle);
    None
}

impl<F: Drop> Handles<F> {
    pub(super) fn new() -> Self {
        Handles {
            first: None,
            second: None,
            third: None,
        }
    }

    // Takes out the file of a name, and the place where reading goes on.
    fn take(&mut self, name: &str) -> Option<(F, u64)> {
        if let Some(open) = take_of(&mut self.first, name) {
            return Some(open);
        }
        if let Some(open) = take_of(&mut self.second, name) {
            return Some(open);
        }
        take_of(&mut self.third, name)
    }

    // Keeps a file as the one used last. Where no place is free, the one that wasn't used for the
    // longest time is closed.
    fn keep(&mut self, name: &str, file: F, place: u64) {
        let Ok(name) = ArrayString::from(name) else {
            return;
        };
        let Some(second) = self.first.replace(Handle { name, file, place }) else {
            return;
        };
        let Some(third) = self.second.replace(second) else {
            return;
        };
        self.third = Some(third);
    }

    // Closes the file of a name.
    pub(super) fn forget(&mut self, name: &str) {
        let _closed = self.take(name);
    }
}

// Reads from a place on. After an error the file isn't kept.
pub(super) fn read_from<R: Files>(
    rt: &R,
    handles: &mut Handles<R::File>,
    name: &str,
    place: u64,
    into: &mut [u8],
) -> io::Result<usize>
    requires { place ≤ 1073741824 }
    ensures { IfOk result (λ n. n ≤ length into.new) }
{
    let (mut file, stands) = match handles.take(name) {
        Some(open) => open,
        None => (try_open(rt, OpenOptions::new().read(true), name)?, 0),
    };
    if stands != place {
        try_seek(&mut file, place)?;
    }
    let count = try_read(&mut file, into)?;
    handles.keep(name, file, place.saturating_add(count as u64));
    Ok(count)
}

// Makes a file empty.
pub(super) fn make_at<R: Files>(rt: &R, name: &str) -> io::Result<()> {
    let mut how = OpenOptions::new();
    how.write(true).create(true).truncate(true);
    let _file = try_open(rt, &how, name)?;
    Ok(())
}

// Appends a front of a piece to a file that is there. After an error the file isn't kept.
pub(super) fn append_to<R: Files>(
    rt: &R,
    handles: &mut Handles<R::File>,
    name: &str,
    piece: &[u8],
) -> io::Result<usize> {
    let mut file = match handles.take(name) {
        Some((file, _)) => file,
        None => try_open(rt, OpenOptions::new().append(true), name)?,
    };
    let count = try_write(&mut file, piece)?;
    handles.keep(name, file, 0);
    Ok(count)
}
