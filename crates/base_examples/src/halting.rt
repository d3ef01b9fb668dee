// The system, where every call is interrupted a number of times before it is made.
use std::alloc::Allocator;
use std::cell::Cell;
use std::fmt::Display;
use std::fs::{Metadata, OpenFile, OpenOptions};
use std::io;
use std::io::{ErrorKind, Read, Seek, SeekFrom, Write};
use std::rt::Files;

#[derive(Drop)]
pub struct Halting<R> {
    rt: R,
    times: u32,
    left: Cell<u32>,
}

#[derive(Drop)]
pub struct HaltingFile<F: Drop> {
    file: F,
    times: u32,
    left: u32,
}

// How many calls are still interrupted after this one, or None where this one is made.
fn after(left: u32) -> Option<u32> {
    left.checked_sub(1)
}

impl<R> Halting<R> {
    pub fn new(rt: R, times: u32) -> Self {
        Halting {
            rt,
            times,
            left: Cell::new(times),
        }
    }

    fn halt(&self) -> io::Result<()> {
        match after(self.left.get()) {
            Some(left) => {
                self.left.set(left);
                Err(io::Error::from(ErrorKind::Interrupted))
            }
            None => {
                self.left.set(self.times);
                Ok(())
            }
        }
    }
}

impl<F: Drop> HaltingFile<F> {
    fn halt(&mut self) -> io::Result<()> {
        match after(self.left) {
            Some(left) => {
                self.left = left;
                Err(io::Error::from(ErrorKind::Interrupted))
            }
            None => {
                self.left = self.times;
                Ok(())
            }
        }
    }
}

impl<F: Read + Drop> Read for HaltingFile<F> {
    fn read(&mut self, buf: &mut [u8]) -> io::Result<usize> {
        match self.halt() {
            Ok(()) => self.file.read(buf),
            Err(error) => Err(error),
        }
    }
}

impl<F: Write + Drop> Write for HaltingFile<F> {
    fn write(&mut self, buf: &[u8]) -> io::Result<usize> {
        match self.halt() {
            Ok(()) => self.file.write(buf),
            Err(error) => Err(error),
        }
    }

    fn flush(&mut self) -> io::Result<()> {
        self.file.flush()
    }
}

impl<F: Seek + Drop> Seek for HaltingFile<F> {
    fn seek(&mut self, to: SeekFrom) -> io::Result<u64> {
        match self.halt() {
            Ok(()) => self.file.seek(to),
            Err(error) => Err(error),
        }
    }
}

impl<F: OpenFile + Drop> OpenFile for HaltingFile<F> {
    fn metadata(&self) -> io::Result<Metadata> {
        self.file.metadata()
    }

    fn set_len(&self, size: u64) -> io::Result<()> {
        self.file.set_len(size)
    }

    fn sync_all(&self) -> io::Result<()> {
        self.file.sync_all()
    }

    fn sync_data(&self) -> io::Result<()> {
        self.file.sync_data()
    }
}

impl<R: Files> Files for Halting<R> {
    type File = HaltingFile<R::File>;

    type Dir = R::Dir;

    fn open_file(&self, how: &OpenOptions, path: &str) -> io::Result<HaltingFile<R::File>> {
        self.halt()?;
        let file = self.rt.open_file(how, path)?;
        Ok(HaltingFile {
            file,
            times: self.times,
            left: self.times,
        })
    }

    fn open_dir(&self, path: &str) -> io::Result<R::Dir> {
        self.rt.open_dir(path)
    }

    fn metadata(&self, path: &str) -> io::Result<Metadata> {
        self.rt.metadata(path)
    }

    fn symlink_metadata(&self, path: &str) -> io::Result<Metadata> {
        self.rt.symlink_metadata(path)
    }

    fn copy(&self, from: &str, to: &str) -> io::Result<u64> {
        self.rt.copy(from, to)
    }

    fn rename(&self, from: &str, to: &str) -> io::Result<()> {
        self.rt.rename(from, to)
    }

    fn remove_file(&self, path: &str) -> io::Result<()> {
        self.rt.remove_file(path)
    }

    fn create_dir(&self, path: &str) -> io::Result<()> {
        self.rt.create_dir(path)
    }

    fn remove_dir(&self, path: &str) -> io::Result<()> {
        self.rt.remove_dir(path)
    }

    fn remove_dir_all<B: Allocator>(&self, alloc: B, path: &str) -> io::Result<()> {
        self.rt.remove_dir_all(alloc, path)
    }
}

impl<R: Print> Print for Halting<R> {
    fn print<D: Display + Drop>(&self, value: D) -> io::Result<()> {
        self.rt.print(value)
    }

    fn println<D: Display + Drop>(&self, value: D) -> io::Result<()> {
        self.rt.println(value)
    }

    fn write_all(&self, bytes: &[u8]) -> io::Result<()> {
        self.rt.write_all(bytes)
    }

    fn write_some(&self, bytes: &[u8]) -> io::Result<usize> {
        match self.halt() {
            Ok(()) => self.rt.write_some(bytes),
            Err(error) => Err(error),
        }
    }
}
