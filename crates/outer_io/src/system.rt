//! The files, standard output and standard error of the system, over `std`.
//!
//! They keep the contracts of `Shelf` and `Sink`, but what a file has and what a stream has taken
//! is not known to contracts here: `files`, `rest` and `written` are `None`. Misses, faults and
//! bytes read are counted. A read or a write that a signal interrupts is made again, up to `TRIES`
//! times in all.

ghost use Rattle.std.specs.Io.{ReadsAtMost, WritesAtMost};

use crate::{ReadFailed, Shelf, ShelfFault, Sink, WriteFailed};
use std::fs::{self, File};
use std::io::{self, ErrorKind, Read, Write};

/// How often a read or a write is tried if a signal interrupts each try.
const TRIES: u32 = 10_000;

/// The files of the system.
#[derive(Drop)]
pub struct FileShelf {
    rt: HostRuntime,
    file: Option<File>,
    misses: u64,
    faults: u64,
    taken: u64,
}

impl FileShelf {
    /// The files of the system, none open, with all counts at 0.
    pub fn new(rt: HostRuntime) -> FileShelf {
        FileShelf {
            rt,
            file: None,
            misses: 0,
            faults: 0,
            taken: 0,
        }
    }
}

impl Shelf for FileShelf {
    ghost use Rattle.std.specs.Prelude.{None};

    ghost files = { λ _. None };

    ghost rest = { λ _. None };

    ghost misses = { λ s. s.misses };

    ghost faults = { λ s. s.faults };

    ghost taken = { λ s. s.taken };

    fn open(&mut self, name: &str) -> Result<(), ShelfFault> {
        self.file = None;
        match fs::open(&self.rt, name) {
            Ok(file) => {
                self.file = Some(file);
                Ok(())
            }
            Err(error) if error.kind() == ErrorKind::NotFound => {
                self.misses = self.misses.saturating_add(1);
                Err(ShelfFault::Missing)
            }
            Err(_) => {
                self.faults = self.faults.saturating_add(1);
                Err(ShelfFault::Failed)
            }
        }
    }

    fn read(&mut self, buf: &mut [u8]) -> Result<usize, ReadFailed> {
        let outcome = match &mut self.file {
            Some(file) => read_again(file, buf),
            None => Ok(0),
        };
        match outcome {
            Ok(count) => {
                self.taken = self.taken.saturating_add(count as u64);
                Ok(count)
            }
            Err(_) => {
                self.faults = self.faults.saturating_add(1);
                Err(ReadFailed)
            }
        }
    }
}

/// A standard stream of the system that takes bytes.
#[derive(Drop)]
pub struct StdSink<W> {
    stream: W,
    faults: u64,
}

impl<W: Write> StdSink<W> {
    /// A sink over this stream, with no fault so far.
    pub fn new(stream: W) -> StdSink<W> {
        StdSink { stream, faults: 0 }
    }
}

impl<W: Write> Sink for StdSink<W> {
    ghost use Rattle.std.specs.Prelude.{None};

    ghost written = { λ _. None };

    ghost faults = { λ s. s.faults };

    fn write(&mut self, bytes: &[u8]) -> Result<usize, WriteFailed> {
        match write_again(&mut self.stream, bytes) {
            Ok(count) => {
                if count == 0 && !bytes.is_empty() {
                    self.faults = self.faults.saturating_add(1);
                }
                Ok(count)
            }
            Err(_) => {
                self.faults = self.faults.saturating_add(1);
                Err(WriteFailed)
            }
        }
    }
}

/// One read, made again if a signal interrupts it, up to `TRIES` times. An interrupted read has
/// moved nothing.
fn read_again<R: Read>(from: &mut R, buf: &mut [u8]) -> io::Result<usize>
    ensures { ReadsAtMost result buf.new }
{
    for _ in 1..TRIES {
        match from.read(buf) {
            Err(error) if error.kind() == ErrorKind::Interrupted => {}
            outcome => return outcome,
        }
    }
    from.read(buf)
}

/// One write, made again if a signal interrupts it, up to `TRIES` times. An interrupted write has
/// taken nothing.
fn write_again<W: Write>(to: &mut W, bytes: &[u8]) -> io::Result<usize>
    ensures { WritesAtMost result bytes.now }
{
    for _ in 1..TRIES {
        match to.write(bytes) {
            Err(error) if error.kind() == ErrorKind::Interrupted => {}
            outcome => return outcome,
        }
    }
    to.write(bytes)
}
