//! Reading frames through a buffer.

ghost use Rattle.std.specs.Prelude.{◌≡◌, ◌≢◌, ◌≤◌, ◌<◌, ℕ, List, [], Ok, true, false, length, take, drop, vec_len, IfOk, IfErr, OnErr, OnOk};
ghost use Rattle.std.specs.Io.KnownBytes.{Consumes, IsAtEnd, Keeps};
ghost use Rattle.outer_io.specs.Counts.{Rose};
ghost use Rattle.request_frames.specs.Reading.{BrokeOff, FrameRead, GoesOn, left, source_of};

use crate::fault::RequestFault;
use crate::frame::Frame;
use crate::head::{HEAD, size_in};
use outer_io::{ReadFailed, Shelf};
use std::alloc::Global;
use std::marker::Model;
use step_counter::NoMemory;

/// The greatest number of bytes that one read asks for.
const BUFFER: usize = 8192;

/// The bytes of a shelf's open file, read through a buffer.
#[derive(Drop)]
pub struct FrameReader {
    buffer: Vec<u8>,
    /// The place of the first byte that is not taken.
    next: usize,
    /// The number of bytes that the last read gave.
    filled: usize,
}

impl Model for FrameReader {
    ghost Value = { List ℕ };

    ghost view = { λ r. drop r.next (take r.filled r.buffer.items) };

    ghost invariant = { λ r. (r.next ≤ r.filled) × (r.filled ≤ vec_len r.buffer)
        × (0 < vec_len r.buffer) };
}

impl FrameReader {
    /// A reader that holds no bytes. `NoMemory` if its buffer is refused.
    pub fn new(alloc: Global) -> Result<FrameReader, NoMemory>
        ensures { IfOk result (λ reader. reader ≡ []) }
    {
        let mut buffer = Vec::new(alloc);
        buffer.resize(BUFFER, 0)?;
        Ok(FrameReader {
            buffer,
            next: 0,
            filled: 0,
        })
    }

    /// The bytes that were read and are not taken yet.
    fn held(&self) -> &[u8]
        ensures { result.now ≡ self.now }
    {
        &self.buffer[self.next..self.filled]
    }

    /// Takes the first bytes of those that are held.
    fn advance(&mut self, count: usize)
        requires { count ≤ length self.old }
        ensures { self.new ≡ drop count self.old }
    {
        self.next += count;
    }

    /// Reads on if no byte is held, and returns whether one is held then. None is at the end of the
    /// file.
    pub(crate) fn fill<F: Shelf>(&mut self, shelf: &mut F) -> Result<bool, ReadFailed>
        ensures goes_on { GoesOn (source_of F.Shelf self.old shelf.old)
            (source_of F.Shelf self.new shelf.new) }
        ensures kept { Keeps (left (source_of F.Shelf self.old shelf.old))
            (left (source_of F.Shelf self.new shelf.new)) }
        ensures some { result ≡ Ok true → 0 < length self.new }
        ensures end { result ≡ Ok false
            → (self.new ≡ []) × IsAtEnd (left (source_of F.Shelf self.new shelf.new)) }
        ensures none { OnErr result (self.new ≡ []) }
        ensures failed { OnErr result (Rose (F.faults shelf.old) (F.faults shelf.new)) }
    {
        if self.next == self.filled {
            self.next = 0;
            self.filled = 0;
            self.filled = shelf.read(self.buffer.as_mut_slice())?;
        }
        Ok(self.next < self.filled)
    }

    /// Moves the next bytes of the file into all of `bytes`.
    fn take<F: Shelf>(&mut self, shelf: &mut F, bytes: &mut [u8]) -> Result<(), RequestFault>
        ensures goes_on { GoesOn (source_of F.Shelf self.old shelf.old)
            (source_of F.Shelf self.new shelf.new) }
        ensures size { length bytes.new ≡ length bytes.old }
        ensures took { OnOk result (Consumes (left (source_of F.Shelf self.old shelf.old))
            (left (source_of F.Shelf self.new shelf.new)) bytes.new) }
        ensures broke_off { IfErr result
            (BrokeOff (length bytes.old) (source_of F.Shelf self.old shelf.old)
            (source_of F.Shelf self.new shelf.new)) }
    {
        let mut at = 0;
        'bytes: while at < bytes.len() {
            if !self.fill(shelf)? {
                return Err(RequestFault::Bad);
            }
            let held = self.held();
            let count = held.len().min(bytes.len() - at);
            bytes[at..at + count].copy_from_slice(&held[..count]);
            self.advance(count);
            at += count;
        }
        Ok(())
    }

    /// Leaves out the next `count` bytes of the file.
    fn skip<F: Shelf>(&mut self, shelf: &mut F, count: usize) -> Result<(), RequestFault>
        ensures goes_on { GoesOn (source_of F.Shelf self.old shelf.old)
            (source_of F.Shelf self.new shelf.new) }
        ensures took { OnOk result ((part : List ℕ) × (length part ≡ count)
            × Consumes (left (source_of F.Shelf self.old shelf.old))
            (left (source_of F.Shelf self.new shelf.new)) part) }
        ensures broke_off { IfErr result
            (BrokeOff count (source_of F.Shelf self.old shelf.old)
            (source_of F.Shelf self.new shelf.new)) }
    {
        let mut at = 0;
        'bytes: while at < count {
            if !self.fill(shelf)? {
                return Err(RequestFault::Bad);
            }
            let step = self.held().len().min(count - at);
            self.advance(step);
            at += step;
        }
        Ok(())
    }

    /// The next frame, of which at most `most` bytes are kept. `Bad` if what comes next is no frame,
    /// and `Failed` if the shelf failed before the frame was read.
    pub(crate) fn next_frame<F: Shelf>(
        &mut self,
        alloc: Global,
        shelf: &mut F,
        most: usize,
    ) -> Result<Frame, RequestFault>
        ensures goes_on { GoesOn (source_of F.Shelf self.old shelf.old)
            (source_of F.Shelf self.new shelf.new) }
        ensures read { FrameRead most (source_of F.Shelf self.old shelf.old)
            (source_of F.Shelf self.new shelf.new) result }
    {
        let mut head = [0; HEAD];
        self.take(shelf, &mut head)?;
        let Some(size) = size_in(&head) else {
            return Err(RequestFault::Bad);
        };
        if size > most {
            self.skip(shelf, size)?;
            return Ok(Frame::TooLong);
        }
        let mut bytes = Vec::new(alloc);
        if bytes.resize(size, 0).is_err() {
            self.skip(shelf, size)?;
            return Ok(Frame::Refused);
        }
        self.take(shelf, bytes.as_mut_slice())?;
        Ok(Frame::Kept(bytes))
    }
}
