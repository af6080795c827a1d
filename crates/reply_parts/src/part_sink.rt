//! A sink that puts heads before what is written to it.

ghost use Rattle.std.specs.Prelude.{◌≡◌, ◌≤◌, ◌<◌, ◌+◌, ◌↔◌, length, IfOk, OnErr, IsTrue};
ghost use Rattle.std.specs.Io.KnownBytes.{Keeps, WriteAppends};
ghost use Rattle.outer_io.specs.Counts.{Rose};
ghost use Rattle.reply_parts.specs.History.{history};
ghost use Rattle.reply_parts.specs.Known.{mark_of, seen, seen_through, sent_after, told};

use crate::buffer::{PartBuffer, ROOM};
use crate::head::{HEAD, part_head};
use crate::mark::{Mark, mark_of};
use outer_io::{Sink, WriteFailed};

/// Passes some bytes to a sink, and returns how many it took, which are not none.
fn write_some<S: Sink>(sink: &mut S, bytes: &[u8]) -> Result<usize, WriteFailed>
    requires { 0 < length bytes.now }
    ensures within { IfOk result (λ n. (0 < n) × (n ≤ length bytes.now)) }
    ensures written { WriteAppends (S.written sink.old) (S.written sink.new) result bytes.now }
    ensures failed { OnErr result (Rose (S.faults sink.old) (S.faults sink.new)) }
    ensures faults { S.faults sink.old ≤ S.faults sink.new }
{
    match sink.write(bytes)? {
        0 => Err(WriteFailed),
        count => Ok(count),
    }
}

/// A sink of parts over another sink. What is written to it goes there as the bytes of `out` parts
/// if `STREAM` is `OUTPUT`, and of `err` parts if it is `ERRORS`: its type tells, so that whoever
/// is handed it to write to cannot change it. It takes no memory.
#[derive(Drop)]
pub struct PartSink<S, const STREAM: u8> {
    lower: S,
    buffer: PartBuffer,
    mark: Mark,
    /// The number of bytes of the part that is begun.
    size: usize,
    /// How many bytes of its head and of it are sent, or 0 if no part is begun.
    sent: usize,
    ghost fits: { size ≤ 8192 },
    ghost within: { sent ≤ size + 12 },
    ghost some: { 0 < sent → 0 < size },
    ghost marked: { mark ≡ mark_of STREAM },
}

impl<S: Sink, const STREAM: u8> PartSink<S, STREAM> {
    /// A sink of parts over a sink. The parts that it sends are read as parts only where no part is
    /// begun below, and so its bytes are known only there.
    pub fn new(lower: S, buffer: PartBuffer) -> PartSink<S, STREAM>
        ensures lower { result.lower ≡ lower }
        ensures mark { result.mark ≡ mark_of STREAM }
        ensures whole { result.sent ≡ 0 }
        ensures written { seen_through result.mark result.size result.sent
            (S.written result.lower) ≡ seen (mark_of STREAM) (told (S.written lower)) }
    {
        PartSink {
            lower,
            buffer,
            mark: mark_of(STREAM),
            size: 0,
            sent: 0,
        }
    }

    /// Whether no part is begun, so that another may write parts to the sink below.
    pub fn is_whole(&self) -> bool
        ensures { IsTrue result ↔ self.now.sent ≡ 0 }
    {
        self.sent == 0
    }

    /// The sink below, and the buffer.
    pub fn into_parts(self) -> (S, PartBuffer)
        ensures lower { result.0 ≡ self.lower }
        ensures history { Keeps (seen_through self.mark self.size self.sent (S.written self.lower))
            (seen (mark_of STREAM) (history (S.written result.0))) }
        ensures whole { self.sent ≡ 0
            → seen_through self.mark self.size self.sent (S.written self.lower)
            ≡ seen (mark_of STREAM) (told (S.written result.0)) }
    {
        (self.lower, self.buffer)
    }

    /// Counts what the sink below took of the part.
    fn advance(&mut self, count: usize)
        requires begun { 0 < self.old.size }
        requires within { self.old.sent + count ≤ self.old.size + 13 }
        ensures same { (self.new.lower ≡ self.old.lower) × (self.new.mark ≡ self.old.mark)
            × (self.new.size ≡ self.old.size) }
        ensures sent { self.new.sent ≡ sent_after self.old.size (self.old.sent + count) }
    {
        let sent = self.sent + count;
        self.sent = if sent < HEAD + self.size { sent } else { 0 };
    }

    /// Sends what is left of the head, and by the same write the first of the bytes. Returns how
    /// many of these went, maybe none.
    fn send_head(&mut self, bytes: &[u8]) -> Result<usize, WriteFailed>
        requires begun { 0 < self.old.size }
        requires head { self.old.sent < 13 }
        ensures within { IfOk result (λ n. n ≤ length bytes.now) }
        ensures written { WriteAppends
            (seen_through self.old.mark self.old.size self.old.sent (S.written self.old.lower))
            (seen_through self.new.mark self.new.size self.new.sent (S.written self.new.lower))
            result bytes.now }
        ensures failed { OnErr result (Rose (S.faults self.old.lower) (S.faults self.new.lower)) }
        ensures faults { S.faults self.old.lower ≤ S.faults self.new.lower }
        ensures further { IfOk result (λ n. n ≡ 0 → (self.old.sent < self.new.sent)
            × (self.new.size ≡ self.old.size)) }
    {
        let head = part_head(self.mark, self.size);
        let front = &head[self.sent..];
        let count = bytes.len().min(self.size);
        let piece = self.buffer.joined(front, &bytes[..count]);
        let taken = write_some(&mut self.lower, piece)?;
        let body = taken.saturating_sub(front.len());
        self.advance(taken);
        Ok(body)
    }

    /// Sends the first of the bytes as bytes of the part whose head is sent.
    fn send_body(&mut self, bytes: &[u8]) -> Result<usize, WriteFailed>
        requires begun { 0 < self.old.size }
        requires body { 13 ≤ self.old.sent }
        requires some { 0 < length bytes.now }
        ensures within { IfOk result (λ n. (0 < n) × (n ≤ length bytes.now)) }
        ensures written { WriteAppends
            (seen_through self.old.mark self.old.size self.old.sent (S.written self.old.lower))
            (seen_through self.new.mark self.new.size self.new.sent (S.written self.new.lower))
            result bytes.now }
        ensures failed { OnErr result (Rose (S.faults self.old.lower) (S.faults self.new.lower)) }
        ensures faults { S.faults self.old.lower ≤ S.faults self.new.lower }
    {
        let owed = HEAD + self.size - self.sent;
        let count = bytes.len().min(owed);
        let taken = write_some(&mut self.lower, &bytes[..count])?;
        self.advance(taken);
        Ok(taken)
    }
}

impl<S: Sink, const STREAM: u8> Sink for PartSink<S, STREAM> {
    ghost written = { λ s. seen_through s.mark s.size s.sent (S.written s.lower) };

    ghost faults = { λ s. S.faults s.lower };

    fn write(&mut self, bytes: &[u8]) -> Result<usize, WriteFailed> {
        if bytes.is_empty() {
            return Ok(0);
        }
        if self.sent == 0 {
            self.size = bytes.len().min(ROOM);
        }
        'head: while self.sent < HEAD {
            let count = self.send_head(bytes)?;
            if count > 0 {
                return Ok(count);
            }
        }
        self.send_body(bytes)
    }
}
