//! A sink in memory, for tests.

ghost use Rattle.std.specs.Prelude.{◌≡◌, ◌≤◌, ◌<◌, ◌+◌, ◌-◌, [], ◌++◌, Some, length, IfOk, OnErr};
ghost use Rattle.std.specs.Result.{result_ok};
ghost use Rattle.std.specs.Io.KnownBytes.{WriteAppends};
ghost use Rattle.outer_io.specs.Counts.{saturating, Rose};
ghost use Rattle.outer_io.specs.Fakes.{after_write, answer_to};

use crate::{Sink, WriteFailed};
use std::alloc::Global;
use std::marker::Model;
use step_counter::NoMemory;

/// A sink in memory with room for a given number of bytes. It takes at most `most` bytes in a call,
/// and counts its calls from 1: it fails at those whose numbers are in `failing`, and takes nothing
/// at those in `zeros`.
#[derive(Drop)]
pub struct MemSink {
    bytes: Vec<u8>,
    room: usize,
    most: usize,
    failing: Vec<u64>,
    zeros: Vec<u64>,
    calls: u64,
    faults: u64,
}

impl Model for MemSink {
    ghost use Rattle.std.specs.Prelude.{◌≤◌, ◌+◌, vec_len};
    ghost use Rattle.std.specs.Vec.{vec_capacity};
    ghost use Rattle.outer_io.specs.Fakes.{FailingSink};

    ghost Value = { FailingSink };

    ghost view = { λ s. record {
      bytes = s.bytes.items;
      room = s.room;
      most = s.most;
      failing = s.failing.items;
      zeros = s.zeros.items;
      calls = s.calls;
      faults = s.faults;
    } };

    ghost invariant = { λ s. vec_len s.bytes + s.room ≤ vec_capacity s.bytes };
}

impl MemSink {
    /// An empty sink, with memory for all of `room`, so that no call of `write` takes any.
    /// `NoMemory` if that is refused.
    pub fn new(
        alloc: Global,
        room: usize,
        most: usize,
        failing: Vec<u64>,
        zeros: Vec<u64>,
    ) -> Result<MemSink, NoMemory>
        ensures { IfOk result (λ s. s ≡ record {
          bytes = [];
          room = room;
          most = most;
          failing = failing.items;
          zeros = zeros.items;
          calls = 0;
          faults = 0;
        }) }
    {
        Ok(MemSink {
            bytes: Vec::with_capacity(alloc, room)?,
            room,
            most,
            failing,
            zeros,
            calls: 0,
            faults: 0,
        })
    }

    /// The bytes that were written.
    pub fn bytes(&self) -> &[u8]
        ensures { result.now ≡ self.now.bytes }
    {
        &self.bytes
    }

    /// Counts a call, and returns how many of `len` bytes it takes, or `None` if it fails.
    fn answer(&mut self, len: usize) -> Option<usize>
        ensures answer { result ≡ answer_to self.old len }
        ensures after { self.new ≡ record self.old { calls = saturating self.old.calls 1 } }
    {
        self.calls = self.calls.saturating_add(1);
        if self.failing.contains(&self.calls) {
            return None;
        }
        if self.zeros.contains(&self.calls) {
            return Some(0);
        }
        if self.room == 0 && len > 0 {
            return None;
        }
        Some(len.min(self.most.min(self.room)))
    }

    /// Counts a fault.
    fn fault(&mut self)
        ensures after { self.new ≡ record self.old { faults = saturating self.old.faults 1 } }
        ensures rose { Rose self.old.faults self.new.faults }
        ensures later { self.old.faults ≤ self.new.faults }
    {
        self.faults = self.faults.saturating_add(1);
    }

    /// Takes all of a piece, for which there is room.
    fn take(&mut self, piece: &[u8])
        requires { length piece.now ≤ self.old.room }
        ensures { self.new ≡ record self.old {
          bytes = self.old.bytes
              ++ piece.now;
          room = self.old.room - length piece.now;
        } }
    {
        let Ok(()) = self.bytes.extend_from_slice(piece) else {
            unreachable!();
        };
        self.room -= piece.len();
    }
}

impl Sink for MemSink {
    ghost use Rattle.std.specs.Prelude.{Some};

    ghost written = { λ s. Some s.bytes };

    ghost faults = { λ s. s.faults };

    fn write(&mut self, bytes: &[u8]) -> Result<usize, WriteFailed>
        ensures within { IfOk result (λ n. n ≤ length bytes.now) }
        ensures written { WriteAppends (Some self.old.bytes)
            (Some self.new.bytes) result bytes.now }
        ensures failed { OnErr result (Rose self.old.faults self.new.faults) }
        ensures stuck { IfOk result
            (λ n. n ≡ 0 → 0 < length bytes.now → Rose self.old.faults self.new.faults) }
        ensures faults { self.old.faults ≤ self.new.faults }
        ensures answer { result_ok result ≡ answer_to self.old (length bytes.now) }
        ensures after { self.new ≡ after_write self.old bytes.now }
    {
        let Some(count) = self.answer(bytes.len()) else {
            self.fault();
            return Err(WriteFailed);
        };
        if count == 0 && !bytes.is_empty() {
            self.fault();
        }
        self.take(&bytes[..count]);
        Ok(count)
    }
}
