//! Runs of entries that a store has one after another.
ghost use Rattle.std.specs.Prelude.{◌≡◌, ◌↔◌, ◌+◌, ◌<◌, ◌≤◌, IsTrue};

use crate::linked::EntryId;
use std::marker::Model;

/// Entries that a store has one after another, as the first of them and their number. Each was
/// added by its name, so a run names no entry that its owner was not given.
#[derive(Drop)]
pub struct Run {
    first: EntryId,
    len: usize,
}

impl Model for Run {
    ghost use Rattle.std.specs.Prelude.{◌+◌, ◌^◌, ◌≤◌};
    ghost use Rattle.stream_store.specs.Runs.{RunView};

    ghost Value = { RunView };

    ghost view = { λ r. record { first = r.first; count = r.len } };

    ghost invariant = { λ r. r.first + r.len ≤ 2 ^ 32 };
}

impl Run {
    /// A run of no entries.
    pub fn new() -> Run
        ensures { result.count ≡ 0 }
    {
        Run {
            first: EntryId::none(),
            len: 0,
        }
    }

    /// The number of entries.
    pub fn len(&self) -> usize
        ensures { result ≡ self.now.count }
    {
        self.len
    }

    /// Adds the entry that the store has after the last one, or any entry to a run of none.
    pub fn add(&mut self, entry: EntryId)
        requires next { 0 < self.old.count → entry ≡ self.old.first + self.old.count }
        ensures last { self.new.first + self.old.count ≡ entry }
        ensures count { self.new.count ≡ self.old.count + 1 }
    {
        if self.len == 0 {
            self.first = entry;
        }
        self.len += 1;
    }

    /// The entry at a place of the run, from 0.
    pub fn get(&self, place: u32) -> EntryId
        requires place { place < self.now.count }
        ensures entry { result ≡ self.now.first + place }
    {
        EntryId {
            place: self.first.place + place,
        }
    }

    /// Whether the run has this entry. Its name alone tells, so no entry is read.
    pub fn contains(&self, entry: EntryId) -> bool
        ensures { IsTrue result
            ↔ ((self.now.first ≤ entry) × (entry < self.now.first + self.now.count)) }
    {
        entry.place >= self.first.place && ((entry.place - self.first.place) as usize) < self.len
    }
}
