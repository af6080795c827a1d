//! Shelves in memory: for tests, and for files that are made rather than read.

ghost use Rattle.std.specs.Prelude.{◌≡◌, ◌≤◌, ◌↔◌, [], Some, map, length, min, IfOk, IsErr, IsErrOf, IsTrue, OnErr, OnOk, if◌then◌else◌};
ghost use Rattle.std.specs.Io.KnownBytes.{ReadConsumes};
ghost use Rattle.outer_io.specs.Counts.{last_count, saturating, Rose, RoseBy};
ghost use Rattle.outer_io.specs.Files.{HasFile, LacksFile};
ghost use Rattle.outer_io.specs.Entries.{are_distinct, entry_of};
ghost use Rattle.outer_io.specs.Fakes.{after_open, after_read, fails_next, has_number, opened, read_on};
ghost use Rattle.outer_io.specs.Holding.{Holding};

use crate::mem_files::{HeldFiles, MemFile};
use crate::{ReadFailed, Shelf, ShelfFault};
use std::marker::Model;

/// A shelf in memory that fails at the calls whose numbers are in `failing`. Calls of `open` and
/// `read` are counted together, from 1.
#[derive(Drop)]
pub struct MemShelf {
    held: HeldFiles,
    failing: Vec<u64>,
    calls: u64,
    faults: u64,
}

impl Model for MemShelf {
    ghost use Rattle.outer_io.specs.Fakes.{FailingShelf};

    ghost Value = { FailingShelf };

    ghost view = { λ s. record {
      holding = s.held;
      failing = s.failing.items;
      calls = s.calls;
      faults = s.faults;
    } };
}

impl MemShelf {
    /// A shelf of these files, whose names must be distinct. No file is open, and all counts are 0.
    pub fn new(files: Vec<MemFile>, failing: Vec<u64>) -> MemShelf
        requires { IsTrue (are_distinct files.items) }
        ensures { result ≡ record {
          holding = record { files = map entry_of files.items; rest = []; misses = 0; taken = 0 };
          failing = failing.items;
          calls = 0;
          faults = 0;
        } }
    {
        MemShelf {
            held: HeldFiles::new(files),
            failing,
            calls: 0,
            faults: 0,
        }
    }

    /// Counts a call, and returns whether it fails.
    fn fails(&mut self) -> bool
        ensures fails { result ≡ has_number self.old.failing (saturating self.old.calls 1) }
        ensures after { self.new ≡ record self.old {
          calls = saturating self.old.calls 1;
          faults = if result then saturating self.old.faults 1 else self.old.faults;
        } }
        ensures later { self.old.faults ≤ self.new.faults }
    {
        self.calls = self.calls.saturating_add(1);
        let fails = self.failing.contains(&self.calls);
        if fails {
            self.faults = self.faults.saturating_add(1);
        }
        fails
    }
}

impl Shelf for MemShelf {
    ghost use Rattle.std.specs.Prelude.{Some};

    ghost files = { λ s. Some s.holding.files };

    ghost rest = { λ s. Some s.holding.rest };

    ghost misses = { λ s. s.holding.misses };

    ghost faults = { λ s. s.faults };

    ghost taken = { λ s. s.holding.taken };

    fn open(&mut self, name: &str) -> Result<(), ShelfFault>
        ensures files { self.new.holding.files ≡ self.old.holding.files }
        ensures opened { OnOk result
            (HasFile (Some self.old.holding.files) name.now (Some self.new.holding.rest)) }
        ensures closed { OnErr result (self.new.holding.rest ≡ []) }
        ensures lacks { IsErrOf result ShelfFault.Missing
            → LacksFile (Some self.old.holding.files) name.now }
        ensures missing { IsErrOf result ShelfFault.Missing
            → Rose self.old.holding.misses self.new.holding.misses }
        ensures failed { IsErrOf result ShelfFault.Failed → Rose self.old.faults self.new.faults }
        ensures misses { self.old.holding.misses ≤ self.new.holding.misses }
        ensures faults { self.old.faults ≤ self.new.faults }
        ensures taken { self.new.holding.taken ≡ self.old.holding.taken }
        ensures fails { IsErrOf result ShelfFault.Failed ↔ IsTrue (fails_next self.old) }
        ensures after { self.new ≡ after_open self.old name.now }
    {
        if self.fails() {
            self.held.close();
            return Err(ShelfFault::Failed);
        }
        if !self.held.open(name) {
            return Err(ShelfFault::Missing);
        }
        Ok(())
    }

    fn read(&mut self, buf: &mut [u8]) -> Result<usize, ReadFailed>
        ensures files { self.new.holding.files ≡ self.old.holding.files }
        ensures within { IfOk result (λ n. n ≤ length buf.new) }
        ensures bytes { ReadConsumes (Some self.old.holding.rest)
            (Some self.new.holding.rest) result buf.new }
        ensures failed { OnErr result (Rose self.old.faults self.new.faults) }
        ensures misses { self.old.holding.misses ≤ self.new.holding.misses }
        ensures faults { self.old.faults ≤ self.new.faults }
        ensures taken { self.old.holding.taken ≤ self.new.holding.taken }
        ensures taken_by { IfOk result
            (λ n. RoseBy n self.old.holding.taken self.new.holding.taken) }
        ensures taken_fits { OnOk result (self.new.holding.taken ≤ last_count) }
        ensures fails { IsErr result ↔ IsTrue (fails_next self.old) }
        ensures count { IfOk result (λ n. n ≡ min (length buf.old) (length self.old.holding.rest)) }
        ensures after { self.new ≡ after_read self.old (length buf.old) }
    {
        if self.fails() {
            return Err(ReadFailed);
        }
        Ok(self.held.read(buf))
    }
}

/// A shelf in memory that never fails.
#[derive(Drop)]
pub struct PureShelf {
    held: HeldFiles,
}

impl Model for PureShelf {
    ghost use Rattle.outer_io.specs.Holding.{Holding};

    ghost Value = { Holding };

    ghost view = { λ s. s.held };
}

impl PureShelf {
    /// A shelf of these files, whose names must be distinct. No file is open, and all counts are 0.
    pub fn new(files: Vec<MemFile>) -> PureShelf
        requires { IsTrue (are_distinct files.items) }
        ensures { result ≡ record
            { files = map entry_of files.items; rest = []; misses = 0; taken = 0 } }
    {
        PureShelf {
            held: HeldFiles::new(files),
        }
    }
}

impl Shelf for PureShelf {
    ghost use Rattle.std.specs.Prelude.{Some};

    ghost files = { λ s. Some s.files };

    ghost rest = { λ s. Some s.rest };

    ghost misses = { λ s. s.misses };

    ghost faults = { λ s. 0 };

    ghost taken = { λ s. s.taken };

    fn open(&mut self, name: &str) -> Result<(), ShelfFault>
        ensures files { self.new.files ≡ self.old.files }
        ensures opened { OnOk result (HasFile (Some self.old.files) name.now (Some self.new.rest)) }
        ensures closed { OnErr result (self.new.rest ≡ []) }
        ensures lacks { IsErrOf result ShelfFault.Missing
            → LacksFile (Some self.old.files) name.now }
        ensures missing { IsErrOf result ShelfFault.Missing → Rose self.old.misses self.new.misses }
        ensures failed { IsErrOf result ShelfFault.Failed → ⊥ }
        ensures misses { self.old.misses ≤ self.new.misses }
        ensures taken { self.new.taken ≡ self.old.taken }
        ensures after { self.new ≡ opened self.old name.now }
    {
        if !self.held.open(name) {
            return Err(ShelfFault::Missing);
        }
        Ok(())
    }

    fn read(&mut self, buf: &mut [u8]) -> Result<usize, ReadFailed>
        ensures files { self.new.files ≡ self.old.files }
        ensures within { IfOk result (λ n. n ≤ length buf.new) }
        ensures bytes { ReadConsumes (Some self.old.rest) (Some self.new.rest) result buf.new }
        ensures failed { OnErr result ⊥ }
        ensures misses { self.new.misses ≡ self.old.misses }
        ensures taken { self.old.taken ≤ self.new.taken }
        ensures taken_by { IfOk result (λ n. RoseBy n self.old.taken self.new.taken) }
        ensures taken_fits { OnOk result (self.new.taken ≤ last_count) }
        ensures count { IfOk result (λ n. n ≡ min (length buf.old) (length self.old.rest)) }
        ensures after { self.new ≡ read_on self.old (min (length buf.old) (length self.old.rest)) }
    {
        Ok(self.held.read(buf))
    }
}
