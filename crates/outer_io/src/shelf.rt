//! Files by name, of which one at a time is open and read from its start.

ghost use Rattle.std.specs.Prelude.{◌≡◌, ◌≤◌, List, [], ℕ, Option, length, IfOk, IfSome, IsErrOf, OnErr, OnOk};
ghost use Rattle.std.specs.Io.KnownBytes.{ReadConsumes};
ghost use Rattle.outer_io.specs.Counts.{last_count, Rose, RoseBy};
ghost use Rattle.outer_io.specs.Files.{Files, HasFile, LacksFile};

/// Why a file was not opened.
#[derive(Clone, Copy, PartialEq, Eq, Drop)]
pub enum ShelfFault {
    /// There is no file of this name.
    Missing,
    /// The shelf could not open it.
    Failed,
}

/// The shelf could not read on. The open file is still at the same place.
#[derive(Clone, Copy, PartialEq, Eq, Drop)]
pub struct ReadFailed;

/// Files by name. One at a time is open, and is read from its start.
pub trait Shelf {
    /// The files, if the shelf's contents are known.
    ghost files: { Self → Option Files };

    /// What is left of the open file, if the shelf's contents are known. It is empty if no file is
    /// open.
    ghost rest: { Self → Option (List ℕ) };

    /// How often there was no file of a name.
    ghost misses: { Self → ℕ };

    /// How often the shelf failed.
    ghost faults: { Self → ℕ };

    /// The number of bytes that were read.
    ghost taken: { Self → ℕ };

    /// Opens a file at its start, and closes the one that was open. After an error none is open.
    fn open(&mut self, name: &str) -> Result<(), ShelfFault>
        ensures files { files self.new ≡ files self.old }
        ensures opened { OnOk result (HasFile (files self.old) name.now (rest self.new)) }
        ensures closed { OnErr result (IfSome (files self.old) (λ _. rest self.new ≡ Some [])) }
        ensures lacks { IsErrOf result ShelfFault.Missing → LacksFile (files self.old) name.now }
        ensures missing { IsErrOf result ShelfFault.Missing
            → Rose (misses self.old) (misses self.new) }
        ensures failed { IsErrOf result ShelfFault.Failed
            → Rose (faults self.old) (faults self.new) }
        ensures misses { misses self.old ≤ misses self.new }
        ensures faults { faults self.old ≤ faults self.new }
        ensures taken { taken self.new ≡ taken self.old };

    /// Moves the next bytes of the open file to the front of the buffer, and returns how many. It
    /// returns 0 only at the file's end, if no file is open, or if the buffer is empty.
    fn read(&mut self, buf: &mut [u8]) -> Result<usize, ReadFailed>
        ensures files { files self.new ≡ files self.old }
        ensures within { IfOk result (λ n. n ≤ length buf.new) }
        ensures bytes { ReadConsumes (rest self.old) (rest self.new) result buf.new }
        ensures failed { OnErr result (Rose (faults self.old) (faults self.new)) }
        ensures misses { misses self.old ≤ misses self.new }
        ensures faults { faults self.old ≤ faults self.new }
        ensures taken { taken self.old ≤ taken self.new }
        ensures taken_by { IfOk result (λ n. RoseBy n (taken self.old) (taken self.new)) }
        ensures taken_fits { OnOk result (taken self.new ≤ last_count) };
}
