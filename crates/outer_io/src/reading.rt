//! Reading a whole file from a shelf.

ghost use Rattle.std.specs.Prelude.{◌≡◌, ◌≤◌, ◌<◌, ◌+◌, ◌⊎◌, Some, length, take, drop, vec_len, IfOk, IfSome, IsErrOf, IsSome, OnErr, OnOk};
ghost use Rattle.std.specs.Io.{ReadsAtMost};
ghost use Rattle.std.specs.Io.KnownBytes.{Consumes, IsAtEnd};
ghost use Rattle.outer_io.specs.declared.reading.FileFault.TheVariants.{Failed, NoMemory};
ghost use Rattle.outer_io.specs.Counts.{last_count, Rose, RoseAbove, RoseBy};
ghost use Rattle.outer_io.specs.Files.{HasFile, HasLongFile, IsNoShortFile, LacksFile};

use crate::{ReadFailed, Shelf, ShelfFault};
use std::alloc::{AllocError, Global};

/// The greatest length of a file that is read, in bytes.
pub const MAX_FILE_BYTES: usize = 67_108_864;

/// The number of bytes that the first read asks for.
const FIRST_READ: usize = 8192;

/// The greatest number of bytes that one read asks for.
const LONGEST_READ: usize = 262_144;

/// Why a file was not read.
#[derive(Clone, Copy, PartialEq, Eq, Drop)]
pub enum FileFault {
    /// There is no file of this name.
    Missing,
    /// The shelf failed.
    Failed,
    /// The file is longer than `MAX_FILE_BYTES`.
    TooLarge,
    /// Memory was refused.
    NoMemory,
}

impl From<AllocError> for FileFault {
    ghost from_gives = { λ _ e. e ≡ NoMemory };

    fn from(_: AllocError) -> Self {
        FileFault::NoMemory
    }
}

impl From<ReadFailed> for FileFault {
    ghost from_gives = { λ _ e. e ≡ Failed };

    fn from(_: ReadFailed) -> Self {
        FileFault::Failed
    }
}

/// The bytes of a file, read to its end. `Missing` if the shelf has no file of the name, `Failed`
/// if the shelf failed, `TooLarge` if the file is longer than `MAX_FILE_BYTES`, and `NoMemory` if
/// memory is refused. The shelf's files stay as they were, and if they are known, so is what is left
/// of the open one.
pub fn read_file<F: Shelf>(alloc: Global, shelf: &mut F, name: &str) -> Result<Vec<u8>, FileFault>
    ensures files { F.files shelf.new ≡ F.files shelf.old }
    ensures told { IfSome (F.files shelf.old) (λ _. IsSome (F.rest shelf.new)) }
    ensures bytes { IfOk result (λ bytes. HasFile (F.files shelf.old) name.now (Some bytes.items)) }
    ensures short { IfOk result (λ bytes. vec_len bytes ≤ MAX_FILE_BYTES) }
    ensures lacks { IsErrOf result FileFault.Missing → LacksFile (F.files shelf.old) name.now }
    ensures missing { IsErrOf result FileFault.Missing
        → Rose (F.misses shelf.old) (F.misses shelf.new) }
    ensures failed { IsErrOf result FileFault.Failed
        → Rose (F.faults shelf.old) (F.faults shelf.new) }
    ensures too_large { IsErrOf result FileFault.TooLarge
        → RoseAbove MAX_FILE_BYTES (F.taken shelf.old) (F.taken shelf.new) }
    ensures long { IsErrOf result FileFault.TooLarge
        → IsNoShortFile MAX_FILE_BYTES (F.files shelf.old) name.now }
    ensures always { HasLongFile MAX_FILE_BYTES (F.files shelf.old) name.now
        → (Rose (F.faults shelf.old) (F.faults shelf.new) → ⊥)
        → IsErrOf result FileFault.TooLarge ⊎ IsErrOf result FileFault.NoMemory }
    ensures misses { F.misses shelf.old ≤ F.misses shelf.new }
    ensures faults { F.faults shelf.old ≤ F.faults shelf.new }
    ensures taken { F.taken shelf.old ≤ F.taken shelf.new }
{
    match shelf.open(name) {
        Ok(()) => read_to_end(alloc, shelf),
        Err(ShelfFault::Missing) => Err(FileFault::Missing),
        Err(ShelfFault::Failed) => Err(FileFault::Failed),
    }
}

/// What is left of the open file.
fn read_to_end<F: Shelf>(alloc: Global, shelf: &mut F) -> Result<Vec<u8>, FileFault>
    ensures files { F.files shelf.new ≡ F.files shelf.old }
    ensures told { IfSome (F.rest shelf.old) (λ _. IsSome (F.rest shelf.new)) }
    ensures bytes { IfOk result (λ bytes. IfSome (F.rest shelf.old) (λ all. bytes.items ≡ all)) }
    ensures short { IfOk result (λ bytes. vec_len bytes ≤ MAX_FILE_BYTES) }
    ensures held { IsErrOf result FileFault.Missing → ⊥ }
    ensures failed { IsErrOf result FileFault.Failed
        → Rose (F.faults shelf.old) (F.faults shelf.new) }
    ensures too_large { IsErrOf result FileFault.TooLarge
        → RoseAbove MAX_FILE_BYTES (F.taken shelf.old) (F.taken shelf.new) }
    ensures long { IsErrOf result FileFault.TooLarge
        → IfSome (F.rest shelf.old) (λ all. MAX_FILE_BYTES < length all) }
    ensures misses { F.misses shelf.old ≤ F.misses shelf.new }
    ensures faults { F.faults shelf.old ≤ F.faults shelf.new }
    ensures taken { F.taken shelf.old ≤ F.taken shelf.new }
{
    let mut bytes = Vec::new(alloc);
    let mut filled = 0;
    'read: loop {
        let count = read_more(shelf, &mut bytes, filled)?;
        if count == 0 {
            bytes.truncate(filled);
            return Ok(bytes);
        }
        if count > MAX_FILE_BYTES - filled {
            return Err(FileFault::TooLarge);
        }
        filled += count;
    }
}

/// One read after the first `filled` bytes. Room is made before it, so that no byte is lost if
/// memory is refused.
fn read_more<F: Shelf>(
    shelf: &mut F,
    bytes: &mut Vec<u8>,
    filled: usize,
) -> Result<usize, FileFault>
    requires { filled ≤ vec_len bytes.old }
    ensures files { F.files shelf.new ≡ F.files shelf.old }
    ensures told { IfSome (F.rest shelf.old) (λ _. IsSome (F.rest shelf.new)) }
    ensures front { take filled bytes.new.items ≡ take filled bytes.old.items }
    ensures fits { IfOk result (λ n. filled + n ≤ vec_len bytes.new) }
    ensures read { IfOk result
        (λ n. Consumes (F.rest shelf.old) (F.rest shelf.new)
        (take n (drop filled bytes.new.items))) }
    ensures end { IfOk result (λ n. n ≡ 0 → IsAtEnd (F.rest shelf.new)) }
    ensures held { IsErrOf result FileFault.Missing → ⊥ }
    ensures short { IsErrOf result FileFault.TooLarge → ⊥ }
    ensures failed { IsErrOf result FileFault.Failed
        → Rose (F.faults shelf.old) (F.faults shelf.new) }
    ensures misses { F.misses shelf.old ≤ F.misses shelf.new }
    ensures faults { F.faults shelf.old ≤ F.faults shelf.new }
    ensures taken { F.taken shelf.old ≤ F.taken shelf.new }
    ensures taken_by { IfOk result (λ n. RoseBy n (F.taken shelf.old) (F.taken shelf.new)) }
    ensures taken_fits { OnOk result (F.taken shelf.new ≤ last_count) }
{
    make_room(bytes, filled)?;
    Ok(read_at(shelf, bytes.as_mut_slice(), filled)?)
}

/// Makes the vector longer than `filled`, by zeros, unless it is already. Room that an earlier read
/// left unfilled is used first.
fn make_room(bytes: &mut Vec<u8>, filled: usize) -> Result<(), AllocError>
    requires { filled ≤ vec_len bytes.old }
    ensures front { take filled bytes.new.items ≡ take filled bytes.old.items }
    ensures room { OnOk result (filled < vec_len bytes.new) }
{
    if filled == bytes.len() {
        bytes.resize(filled + filled.max(FIRST_READ).min(LONGEST_READ), 0)?;
    }
    Ok(())
}

/// One read into the bytes after the place `at`.
fn read_at<F: Shelf>(shelf: &mut F, bytes: &mut [u8], at: usize) -> Result<usize, ReadFailed>
    requires { at < length bytes.old }
    ensures files { F.files shelf.new ≡ F.files shelf.old }
    ensures told { IfSome (F.rest shelf.old) (λ _. IsSome (F.rest shelf.new)) }
    ensures front { take at bytes.new ≡ take at bytes.old }
    ensures fits { IfOk result (λ n. at + n ≤ length bytes.new) }
    ensures read { IfOk result
        (λ n. Consumes (F.rest shelf.old) (F.rest shelf.new) (take n (drop at bytes.new))) }
    ensures end { IfOk result (λ n. n ≡ 0 → IsAtEnd (F.rest shelf.new)) }
    ensures failed { OnErr result (Rose (F.faults shelf.old) (F.faults shelf.new)) }
    ensures misses { F.misses shelf.old ≤ F.misses shelf.new }
    ensures faults { F.faults shelf.old ≤ F.faults shelf.new }
    ensures taken { F.taken shelf.old ≤ F.taken shelf.new }
    ensures taken_by { IfOk result (λ n. RoseBy n (F.taken shelf.old) (F.taken shelf.new)) }
    ensures taken_fits { OnOk result (F.taken shelf.new ≤ last_count) }
{
    read_front(shelf, &mut bytes[at..])
}

/// One read, with separate clauses for the bytes and for the end.
fn read_front<F: Shelf>(shelf: &mut F, bytes: &mut [u8]) -> Result<usize, ReadFailed>
    ensures files { F.files shelf.new ≡ F.files shelf.old }
    ensures told { IfSome (F.rest shelf.old) (λ _. IsSome (F.rest shelf.new)) }
    ensures bound { ReadsAtMost result bytes.new }
    ensures read { IfOk result
        (λ n. Consumes (F.rest shelf.old) (F.rest shelf.new) (take n bytes.new)) }
    ensures end { IfOk result (λ n. n ≡ 0 → 0 < length bytes.old → IsAtEnd (F.rest shelf.new)) }
    ensures failed { OnErr result (Rose (F.faults shelf.old) (F.faults shelf.new)) }
    ensures misses { F.misses shelf.old ≤ F.misses shelf.new }
    ensures faults { F.faults shelf.old ≤ F.faults shelf.new }
    ensures taken { F.taken shelf.old ≤ F.taken shelf.new }
    ensures taken_by { IfOk result (λ n. RoseBy n (F.taken shelf.old) (F.taken shelf.new)) }
    ensures taken_fits { OnOk result (F.taken shelf.new ≤ last_count) }
{
    shelf.read(bytes)
}
