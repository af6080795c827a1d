//! Files in memory, and the reading place in the open one. Both shelves in memory are made of this.

ghost use Rattle.std.specs.Prelude.{◌≡◌, ◌≤◌, ◌<◌, [], Some, None, IfSome, length, take, drop, min, map, unwrap_or, is_some, ◌++◌, ◌+◌, ◌-◌, if◌then◌else◌, MatchOption};
ghost use Rattle.std.specs.List.{list_any, position};
ghost use Rattle.std.specs.String.{string_bytes};
ghost use Rattle.std.specs.Str.{bytes_eq};
ghost use Rattle.outer_io.specs.Counts.{saturating};
ghost use Rattle.outer_io.specs.Files.{bytes_of};
ghost use Rattle.outer_io.specs.Entries.{are_distinct, entry_of, rest_at};

use std::marker::Model;

/// A file in memory.
#[derive(Drop)]
pub struct MemFile {
    pub name: String,
    pub bytes: Vec<u8>,
}

/// Whether no two of the files have the same name.
pub fn have_distinct_names(files: &[MemFile]) -> bool
    ensures { result ≡ are_distinct files.now }
{
    match files {
        [] => true,
        [first, others @ ..] => {
            !has_name(others, first.name.as_str()) && have_distinct_names(others)
        }
    }
}

/// Whether one of the files has this name.
fn has_name(files: &[MemFile], name: &str) -> bool
    ensures { result ≡ list_any (λ file. bytes_eq (string_bytes file.name) name.now) files.now }
{
    first_named(files, name).is_some()
}

/// Files, of which at most one is open, with the number of misses and of bytes read.
#[derive(Drop)]
pub struct HeldFiles {
    files: Vec<MemFile>,
    open: Option<usize>,
    at: usize,
    misses: u64,
    taken: u64,
}

impl Model for HeldFiles {
    ghost use Rattle.std.specs.Prelude.{map};
    ghost use Rattle.outer_io.specs.Holding.{Holding};

    ghost Value = { Holding };

    ghost use Rattle.outer_io.specs.Entries.{entry_of, rest_at};

    ghost view = { λ h. record {
      files = map entry_of h.files.items;
      rest = rest_at h.files.items h.open h.at;
      misses = h.misses;
      taken = h.taken;
    } };
}

impl HeldFiles {
    /// These files, none open, with both counts at 0.
    pub fn new(files: Vec<MemFile>) -> HeldFiles
        ensures { result ≡ record
            { files = map entry_of files.items; rest = []; misses = 0; taken = 0 } }
    {
        HeldFiles {
            files,
            open: None,
            at: 0,
            misses: 0,
            taken: 0,
        }
    }

    /// Opens a file, or closes the open one and counts a miss. Returns whether there is such a
    /// file.
    pub fn open(&mut self, name: &str) -> bool
        ensures found { result ≡ is_some (bytes_of self.old.files name.now) }
        ensures after { self.new ≡ record self.old {
          rest = unwrap_or (bytes_of self.old.files name.now) [];
          misses = if result then self.old.misses else saturating self.old.misses 1;
        } }
        ensures later { self.old.misses ≤ self.new.misses }
    {
        self.at = 0;
        match place_of(&self.files, name) {
            Some(place) => {
                self.open = Some(place);
                true
            }
            None => {
                self.open = None;
                self.misses = self.misses.saturating_add(1);
                false
            }
        }
    }

    /// Closes the open file.
    pub fn close(&mut self)
        ensures { self.new ≡ record self.old { rest = [] } }
    {
        self.open = None;
    }

    /// Moves as much of the rest into the buffer as fits, and returns how much.
    pub fn read(&mut self, buf: &mut [u8]) -> usize
        ensures count { result ≡ min (length buf.old) (length self.old.rest) }
        ensures moved { buf.new ≡ take result self.old.rest ++ drop result buf.old }
        ensures after { self.new ≡ record self.old {
          rest = drop result self.old.rest;
          taken = saturating self.old.taken result;
        } }
        ensures later { self.old.taken ≤ self.new.taken }
    {
        let rest = rest_of(&self.files, self.open, self.at);
        let count = buf.len().min(rest.len());
        buf[..count].copy_from_slice(&rest[..count]);
        self.at += count;
        self.taken = self.taken.saturating_add(count as u64);
        count
    }
}

/// The place of the first file of this name, from 0.
fn place_of(files: &[MemFile], name: &str) -> Option<usize>
    ensures { MatchOption result (bytes_of (map entry_of files.now) name.now ≡ None)
        (λ place. bytes_of (map entry_of files.now) name.now
        ≡ Some (rest_at files.now (Some place) 0)) }
{
    first_named(files, name)
}

/// The place of the first file of this name, from 0.
fn first_named(files: &[MemFile], name: &str) -> Option<usize>
    ensures { result ≡ position (λ file. bytes_eq (string_bytes file.name) name.now) files.now }
{
    files.iter().position(|file| file.name.as_str() == name)
}

/// What is left of the open file, after the reading place.
fn rest_of(files: &[MemFile], place: Option<usize>, at: usize) -> &[u8]
    ensures { result.now ≡ rest_at files.now place at }
{
    let Some(place) = place else {
        return &[];
    };
    match files.get(place) {
        Some(file) if at < file.bytes.len() => &file.bytes[at..],
        _ => &[],
    }
}
