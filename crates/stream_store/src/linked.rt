//! Entries of a store, and their names.
ghost use Rattle.std.specs.Prelude.{◌≡◌, ◌-◌, ◌^◌};

use std::marker::Model;

/// The name of an entry of a store. Contracts see its place there, from 0.
#[derive(Clone, Copy, PartialEq, Eq)]
pub struct EntryId {
    pub(crate) place: u32,
}

impl Model for EntryId {
    ghost use Rattle.std.specs.Prelude.{ℕ};

    ghost Value = { ℕ };

    ghost view = { λ e. e.place };

    ghost inverse = { λ n. record { place = n } };
}

impl EntryId {
    /// A name that stands for no entry, where there is room for a name and nothing to name: a store
    /// has at most 2^32 - 1 entries, so none is at this place.
    pub fn none() -> EntryId
        ensures { result ≡ 2 ^ 32 - 1 }
    {
        EntryId { place: u32::MAX }
    }
}

/// An entry: a value, and the entry that follows it, if that is set.
#[derive(Drop)]
pub struct Linked<T> {
    /// It is beside what the value begins with, since a step reads the two together.
    pub next: Option<EntryId>,
    pub value: T,
}
