//! The names of cursors, and why calls on a set of them are refused.
ghost use Rattle.std.specs.Prelude.{◌<◌};

/// A cursor of a set, by its number, from 0.
#[derive(Clone, Copy, PartialEq, Eq)]
pub struct CursorId {
    pub number: usize,
    ghost in_range: { number < 64 },
}

/// Why a call on a set of cursors was refused.
#[derive(Clone, Copy, PartialEq, Eq)]
pub enum CursorFault {
    /// That cursor is not open.
    Unknown(CursorId),
    /// The greatest number of cursors is open.
    TooMany,
    /// Memory was refused.
    NoMemory,
}
