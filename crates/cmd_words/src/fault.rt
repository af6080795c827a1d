//! Why a command line was rejected.

ghost use Rattle.std.specs.Prelude.{◌≡◌};
ghost use Rattle.cmd_words.specs.declared.fault.WordsFault.TheVariants.{NoMemory};

use std::alloc::{AllocError, AllocFailed};

/// Why a command line was rejected.
#[derive(Clone, Copy, PartialEq, Eq, Drop)]
pub enum WordsFault {
    /// The arguments do not form a command.
    Usage,
    /// Memory was refused.
    NoMemory,
}

impl From<AllocError> for WordsFault {
    ghost from_gives = { λ _ e. e ≡ NoMemory };

    fn from(_: AllocError) -> Self {
        WordsFault::NoMemory
    }
}

impl<T: Drop> From<AllocFailed<T>> for WordsFault {
    ghost from_gives = { λ _ e. e ≡ NoMemory };

    fn from(_: AllocFailed<T>) -> Self {
        WordsFault::NoMemory
    }
}
