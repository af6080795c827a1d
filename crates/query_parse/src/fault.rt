//! Why bytes are not a query.

ghost use Rattle.std.specs.Prelude.{◌≡◌};
ghost use Rattle.query_parse.specs.declared.fault.ParseFault.TheVariants.{NoMemory};

use std::alloc::{AllocError, AllocFailed};

/// Why bytes are not a query, or several, within the limits. The fault is the first of these that
/// holds, except that memory may run out at any point. Offsets are in bytes, from 0.
#[derive(PartialEq, Eq, Drop)]
pub enum ParseFault {
    /// There are more than 65,536 bytes.
    TooLong,
    /// The bytes are not a query. The token at this offset, or the end there, is the first that no
    /// query has after the tokens before it.
    Syntax(u32),
    /// There are more than 8 branches. `parse`, which reads one query, never returns this.
    TooManyBranches,
    /// There are more than 16 from-items, in all branches together.
    TooManyItems,
    /// There are more than 8 order keys in one branch.
    TooManyKeys,
    /// The limit, whose digits begin at this offset, is not a 64-bit number.
    LimitRange(u32),
    /// Memory was refused.
    NoMemory,
}

impl From<AllocError> for ParseFault {
    ghost from_gives = { λ _ e. e ≡ NoMemory };

    fn from(_e: AllocError) -> ParseFault {
        ParseFault::NoMemory
    }
}

impl From<step_counter::NoMemory> for ParseFault {
    ghost from_gives = { λ _ e. e ≡ NoMemory };

    fn from(_e: step_counter::NoMemory) -> ParseFault {
        ParseFault::NoMemory
    }
}

impl<T: Drop> From<AllocFailed<T>> for ParseFault {
    ghost from_gives = { λ _ e. e ≡ NoMemory };

    fn from(_e: AllocFailed<T>) -> ParseFault {
        ParseFault::NoMemory
    }
}
