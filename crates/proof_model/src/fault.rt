//! Why bytes are not a certificate, or why a certificate is not valid.

ghost use Rattle.std.specs.Prelude.{◌≡◌};
ghost use Rattle.proof_model.specs.declared.fault.ProofFault.TheVariants.{NoMemory};

use std::alloc::{AllocError, AllocFailed};

/// Why bytes are not a certificate, or why a certificate is not valid: the first of these that
/// holds, in this order. Lines and nodes count from 1. Reading a text gives the first two and
/// `NoMemory`.
#[derive(Clone, Copy, PartialEq, Eq)]
pub enum ProofFault {
    /// The first line is missing, or it is another one than `anyk-proof 1`.
    BadHeader,
    /// The first line without a form, or with one that it cannot have at its place: a bound after
    /// an answer, or a line after the last one. If the last line is missing, its number is that of
    /// the line after all.
    BadLine(u32),
    /// There are more node rows than this number, which is the limit.
    TooManyRows(u32),
    /// The first bound whose node does not exist or whose rows are no solution of its subtree, by
    /// its line.
    BadBound(u32),
    /// The first bound of a group that has one before it, by its line.
    BoundTwice(u32),
    /// The first node with a row whose group has no bound, or one that is too high.
    Weak(u32),
    /// The first answer that is none, by its line.
    BadAnswer(u32),
    /// The first answer that is not after the one before it, by its line.
    Order(u32),
    /// There are fewer or more answers than the limit leaves.
    Count,
    /// An answer that is not listed may come before the last one, or at all if the certificate says
    /// `end`.
    Missed,
    /// Memory was refused.
    NoMemory,
}

impl From<AllocError> for ProofFault {
    ghost from_gives = { λ _ e. e ≡ NoMemory };

    fn from(_e: AllocError) -> ProofFault {
        ProofFault::NoMemory
    }
}

impl<T: Drop> From<AllocFailed<T>> for ProofFault {
    ghost from_gives = { λ _ e. e ≡ NoMemory };

    fn from(_e: AllocFailed<T>) -> ProofFault {
        ProofFault::NoMemory
    }
}
