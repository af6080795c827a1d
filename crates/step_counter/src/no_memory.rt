//! The error of a refused allocation.
use std::alloc::{AllocError, AllocFailed};

/// Memory was refused. It has one value and no cause. `?` makes it of each error that the allocator
/// returns.
#[derive(Clone, Copy, PartialEq, Eq)]
pub struct NoMemory;

impl From<AllocError> for NoMemory {
    fn from(_refused: AllocError) -> NoMemory {
        NoMemory
    }
}

impl<T: Drop> From<AllocFailed<T>> for NoMemory {
    fn from(_refused: AllocFailed<T>) -> NoMemory {
        NoMemory
    }
}
