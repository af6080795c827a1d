//! The members of a union.

/// A member of a union of queries: the number of its branch, from 0, and a row for each item of
/// that branch, from 1.
#[derive(Clone, Copy, PartialEq, Eq)]
pub struct Tagged {
    pub branch: u32,
    pub rows: [u32; 16],
}
