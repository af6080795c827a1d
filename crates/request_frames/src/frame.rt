//! What was kept of a frame.

/// What was kept of a frame. It was read to its end in each case.
#[derive(Drop)]
pub enum Frame {
    /// All its bytes.
    Kept(Vec<u8>),
    /// Nothing, since it is longer than it may be.
    TooLong,
    /// Nothing, since memory for it was refused.
    Refused,
}
