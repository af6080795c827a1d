//! Where an entry is: its bucket, and its place in the bucket.
ghost use Rattle.std.specs.Prelude.{◌≡◌, ℕ, ◌+◌, ◌-◌, ◌*◌, ◌^◌, ◌<◌};

/// The room of the first bucket, in entries. Each further bucket has twice the room of the one
/// before it.
pub(crate) const FIRST_ROOM: usize = 16;

/// Where an entry is: the number of its bucket and its place there, both from 0.
#[derive(Clone, Copy)]
pub(crate) struct Location {
    pub(crate) bucket: usize,
    pub(crate) offset: usize,
}

/// Where the entry is that has `place` entries before it in the store.
pub(crate) fn location_of(place: usize) -> Location
    ensures at { 16 * (2 ^ result.bucket - 1) + result.offset ≡ place }
    ensures within { result.offset < 16 * 2 ^ result.bucket }
{
    let bucket = (place / FIRST_ROOM + 1).ilog2();
    let full = (1usize << bucket) - 1;
    Location {
        bucket: bucket as usize,
        offset: place - FIRST_ROOM * full,
    }
}
