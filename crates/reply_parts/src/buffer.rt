//! The memory in which a head and the bytes behind it are put together.

ghost use Rattle.std.specs.Prelude.{◌≡◌, ◌≤◌, ◌+◌, ◌++◌, length, take, vec_len};

use crate::head::HEAD;
use std::alloc::Global;
use step_counter::NoMemory;

/// The greatest number of bytes of a part.
pub(crate) const ROOM: usize = 8192;

/// Memory for one part and its head. One serves for all sinks of parts, one after another.
#[derive(Drop)]
pub struct PartBuffer {
    bytes: Vec<u8>,
    ghost long: { vec_len bytes ≡ 8205 },
}

impl PartBuffer {
    /// A buffer. `NoMemory` if it is refused.
    pub fn new(alloc: Global) -> Result<PartBuffer, NoMemory> {
        let mut bytes = Vec::new(alloc);
        bytes.resize(HEAD + ROOM, 0)?;
        Ok(PartBuffer { bytes })
    }

    /// Two pieces, one behind the other.
    pub(crate) fn joined(&mut self, front: &[u8], back: &[u8]) -> &[u8]
        requires front { length front.now ≤ 13 }
        requires back { length back.now ≤ 8192 }
        ensures { result.now ≡ front.now ++ back.now }
    {
        let bytes = self.bytes.as_mut_slice();
        let middle = front.len();
        let end = middle + back.len();
        bytes[..middle].copy_from_slice(front);
        bytes[middle..end].copy_from_slice(back);
        &self.bytes[..end]
    }
}
