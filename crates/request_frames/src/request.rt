//! A request, and reading the next one.

ghost use Rattle.request_frames.specs.Reading.{GoesOn, RequestRead, source_of};

use crate::fault::RequestFault;
use crate::frame::Frame;
use crate::reader::FrameReader;
use outer_io::Shelf;
use std::alloc::Global;

/// The greatest number of bytes of a request's words that are kept.
pub const MAX_WORDS: usize = 4096;

/// The greatest number of bytes of its query that are kept.
pub const MAX_QUERY: usize = 65_536;

/// The greatest number of bytes of its script or certificate that are kept.
pub const MAX_SIDE: usize = 67_108_864;

/// A request, as far as it was kept.
#[derive(Drop)]
pub struct Request {
    /// Its words, each with a line feed behind it.
    pub words: Frame,
    /// Its query.
    pub query: Frame,
    /// Its script or certificate; empty if it has none.
    pub side: Frame,
}

/// The next request of the shelf's open file, or `None` at the end of the file. `Bad` if what comes
/// next is not three frames, and `Failed` if the shelf failed before they were read. If memory is
/// refused for a frame, that is told in its place.
pub fn read_request<F: Shelf>(
    alloc: Global,
    reader: &mut FrameReader,
    shelf: &mut F,
) -> Result<Option<Request>, RequestFault>
    ensures read { RequestRead (source_of F.Shelf reader.old shelf.old)
        (source_of F.Shelf reader.new shelf.new) result }
    ensures goes_on { GoesOn (source_of F.Shelf reader.old shelf.old)
        (source_of F.Shelf reader.new shelf.new) }
{
    if !reader.fill(shelf)? {
        return Ok(None);
    }
    Ok(Some(Request {
        words: reader.next_frame(alloc, shelf, MAX_WORDS)?,
        query: reader.next_frame(alloc, shelf, MAX_QUERY)?,
        side: reader.next_frame(alloc, shelf, MAX_SIDE)?,
    }))
}
