//! Requests as frames of bytes, read from the open file of a shelf.
//!
//! A frame is a length in eight decimal digits, a line feed, and as many bytes. A request is three
//! frames: its words, its query, and the script or certificate beside it, which may be empty. So a
//! text of frames is split in one way at most, and whoever writes them need not mark what they hold.
//! This is the netstring of D. J. Bernstein (1997) with a length of one width.
//!
//! No byte is asked for while one that was read is left over. A request is known before the first
//! byte after it is asked for, so nobody waits for an answer that waits for more of a request.
#![tactic(auto)]

mod fault;
mod frame;
mod head;
mod reader;
mod request;

pub use fault::RequestFault;
pub use frame::Frame;
pub use reader::FrameReader;
pub use request::{MAX_QUERY, MAX_SIDE, MAX_WORDS, Request, read_request};
