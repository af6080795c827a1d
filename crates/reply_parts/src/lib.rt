//! Replies as parts: bytes with a head before them that says what they are.
//!
//! The output of a service is a greeting line and then parts. A part is a head and as many bytes as
//! the head says: `out ` for bytes of the output, `err ` for bytes of the messages, and `end ` with
//! a status and no bytes behind each reply. The number is written in eight decimal digits with a
//! line feed behind them, so that a head is thirteen bytes. `PartSink` is a sink that puts heads
//! before what is written to it, and so prints through it as through any other.
//!
//! The history of such a text is what all that was written to its streams: one list, in which the
//! bytes of both and the statuses stand in their order. It does not show where parts begin.
#![tactic(auto)]

mod buffer;
mod ending;
mod head;
mod laws;
mod mark;
mod part_sink;

pub use buffer::PartBuffer;
pub use ending::{write_end, write_greeting};
pub use laws::{history_of_part, history_of_parts};
pub use mark::{ERRORS, Mark, OUTPUT};
pub use part_sink::PartSink;
