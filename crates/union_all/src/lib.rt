//! The union of several queries over the same tables: its members in order, merged from engines of
//! the branches, one by one, and its header and lines.
//!
//! Each branch has one member at hand, and the first of these is the next one of the union. This is
//! multiway merging (Knuth, "The Art of Computer Programming", volume 3, 5.4.1), of at most eight
//! branches, whose members at hand are looked through one after another.
#![tactic(auto)]

mod branch;
mod firsts;
mod header;
mod header_fields;
mod line;
mod merge;
mod merge_laws;
mod sums;
mod tagged;

pub use header::{header_of, write_header_of};
pub use line::{line_of, write_line_of};
pub use merge::Merge;
pub use merge_laws::rankings_are_left;
pub use tagged::Tagged;
