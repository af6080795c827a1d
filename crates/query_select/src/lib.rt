//! A query as it is written: its tokens, its parts, with their offsets, and equality of queries
//! without these.
//!
//! Bytes become tokens, the longest at each place. `name_text` writes a name in one canonical form.
//! The parts are those of a select in SQL: a list of columns, from-items, equalities, order keys
//! that are sums of columns, and a limit. `query_parse` reads them from tokens, and `query_bind`
//! gives them their meaning over tables.
#![tactic(auto)]

mod equality;
pub mod name;
mod scanner;
pub mod select;
pub mod sequence;
mod token;
mod writing;

pub use name::{Bytes, Identifier};
pub use scanner::tokens;
pub use select::{ColumnRef, Equality, ItemRef, KeyRef, Select, SelectAll, SelectList, Side, Term};
pub use sequence::Sequence;
pub use token::{Kind, Token};
pub use writing::{name_text, push_name};
