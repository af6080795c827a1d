//! The query language: `select` with equi-joins, order keys that are sums of columns, and a limit,
//! and `union all` between such queries, with one limit for the whole. `parse` reads a query, `text`
//! writes it in one form, and the laws say that tokens are the longest forms that begin at their
//! places.
//!
//! A reader for each rule of the grammar goes over the tokens of `query_select` from left to right,
//! and the next token alone decides each choice (LL(1) parsing by recursive descent). The offset of
//! a syntax fault is where the first token begins after which no query can go on (the valid prefix
//! property of such parsers).
#![tactic(auto)]

pub mod fault;
mod laws;
mod parsing;
mod reader;
mod writing;

pub use fault::ParseFault;
pub use laws::{scans_are_longest, tokens_are_longest};
pub use parsing::{MAX_BRANCHES, MAX_BYTES, MAX_ITEMS, MAX_KEYS, parse, parse_all};
pub use query_select::{
    Bytes, ColumnRef, Equality, Identifier, ItemRef, KeyRef, Select, SelectAll, SelectList,
    Sequence, Side, Term, name_text,
};
pub use writing::text;
