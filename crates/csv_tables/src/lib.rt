//! Tables read from the bytes of csv files.
//!
//! A file is text as RFC 4180 has it, read by the crate `csv` with its defaults: commas between
//! fields, double quotes around a field that needs them, and records of any length. A byte order
//! mark at the start of the file is taken off by the reader. The first record names the columns,
//! and each other record is a row.
//!
//! A field that is not its own number gets the number of its place in a set, which holds the
//! distinct ones of all tables while these are read, and is dropped afterwards.
#![tactic(auto)]

mod fault;
mod fields;
mod plain_table;
mod reading;
mod records;
mod text;
mod texts;

pub use fault::TableFault;
pub use reading::Tables;
