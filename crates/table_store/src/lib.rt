//! The tables of a query in memory: their fields as numbers and as bytes, and the weights that they
//! write.
//!
//! Each field has a number, the same for two fields of any tables exactly if their bytes are the
//! same. Rows are joined by these numbers; a query's tests of single rows compare the bytes
//! themselves. A field that writes a number below 2^31 as a plain decimal has that number. The
//! others are dictionary encoded: a field's number is 2^31 plus its place, from 0, among the
//! distinct ones of all tables, in the order in which they first occur. What reads the tables finds
//! these places; the tables keep the numbers alone. A table is a flat vector of them, and the bytes
//! of its fields.
#![tactic(auto)]

mod fields;
mod number;
mod stored;
mod tables;
mod weight;

pub use fields::{FieldList, start_of};
pub use number::{FIRST_TEXT, own_number};
pub use stored::{StoredRows, StoredTable};
pub use tables::{Tables, numbers_tell};
