//! A table as it is stored.
use crate::fields::FieldList;

/// The rows of a table: their fields, and a number for each field, row by row from left to right.
#[derive(Drop)]
pub struct StoredRows {
    /// The number of rows.
    pub count: usize,
    /// The numbers of the fields.
    pub cells: Vec<u32>,
    /// The fields.
    pub fields: FieldList,
}

/// The names of the columns, and the rows.
#[derive(Drop)]
pub struct StoredTable {
    /// The names of the columns.
    pub names: Vec<Vec<u8>>,
    /// The rows.
    pub rows: StoredRows,
}
