//! The tables of a query.
ghost use Rattle.std.specs.Prelude.{◌≡◌, ◌+◌, ◌-◌, ◌*◌, ◌<◌, ◌≤◌, ◌∷◌, ◌++◌, [], IfOk, List, OnErr, OnOk, get_or, length, ℕ};
ghost use Rattle.anyk_model.specs.Table.{Table, field_at, table_at};
ghost use Rattle.anyk_model.specs.Weight.{weight_of};
ghost use Rattle.table_store.specs.Values.{number_of, own_number, with_tables};

use crate::number::FIRST_TEXT;
use crate::stored::StoredTable;
use crate::weight::parse_weight;
use hash_keys::Keys;
use std::alloc::Global;
use std::marker::Model;
use step_counter::NoMemory;

/// The tables of a query in the order in which they were read, numbered from 0.
#[derive(Drop)]
pub struct Tables {
    tables: Vec<StoredTable>,
    keys: Keys,
}

impl Model for Tables {
    ghost use Rattle.std.specs.Prelude.{List};
    ghost use Rattle.anyk_model.specs.Table.{Table};

    ghost Value = { List Table };

    ghost use Rattle.table_store.specs.Tables.{IsKept, tables_view};

    ghost view = { tables_view };

    ghost invariant = { IsKept };
}

impl Tables {
    ghost use Rattle.std.specs.List.{AllByRecursion};
    ghost use Rattle.table_store.specs.StoredTables.{IsStored, stored_view};
    ghost use Rattle.table_store.specs.Tables.{IsSound};

    /// No tables, which will be hashed with known keys. Takes no memory.
    pub fn new(alloc: Global) -> Tables
        ensures { result ≡ [] }
    {
        Tables::with_keys(alloc, Keys::Known)
    }

    /// No tables, which will be hashed with these keys. Takes no memory.
    pub fn with_keys(alloc: Global, keys: Keys) -> Tables
        ensures { result ≡ [] }
    {
        Tables {
            tables: Vec::new(alloc),
            keys,
        }
    }

    /// The keys that the tables are hashed with.
    pub fn keys(&self) -> Keys {
        self.keys
    }

    /// Adds a table, and returns its number, from 0. After a refusal of memory the tables are as
    /// before.
    pub fn add(&mut self, table: StoredTable) -> Result<u32, NoMemory>
        requires few { length self.old < 16 }
        requires sound { IsSound (stored_view table) }
        requires stored { IsStored (with_tables [] (self.old ++ stored_view table ∷ [])) table }
        ensures number { IfOk result (λ n. n ≡ length self.old) }
        ensures added { OnOk result (self.new ≡ self.old ++ stored_view table ∷ []) }
        ensures err { OnErr result (self.new ≡ self.old) }
    {
        let number = self.tables.len() as u32;
        self.tables.push(table)?;
        Ok(number)
    }

    /// The number of tables.
    pub fn count(&self) -> u32
        ensures count { result ≡ length self.now }
        ensures limit { result ≤ 16 }
        ensures sound { AllByRecursion IsSound self.now }
    {
        self.tables.len() as u32
    }

    /// The number of rows of a table, without the header.
    pub fn len(&self, table: u32) -> u32
        requires { table < length self.now }
        ensures rows { result ≡ length (table_at self.now table).rows }
        ensures limit { result ≤ 1048576 }
    {
        self.tables[table as usize].rows.count as u32
    }

    /// The number of columns of a table.
    pub fn width(&self, table: u32) -> u32
        requires { table < length self.now }
        ensures columns { result ≡ length (table_at self.now table).names }
        ensures limit { result ≤ 64 }
    {
        self.tables[table as usize].names.len() as u32
    }

    /// The name of a column. Tables and columns count from 0.
    pub fn name(&self, table: u32, col: u32) -> &[u8]
        requires table { table < length self.now }
        requires column { col < length (table_at self.now table).names }
        ensures { result.now ≡ get_or (table_at self.now table).names col [] }
    {
        self.tables[table as usize].names[col as usize].as_slice()
    }

    /// The number of a field, the same for two fields of any tables exactly if their bytes are the
    /// same. Tables and columns count from 0, and rows from 1.
    pub fn value(&self, table: u32, row: u32, col: u32) -> u32
        requires table { table < length self.now }
        requires first { 1 ≤ row }
        requires row { row ≤ length (table_at self.now table).rows }
        requires column { col < length (table_at self.now table).names }
        ensures { result ≡ number_of self.now
            (field_at (table_at self.now table) (row - 1) col) }
    {
        let stored = &self.tables[table as usize];
        stored.rows.cells[(row as usize - 1) * stored.names.len() + col as usize]
    }

    /// The number that a field writes as a decimal without a sign and without leading zeros, if it
    /// is below `FIRST_TEXT`, and `None` for any other field. It is read without the bytes of the
    /// field. Tables and columns count from 0, and rows from 1.
    #[inline(always)]
    pub fn own_number(&self, table: u32, row: u32, col: u32) -> Option<u32>
        requires table { table < length self.now }
        requires first { 1 ≤ row }
        requires row { row ≤ length (table_at self.now table).rows }
        requires column { col < length (table_at self.now table).names }
        ensures { result ≡ own_number (field_at (table_at self.now table) (row - 1) col) }
    {
        let number = self.value(table, row, col);
        if number < FIRST_TEXT {
            Some(number)
        } else {
            None
        }
    }

    /// The bytes of a field. Tables and columns count from 0, and rows from 1.
    pub fn field(&self, table: u32, row: u32, col: u32) -> &[u8]
        requires table { table < length self.now }
        requires first { 1 ≤ row }
        requires row { row ≤ length (table_at self.now table).rows }
        requires column { col < length (table_at self.now table).names }
        ensures { result.now ≡ field_at (table_at self.now table) (row - 1) col }
    {
        let stored = &self.tables[table as usize];
        let width = stored.names.len();
        stored
            .rows
            .fields
            .get((row as usize - 1) * width + col as usize)
    }

    /// The weight that a field writes: 0 if it is empty, else an optional `+` or `-` and 1 to 39
    /// digits, if the number fits an `i128`. `None` for any other field. Tables and columns count
    /// from 0, and rows from 1. Put in place where it is called, so that an own number is no longer
    /// than it is.
    #[inline(always)]
    pub fn weight(&self, table: u32, row: u32, col: u32) -> Option<i128>
        requires table { table < length self.now }
        requires first { 1 ≤ row }
        requires row { row ≤ length (table_at self.now table).rows }
        requires column { col < length (table_at self.now table).names }
        ensures { result ≡ weight_of (field_at (table_at self.now table) (row - 1) col) }
    {
        if let Some(number) = self.own_number(table, row, col) {
            return Some(number as i128);
        }
        parse_weight(self.field(table, row, col))
    }
}

/// The numbers that `Tables::value` returns tell fields apart: two fields with the same number have
/// the same bytes. Rows count from 0 here.
pub fn numbers_tell()
    ensures { (tables : List Table) (t row column : ℕ) (text : List ℕ) → t < length tables
        → row < length (table_at tables t).rows
        → column < length (get_or (table_at tables t).rows row [])
        → number_of tables (field_at (table_at tables t) row column) ≡ number_of tables text
        → field_at (table_at tables t) row column ≡ text }
{}
