//! A table from the bytes of a file.
ghost use Rattle.std.specs.Prelude.{◌≡◌, ◌<◌, ◌≤◌, ◌∷◌, ◌++◌, [], IfErr, IfOk, None, OnErr, OnOk, length};
ghost use Rattle.csv.specs.Records.{fields_of};
ghost use Rattle.anyk_model.specs.Table.{flaw_of, header_flaw, records_of, row_flaw, rows_flaw, table_of};
ghost use Rattle.csv_tables.specs.Faults.{IsTableFault, refusal};
ghost use Rattle.table_store.specs.Values.{lists_of};

use crate::fault::TableFault;
use crate::plain_table::PlainTable;
use crate::records::Records;
use crate::texts::Texts;
use csv::ByteRecord;
use hash_keys::Keys;
use std::alloc::Global;
use std::marker::Model;
use std::ops::Deref;
use step_counter::NoMemory;

/// The greatest number of columns of a table.
const MAX_COLUMNS: usize = 64;

/// The greatest number of rows of a table.
const MAX_ROWS: usize = 1_048_576;

/// For how many bytes and fields a record has room from the start. `csv` reads no more of a record at
/// a time than there is room for, so a record that has to grow is read in several parts.
const RECORD_BYTES: usize = 8_192;

const RECORD_FIELDS: usize = 64;

/// The tables of a query, numbered from 0 in the order in which they are read, with the set of
/// their texts. They are read back by the calls of `table_store::Tables`, to which these tables
/// dereference.
#[derive(Drop)]
pub struct Tables {
    tables: table_store::Tables,
    texts: Texts,
    alloc: Global,
}

impl Model for Tables {
    ghost use Rattle.std.specs.Prelude.{List};
    ghost use Rattle.anyk_model.specs.Table.{Table};
    ghost use Rattle.csv_tables.specs.Tables.{KnowsTexts, tables_view};

    ghost Value = { List Table };

    ghost view = { tables_view };

    ghost invariant = { KnowsTexts };
}

impl Tables {
    ghost use Rattle.table_store.specs.Tables.{IsSound};

    /// No tables, which will be hashed with known keys. Takes no memory.
    pub fn new(alloc: Global) -> Tables
        ensures { result ≡ [] }
    {
        Tables::with_keys(alloc, Keys::Known)
    }

    /// No tables, which will be hashed with these keys. Takes no memory.
    pub fn with_keys(alloc: Global, keys: Keys) -> Tables
        ensures { result ≡ [] }
    {
        Tables {
            tables: table_store::Tables::with_keys(alloc, keys),
            texts: Texts::new(alloc, keys),
            alloc,
        }
    }

    /// Reads the table of the bytes of a csv file, and returns its number, from 0.
    ///
    /// The fault is the first in the file: a fault of the header, in the order of `TableFault`, or
    /// else of the first bad row. `NoMemory` may be returned at any point. After any error the
    /// tables are as before.
    pub fn read(&mut self, bytes: &[u8]) -> Result<u32, TableFault>
        requires few { length self.old < 16 }
        requires size { length bytes.now ≤ 67108864 }
        ensures number { IfOk result (λ n. n ≡ length self.old) }
        ensures added { OnOk result (self.new ≡ self.old ++ table_of (records_of bytes.now) ∷ []) }
        ensures sound { OnOk result (flaw_of (records_of bytes.now) ≡ None) }
        ensures fault { IfErr result (IsTableFault (flaw_of (records_of bytes.now))) }
        ensures err { OnErr result (self.new ≡ self.old) }
    {
        let table = parse_table(self.alloc, bytes)?;
        Ok(self.add(table)?)
    }

    /// Adds a table, and returns its number, from 0. After a refusal of memory the tables are as
    /// before.
    fn add(&mut self, table: PlainTable) -> Result<u32, NoMemory>
        requires few { length self.old < 16 }
        requires sound { IsSound table }
        ensures number { IfOk result (λ n. n ≡ length self.old) }
        ensures added { OnOk result (self.new ≡ self.old ++ table ∷ []) }
        ensures err { OnErr result (self.new ≡ self.old) }
    {
        let known = self.texts.len();
        let stored = match table.store(&mut self.texts) {
            Ok(stored) => stored,
            Err(refused) => {
                self.texts.truncate(known);
                return Err(refused);
            }
        };
        let Ok(number) = self.tables.add(stored) else {
            self.texts.truncate(known);
            return Err(NoMemory);
        };
        Ok(number)
    }

    /// The tables that were read, in their order. The set of texts is dropped.
    pub fn into_tables(self) -> table_store::Tables
        ensures { result ≡ self }
    {
        self.tables
    }
}

impl Deref for Tables {
    type Target = table_store::Tables;

    ghost deref_gives = { λ read stored. stored ≡ read };

    fn deref(&self) -> &table_store::Tables {
        &self.tables
    }
}

/// Tests the names of a table's columns: there are not too many, and no two are the same.
fn check_names(names: &[Vec<u8>]) -> Result<(), TableFault>
    requires { length names.now ≤ 64 }
    ensures { result ≡ refusal (header_flaw (lists_of names.now)) }
{
    for i in 0..names.len() {
        if names[..i].contains(&names[i]) {
            return Err(TableFault::DuplicateName(i as u32 + 1));
        }
    }
    Ok(())
}

/// Tests whether this record may be the row with this number, from 1: there are not too many rows,
/// and it has `width` fields.
fn check_row(width: usize, number: usize, row: &ByteRecord) -> Result<(), TableFault>
    ensures { result ≡ refusal (row_flaw width number (fields_of row.now)) }
{
    if number > MAX_ROWS {
        return Err(TableFault::TooManyRows);
    }
    if row.len() != width {
        return Err(TableFault::Ragged(number as u32));
    }
    Ok(())
}

/// The fields of a record, each in a vector of its own.
fn copy_fields(alloc: Global, row: &ByteRecord) -> Result<Vec<Vec<u8>>, NoMemory>
    ensures { IfOk result (λ copies. lists_of copies.items ≡ fields_of row.now) }
{
    let mut copies = Vec::new(alloc);
    for i in 0..row.len() {
        let Some(field) = row.get(i) else {
            unreachable!()
        };
        let copy = Vec::from_slice(alloc, field)?;
        copies.push(copy)?;
    }
    Ok(copies)
}

/// The names of the columns, from the first record that is left, which is read into `row`.
fn read_names(
    alloc: Global,
    records: &mut Records<'_>,
    row: &mut ByteRecord,
) -> Result<Vec<Vec<u8>>, TableFault>
    ensures names { IfOk result (λ names. records.old ≡ lists_of names.items ∷ records.new) }
    ensures sound { IfOk result (λ names. header_flaw (lists_of names.items) ≡ None) }
    ensures fault { IfErr result (IsTableFault (flaw_of records.old)) }
{
    if !records.next(row)? {
        return Err(TableFault::NoHeader);
    }
    if row.len() > MAX_COLUMNS {
        return Err(TableFault::TooManyColumns);
    }
    let names = copy_fields(alloc, row)?;
    check_names(&names)?;
    Ok(names)
}

/// The table of columns with these names, and of the records that are left as rows. The file has
/// `size` bytes.
fn read_rows(
    alloc: Global,
    records: &mut Records<'_>,
    row: &mut ByteRecord,
    names: Vec<Vec<u8>>,
    size: usize,
) -> Result<PlainTable, TableFault>
    ensures sound { OnOk result
        (rows_flaw (length (lists_of names.items)) 1 records.old ≡ None) }
    ensures table { IfOk result (λ t. t ≡ table_of (lists_of names.items ∷ records.old)) }
    ensures fault { IfErr result
        (IsTableFault (rows_flaw (length (lists_of names.items)) 1 records.old)) }
{
    let width = names.len();
    let mut table = PlainTable::new(alloc, names, size);
    let read = add_rows(records, width, row, &mut table);
    read.and(Ok(table))
}

/// Adds the records that are left as rows of a table that has none, each read into `row`.
fn add_rows(
    records: &mut Records<'_>,
    width: usize,
    row: &mut ByteRecord,
    table: &mut PlainTable,
) -> Result<(), TableFault>
    requires width { width ≡ length table.old.names }
    requires no_rows { table.old ≡ table_of (table.old.names ∷ []) }
    ensures sound { OnOk result (rows_flaw width 1 records.old ≡ None) }
    ensures table { OnOk result (table.new ≡ table_of (table.old.names ∷ records.old)) }
    ensures fault { IfErr result (IsTableFault (rows_flaw width 1 records.old)) }
{
    'rows: for count in 0..usize::MAX {
        if !records.next(row)? {
            return Ok(());
        }
        check_row(width, count + 1, row)?;
        table.push_row(row)?;
    }
    // not reached: no file has 2^64 records
    Err(TableFault::NoMemory)
}

/// The table of the records that are left of a file of `size` bytes, each read into `row`. The
/// function and those that it calls are lent what they read with, so that a fault leaves little to
/// drop.
fn read_table(
    alloc: Global,
    records: &mut Records<'_>,
    row: &mut ByteRecord,
    size: usize,
) -> Result<PlainTable, TableFault>
    ensures sound { OnOk result (flaw_of records.old ≡ None) }
    ensures table { IfOk result (λ t. t ≡ table_of records.old) }
    ensures fault { IfErr result (IsTableFault (flaw_of records.old)) }
{
    let names = read_names(alloc, records, row)?;
    read_rows(alloc, records, row, names, size)
}

/// The table of the bytes of a file. The fault is that of `read_table`.
fn parse_table(alloc: Global, bytes: &[u8]) -> Result<PlainTable, TableFault>
    ensures sound { OnOk result (flaw_of (records_of bytes.now) ≡ None) }
    ensures table { IfOk result (λ t. t ≡ table_of (records_of bytes.now)) }
    ensures fault { IfErr result (IsTableFault (flaw_of (records_of bytes.now))) }
{
    let mut row = ByteRecord::with_capacity(alloc, RECORD_BYTES, RECORD_FIELDS)?;
    let mut records = Records::new(alloc, bytes);
    read_table(alloc, &mut records, &mut row, bytes.len())
}
