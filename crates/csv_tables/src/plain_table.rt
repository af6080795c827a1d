//! A table whose fields have no numbers yet.
ghost use Rattle.std.specs.Prelude.{◌≡◌, ◌<◌, ◌∷◌, [], IfOk, OnErr, OnOk, length};
ghost use Rattle.csv.specs.Records.{fields_of};
ghost use Rattle.anyk_model.specs.Table.{table_of};
ghost use Rattle.csv_tables.specs.PlainTables.{with_row};
ghost use Rattle.table_store.specs.StoredTables.{IsStored, stored_view};
ghost use Rattle.table_store.specs.Values.{Extends, lists_of, with_rows};

use crate::fields::FieldWriter;
use crate::texts::Texts;
use csv::ByteRecord;
use std::alloc::Global;
use std::marker::Model;
use step_counter::NoMemory;
use table_store::{StoredRows, StoredTable};

/// A table that is filled row by row, before it is put among the tables of a query.
#[derive(Drop)]
pub(crate) struct PlainTable {
    names: Vec<Vec<u8>>,
    count: usize,
    // The bytes of the file.
    size: usize,
    fields: FieldWriter,
}

impl Model for PlainTable {
    ghost use Rattle.anyk_model.specs.Table.{Table};
    ghost use Rattle.csv_tables.specs.PlainTables.{IsWhole, table_view};

    ghost Value = { Table };

    ghost view = { table_view };

    ghost invariant = { IsWhole };
}

impl PlainTable {
    /// A table of columns with these names, without rows, from a file of `size` bytes. Takes no
    /// memory.
    pub(crate) fn new(alloc: Global, names: Vec<Vec<u8>>, size: usize) -> PlainTable
        ensures { result ≡ table_of (lists_of names.items ∷ []) }
    {
        PlainTable {
            names,
            count: 0,
            size,
            fields: FieldWriter::new(alloc),
        }
    }

    /// Adds the fields of a record as a row. After a refusal of memory the table is as before.
    pub(crate) fn push_row(&mut self, row: &ByteRecord) -> Result<(), NoMemory>
        requires few { length self.old.rows < 1048576 }
        requires width { length (fields_of row.now) ≡ length self.old.names }
        ensures added { OnOk result (self.new ≡ with_row self.old (fields_of row.now)) }
        ensures err { OnErr result (self.new ≡ self.old) }
    {
        self.make_room(row)?;
        self.fields.push_record(row)?;
        self.count += 1;
        Ok(())
    }

    /// Before the first row is added, makes room for all rows of the file, as if each were as long.
    fn make_room(&mut self, first: &ByteRecord) -> Result<(), NoMemory>
        ensures { self.new ≡ self.old }
    {
        if self.count > 0 {
            return Ok(());
        }
        self.fields.reserve(self.size, first)
    }

    /// The table as it is stored, with the numbers of its fields. Its new texts are added after the
    /// others, and some of them may be if memory is refused.
    pub(crate) fn store(self, texts: &mut Texts) -> Result<StoredTable, NoMemory>
        ensures shown { IfOk result (λ t. stored_view t ≡ self) }
        ensures stored { IfOk result (IsStored texts.new) }
        ensures texts { OnOk result (texts.new ≡ with_rows texts.old self.rows) }
        ensures err { OnErr result (Extends texts.old texts.new) }
    {
        let PlainTable {
            names,
            count,
            size: _,
            fields,
        } = self;
        let fields = fields.into_list();
        let cells = texts.numbers(&fields)?;
        let rows = StoredRows {
            count,
            cells,
            fields,
        };
        Ok(StoredTable { names, rows })
    }
}
