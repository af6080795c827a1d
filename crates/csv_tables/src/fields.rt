//! Fields that are copied one after another into one vector.
ghost use Rattle.std.specs.Prelude.{◌≡◌, ◌+◌, ◌≤◌, ◌∷◌, ◌++◌, [], IfOk, OnErr, OnOk, length, take};
ghost use Rattle.std.specs.List.{concat};
ghost use Rattle.std.specs.Vec.{vec_capacity, vec_len};
ghost use Rattle.csv.specs.Records.{fields_of, text_of};
ghost use Rattle.csv_tables.specs.Fields.{ends_from};

use csv::ByteRecord;
use std::alloc::Global;
use std::marker::Model;
use step_counter::NoMemory;
use table_store::{FieldList, start_of};

/// The greatest number of bytes of all fields, so that each place is a `u32`.
const MAX_BYTES: usize = 4_294_967_295;

/// The fields of records, and the places where they end, as they are copied.
#[derive(Drop)]
pub(crate) struct FieldWriter {
    bytes: Vec<u8>,
    ends: Vec<u32>,
}

impl Model for FieldWriter {
    ghost use Rattle.anyk_model.specs.Table.{Fields};
    ghost use Rattle.csv_tables.specs.Fields.{IsPacked, fields_view};

    ghost Value = { Fields };

    ghost view = { fields_view };

    ghost invariant = { IsPacked };
}

impl FieldWriter {
    /// No fields. Takes no memory.
    pub(crate) fn new(alloc: Global) -> FieldWriter
        ensures { result ≡ [] }
    {
        FieldWriter {
            bytes: Vec::new(alloc),
            ends: Vec::new(alloc),
        }
    }

    /// The fields, as a list that does not grow.
    pub(crate) fn into_list(self) -> FieldList
        ensures { result ≡ self }
    {
        let FieldWriter { bytes, ends } = self;
        FieldList::new(bytes, ends)
    }

    /// Makes room for the fields of a file of `size` bytes whose records are all as long as this one,
    /// so that the vectors need not grow, row by row. No file has more bytes of fields than its own,
    /// nor more fields.
    pub(crate) fn reserve(&mut self, size: usize, row: &ByteRecord) -> Result<(), NoMemory>
        ensures { self.new ≡ self.old }
    {
        self.bytes.reserve(size)?;
        let row_size = row.as_slice().len().saturating_add(row.len());
        let rows = size / row_size.max(1);
        self.ends.reserve(rows.saturating_mul(row.len()))?;
        Ok(())
    }

    /// Adds a field at the end. After a refusal of memory the fields are as before.
    pub(crate) fn push(&mut self, field: &[u8]) -> Result<(), NoMemory>
        ensures added { OnOk result (self.new ≡ self.old ++ field.now ∷ []) }
        ensures err { OnErr result (self.new ≡ self.old) }
    {
        let end = self.bytes.len() + field.len();
        if end > MAX_BYTES {
            return Err(NoMemory);
        }
        self.ends.reserve(1)?;
        self.bytes.extend_from_slice(field)?;
        self.ends.push_reserved(end as u32);
        Ok(())
    }

    /// Adds the fields of a record at the end. After a refusal of memory the fields are as before.
    pub(crate) fn push_record(&mut self, row: &ByteRecord) -> Result<(), NoMemory>
        ensures added { OnOk result (self.new ≡ self.old ++ fields_of row.now) }
        ensures err { OnErr result (self.new ≡ self.old) }
    {
        let count = self.ends.len();
        let front = self.push_front(row)?;
        for i in front..row.len() {
            let Some(field) = row.get(i) else {
                unreachable!()
            };
            if let Err(refused) = self.push(field) {
                self.truncate(count);
                return Err(refused);
            }
        }
        Ok(())
    }

    /// Adds the fields of a record that stand before its first empty one, by one copy of bytes.
    /// Returns how many these are. After a refusal of memory the fields are as before.
    fn push_front(&mut self, row: &ByteRecord) -> Result<usize, NoMemory>
        ensures added { IfOk result (λ n. self.new ≡ self.old ++ take n (fields_of row.now)) }
        ensures within { IfOk result (λ n. n ≤ length (fields_of row.now)) }
        ensures err { OnErr result (self.new ≡ self.old) }
    {
        let start = self.bytes.len();
        let text = row.as_slice();
        if start + text.len() > MAX_BYTES {
            return Err(NoMemory);
        }
        self.ends.reserve(row.len())?;
        self.bytes.extend_from_slice(text)?;
        let (count, end) = push_ends(&mut self.ends, start, row);
        self.bytes.truncate(end);
        Ok(count)
    }

    /// Keeps only the first `len` fields.
    fn truncate(&mut self, len: usize)
        ensures { self.new ≡ take len self.old }
    {
        if len < self.ends.len() {
            let end = start_of(&self.ends, len);
            self.ends.truncate(len);
            self.bytes.truncate(end);
        }
    }
}

/// Appends the places where the fields of a record end, if its text is put behind `start` bytes.
/// Goes up to the first empty field. `csv` states the bytes of each field and of the text, and not
/// that fields lie one after another in it. Fields that are not empty must: each starts where the
/// one before it ends. An empty one does not show where it lies. Returns how many fields these are,
/// and where the last one ends.
fn push_ends(ends: &mut Vec<u32>, start: usize, row: &ByteRecord) -> (usize, usize)
    requires room { vec_len ends.old + length (fields_of row.now) ≤ vec_capacity ends.old }
    requires size { start + length (text_of row.now) ≤ 4294967295 }
    ensures within { result.0 ≤ length (fields_of row.now) }
    ensures ends { ends.new.items
        ≡ ends.old.items ++ ends_from start (take result.0 (fields_of row.now)) }
    ensures end { result.1 ≡ start + length (concat (take result.0 (fields_of row.now))) }
    ensures text { take (length (concat (take result.0 (fields_of row.now)))) (text_of row.now)
        ≡ concat (take result.0 (fields_of row.now)) }
{
    let mut end = start;
    for i in 0..row.len() {
        let Some(field) = row.get(i) else {
            unreachable!()
        };
        if field.is_empty() {
            return (i, end);
        }
        end += field.len();
        ends.push_reserved(end as u32);
    }
    (row.len(), end)
}
