//! The texts of records.
ghost use Rattle.std.specs.Prelude.{◌≡◌, ◌==◌, ◌+◌, ◌-◌, ◌^◌, ◌++◌, ◌∷◌, [], List, ℕ, OnOk, false, length, min, not, true};
ghost use Rattle.anyk_model.specs.Output.{record_text};
ghost use Rattle.csv.specs.Writing.{field_text, fields_written, has_written, next_sep, tail_text, writer_pending, writer_setup};
ghost use Rattle.answer_print.specs.WrittenRecords.{HasFields, IsBetween, any_length, bytes_under};

use csv::{Writer, WriterBuilder};
use std::alloc::Global;
use std::marker::Model;
use step_counter::NoMemory;

/// The greatest number of bytes of earlier records that a writer keeps. If it has more, a fresh
/// writer replaces it.
const MAX_KEPT: usize = 16_384;

/// Writes records one after another, as `csv` writes them by default, each with its line end, and
/// each field by field. Contracts see the text of the record that was ended last, and what is
/// written of the next one.
#[derive(Drop)]
pub struct RecordWriter {
    writer: Writer<Vec<u8>>,
    // Where the last record starts in what the writer has written.
    start: usize,
    // Whether the record has a field and was not ended.
    open: bool,
    alloc: Global,
}

impl Model for RecordWriter {
    ghost use Rattle.answer_print.specs.RecordWriters.{RecordView, record_view, KeepsRecords};

    ghost Value = { RecordView };

    ghost view = { record_view };

    ghost invariant = { KeepsRecords };
}

impl RecordWriter {
    /// A writer without a record. Takes no memory.
    pub fn new(alloc: Global) -> RecordWriter
        ensures text { result.text ≡ [] }
        ensures fields { HasFields [] result.begun }
    {
        RecordWriter {
            writer: new_writer(alloc),
            start: 0,
            open: false,
            alloc,
        }
    }

    /// Begins a record, which has no field yet. What was written of a record that was not ended is
    /// left out.
    pub fn begin(&mut self)
        ensures { HasFields [] self.new.begun }
    {
        if self.open || self.writer.get_ref().len() > MAX_KEPT {
            renew(&mut self.writer, self.alloc);
            self.open = false;
        }
        self.start = self.writer.get_ref().len();
    }

    /// Writes one more field of the record. `NoMemory` if memory is refused; another record can be
    /// begun then. Put in place where it is called: most of an answer's time is in its fields.
    #[inline(always)]
    pub fn push(&mut self, field: &[u8]) -> Result<(), NoMemory>
        ensures { (fields : List (List ℕ)) → HasFields fields self.old.begun
            → OnOk result (HasFields (fields ++ field.now ∷ []) self.new.begun) }
    {
        self.open = true;
        let written = write_field(&mut self.writer, field);
        if written.is_err() {
            renew(&mut self.writer, self.alloc);
            self.start = 0;
        }
        written
    }

    /// Ends the record. `NoMemory` if memory is refused; another record can be begun then.
    pub fn end(&mut self) -> Result<(), NoMemory>
        ensures { (fields : List (List ℕ)) → HasFields fields self.old.begun
            → OnOk result (self.new.text ≡ record_text fields) }
    {
        let ended = end_record(&mut self.writer);
        self.open = false;
        if ended.is_err() {
            renew(&mut self.writer, self.alloc);
            self.start = 0;
        }
        ended
    }

    /// The text of the record that was ended last, until another one is begun.
    pub fn text(&self) -> &[u8]
        ensures { result.now ≡ self.now.text }
    {
        let written = self.writer.get_ref();
        if self.start > written.len() {
            return &[];
        }
        &written[self.start..]
    }
}

/// A writer of records of any length, which has written none.
fn new_writer(alloc: Global) -> Writer<Vec<u8>>
    ensures between { IsBetween result }
    ensures empty { bytes_under result ≡ [] }
{
    WriterBuilder::new()
        .flexible(true)
        .from_writer(Vec::new(alloc))
}

/// Puts a fresh writer in place of this one. It is a function of its own, since a writer holds a
/// buffer of 8 KiB, which is set to zero at the entry of the function that makes one.
#[inline(never)]
fn renew(writer: &mut Writer<Vec<u8>>, alloc: Global)
    ensures between { IsBetween writer.new }
    ensures empty { bytes_under writer.new ≡ [] }
{
    *writer = new_writer(alloc);
}

/// Writes one more field of a record. Nothing is known of the writer if memory is refused.
fn write_field(writer: &mut Writer<Vec<u8>>, field: &[u8]) -> Result<(), NoMemory>
    requires { writer_setup writer.old ≡ any_length }
    ensures setup { OnOk result (writer_setup writer.new ≡ any_length) }
    ensures bytes { OnOk result (bytes_under writer.new ++ writer_pending writer.new
        ≡ (bytes_under writer.old ++ writer_pending writer.old)
        ++ (next_sep any_length (fields_written writer.old)
        ++ field_text any_length field.now)) }
    ensures fields { OnOk result
        (fields_written writer.new ≡ min (fields_written writer.old + 1) (2 ^ 64 - 1)) }
    ensures first { OnOk result (has_written writer.old ≡ false
        → has_written writer.new ≡ not (length (field_text any_length field.now) == 0)) }
    ensures stays { OnOk result (has_written writer.old ≡ true → has_written writer.new ≡ true) }
{
    let Ok(()) = writer.write_field(field) else {
        return Err(NoMemory);
    };
    Ok(())
}

/// Writes the end of a record, and all that the writer holds. Nothing is known of the writer if
/// memory is refused.
fn end_record(writer: &mut Writer<Vec<u8>>) -> Result<(), NoMemory>
    requires { writer_setup writer.old ≡ any_length }
    ensures between { OnOk result (IsBetween writer.new) }
    ensures bytes { OnOk result (bytes_under writer.new
        ≡ (bytes_under writer.old ++ writer_pending writer.old)
        ++ tail_text any_length (has_written writer.old) (fields_written writer.old)) }
{
    let Ok(()) = writer.end_record() else {
        return Err(NoMemory);
    };
    let Ok(()) = writer.flush() else {
        return Err(NoMemory);
    };
    Ok(())
}
