//! The records of a text, one after another.
ghost use Rattle.std.specs.Prelude.{◌≡◌, ◌∷◌, [], IfOk, MatchBool};
ghost use Rattle.csv.specs.Records.{fields_of};
ghost use Rattle.anyk_model.specs.Table.{records_of};

use csv::{ByteRecord, Reader, ReaderBuilder};
use std::alloc::Global;
use std::marker::Model;
use step_counter::NoMemory;

/// The records of a text that are not read yet. After an error there are none.
#[derive(Drop)]
pub(crate) struct Records<'a> {
    reader: Reader<&'a [u8]>,
}

impl<'a> Model for Records<'a> {
    ghost use Rattle.std.specs.Prelude.{List};
    ghost use Rattle.anyk_model.specs.Table.{Fields};
    ghost use Rattle.csv_tables.specs.RecordsLeft.{records_left, KeepsPlain};

    ghost Value = { List Fields };

    ghost view = { λ r. records_left r.reader };

    ghost invariant = { λ r. KeepsPlain r.reader };
}

impl<'a> Records<'a> {
    /// All records of a text. The first is not special, and records may have different numbers of
    /// fields.
    pub(crate) fn new(alloc: Global, text: &'a [u8]) -> Self
        ensures { result ≡ records_of text.now }
    {
        Records {
            reader: ReaderBuilder::new()
                .has_headers(false)
                .flexible(true)
                .from_reader(alloc, text),
        }
    }

    /// Reads the next record into `row`, and returns whether there was one. `NoMemory` if memory is
    /// refused.
    pub(crate) fn next(&mut self, row: &mut ByteRecord) -> Result<bool, NoMemory>
        ensures { IfOk result
            (λ found. MatchBool found (self.old ≡ fields_of row.new ∷ self.new) (self.old ≡ [])) }
    {
        let Ok(found) = self.reader.read_byte_record(row) else {
            return Err(NoMemory);
        };
        Ok(found)
    }
}
