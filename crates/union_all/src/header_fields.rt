//! The empty fields of a record.
ghost use Rattle.std.specs.Prelude.{◌≡◌, ◌++◌, [], List, ℕ, OnOk, replicate};
ghost use Rattle.answer_print.specs.WrittenRecords.{HasFields};

use answer_print::RecordWriter;
use step_counter::NoMemory;

/// Writes empty fields.
pub(crate) fn push_empty(records: &mut RecordWriter, count: u32) -> Result<(), NoMemory>
    ensures { (fields : List (List ℕ)) → HasFields fields records.old.begun → OnOk result
        (HasFields (fields ++ replicate count []) records.new.begun) }
{
    for _field in 0..count {
        records.push(b"")?;
    }
    Ok(())
}
