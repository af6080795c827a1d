//! Fields of a record, written one after another.
ghost use Rattle.std.specs.Prelude.{◌≡◌, ◌++◌, ◌∷◌, [], List, ℕ, OnOk, decimal, option_map};
ghost use Rattle.std.specs.Fmt.{signed_decimal};
ghost use Rattle.anyk_model.specs.Output.{optional_field};
ghost use Rattle.answer_print.specs.WrittenRecords.{HasFields};

use crate::RecordWriter;
use step_counter::NoMemory;
use text_lines::NumberText;

/// Writes a field, if there is one. `NoMemory` if memory is refused.
pub fn push_optional(records: &mut RecordWriter, field: Option<&[u8]>) -> Result<(), NoMemory>
    ensures { (fields : List (List ℕ)) → HasFields fields records.old.begun → OnOk result
        (HasFields (fields ++ optional_field (option_map (λ f. f.now) field.entry))
        records.new.begun) }
{
    match field {
        Some(field) => records.push(field),
        None => Ok(()),
    }
}

/// Writes a number that is not negative, in decimal. `NoMemory` if memory is refused.
#[inline(always)]
pub fn push_number(records: &mut RecordWriter, number: u32) -> Result<(), NoMemory>
    ensures { (fields : List (List ℕ)) → HasFields fields records.old.begun → OnOk result
        (HasFields (fields ++ decimal number ∷ []) records.new.begun) }
{
    let text = NumberText::of(number);
    records.push(text.as_bytes())
}

/// Writes a number that may be negative, in decimal. `NoMemory` if memory is refused.
pub fn push_signed(records: &mut RecordWriter, number: i128) -> Result<(), NoMemory>
    ensures { (fields : List (List ℕ)) → HasFields fields records.old.begun → OnOk result
        (HasFields (fields ++ signed_decimal number ∷ []) records.new.begun) }
{
    let text = NumberText::of_signed(number);
    records.push(text.as_bytes())
}
