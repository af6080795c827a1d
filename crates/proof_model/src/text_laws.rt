//! A law of the text.

ghost use Rattle.std.specs.Prelude.{◌≡◌, Ok};
ghost use Rattle.proof_model.specs.Certificate.{Certificate};
ghost use Rattle.proof_model.specs.NumberedProofs.{IsNumbered};
ghost use Rattle.proof_model.specs.Reading.{proof_of};
ghost use Rattle.proof_model.specs.Writing.{proof_text};

/// What is written is read as it was, if lines are numbered as they stand, each has a row, and
/// numbers have at most 7 digits.
pub fn written_is_read()
    ensures { (c : Certificate) → IsNumbered c → proof_of (proof_text c) ≡ Ok c }
{}
