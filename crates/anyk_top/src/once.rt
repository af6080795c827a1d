//! Printing a text once it is complete, by one write.
ghost use Rattle.outer_io.specs.Printing.{Printed};
ghost use Rattle.outer_io.specs.SinkState.{state_of};
ghost use Rattle.verdict.specs.Silence.{IsSilent};

use outer_io::{PrintFault, Sink, write_all};

/// Prints a complete text by one write. `Write` if the write failed. It takes no memory, so that
/// there is no other fault.
pub(crate) fn print_once<S: Sink>(out: &mut S, text: &[u8]) -> Result<(), PrintFault>
    ensures printed { Printed (state_of S.Sink out.old) (state_of S.Sink out.new) text.now result }
    ensures silent { IsSilent (state_of S.Sink out.old) (state_of S.Sink out.new) result }
{
    match write_all(out, text) {
        Ok(()) => Ok(()),
        Err(_) => Err(PrintFault::Write),
    }
}
