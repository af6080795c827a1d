//! Printing a text by one write.
ghost use Rattle.outer_io.specs.Printing.{Printed};
ghost use Rattle.outer_io.specs.SinkState.{state_of};

use crate::fault::PrintFault;
use crate::{Sink, write_all};

/// Prints a text by one write. `Write` if the write failed. It takes no memory.
pub fn print<S: Sink>(out: &mut S, text: &[u8]) -> Result<(), PrintFault>
    ensures { Printed (state_of S.Sink out.old) (state_of S.Sink out.new) text.now result }
{
    match write_all(out, text) {
        Ok(()) => Ok(()),
        Err(_) => Err(PrintFault::Write),
    }
}
