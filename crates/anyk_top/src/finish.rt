//! How a call ends.
ghost use Rattle.std.specs.Prelude.{◌≡◌};
ghost use Rattle.refusals.specs.RefusalReasons.{reason_of};
ghost use Rattle.outer_io.specs.SinkState.{state_of};
ghost use Rattle.anyk_top.specs.CommandLine.{rejected_as};
ghost use Rattle.anyk_top.specs.Endings.{Finished};

use cmd_words::WordsFault;
use outer_io::Sink;
use refusals::{Refusal, write_line};

/// Writes the line of a refusal to `err`, if there is one, and returns the exit status. A write
/// that fails there does not change the status.
pub(crate) fn finish<E: Sink>(err: &mut E, outcome: Result<(), Refusal<'_>>) -> u8
    ensures { Finished (state_of E.Sink err.old) (state_of E.Sink err.new) outcome.entry result }
{
    match outcome {
        Ok(()) => 0,
        Err(refusal) => {
            let _ = write_line(err, refusal);
            refusal.status()
        }
    }
}

/// The refusal of arguments that are rejected.
pub(crate) fn refusal_of<'a>(fault: WordsFault) -> Refusal<'a>
    ensures { reason_of result ≡ rejected_as fault }
{
    match fault {
        WordsFault::Usage => Refusal::Usage,
        WordsFault::NoMemory => Refusal::NoMemory,
    }
}
