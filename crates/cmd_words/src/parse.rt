//! What `clap` makes of the command line.

ghost use Rattle.std.specs.Prelude.{◌≡◌, [], map, IfOk, IsErrOf, OnOk};
ghost use Rattle.std.specs.String.{string_bytes};
ghost use Rattle.clap.specs.Faults.{fault_of};
ghost use Rattle.clap.specs.Matches.{found_of};
ghost use Rattle.clap.specs.Simple.{matches_of};
ghost use Rattle.clap.specs.Walk.{rows_of};
ghost use Rattle.clap.specs.Values.{kind_of};
ghost use Rattle.cmd_words.specs.CommandNames.{app_named};

use crate::WordsFault;
use crate::arguments::parser_for;
use crate::name::CommandName;
use clap::error::ErrorKind;
use clap::{ArgMatches, Error};
use std::alloc::Global;

/// The matches of the arguments, the first of which is the command's name. `Usage` if `clap`
/// rejects them, and `NoMemory` if memory is refused.
pub fn parse_arguments<'a>(
    alloc: Global,
    name: CommandName,
    words: &'a [String],
) -> Result<ArgMatches<'a>, WordsFault>
    ensures taken { OnOk result (fault_of (app_named name) (map string_bytes words.now) ≡ []) }
    ensures matches { IfOk result
        (λ m. rows_of (found_of m) ≡ matches_of (app_named name) (map string_bytes words.now)) }
    ensures usage { IsErrOf result WordsFault.Usage
        → fault_of (app_named name) (map string_bytes words.now) ≡ [] → ⊥ }
{
    match parser_for(alloc, name)?.try_get_matches_from(words) {
        Ok(matches) => Ok(matches),
        Err(error) => Err(fault_of_error(&error)),
    }
}

/// What `clap`'s error means: memory was refused, or the arguments are no command.
fn fault_of_error(error: &Error) -> WordsFault
    ensures { result ≡ WordsFault.Usage → kind_of error.now ≡ ErrorKind.OutOfMemory → ⊥ }
{
    match error.kind() {
        ErrorKind::OutOfMemory => WordsFault::NoMemory,
        _ => WordsFault::Usage,
    }
}
