//! Reading one file.
ghost use Rattle.std.specs.Prelude.{◌≡◌, ◌≤◌, IfErr, IfOk, length};
ghost use Rattle.verdict.specs.Loading.{file_in};
ghost use Rattle.verdict.specs.Stages.{Is};
ghost use Rattle.verdict.specs.StageResults.{Staged, TellsOne, shelved};
ghost use Rattle.refusals.specs.RefusalReasons.{reason_of};
ghost use Rattle.command_input.specs.StageViews.{file_reason, bytes_result_view};

use outer_io::{FileFault, Shelf, read_file};
use refusals::Refusal;
use std::alloc::Global;

/// The bytes of the file with this name. `NoFile` if there is none, `ReadFault` if a read failed,
/// `TooLarge` if the file is longer than the limit, and `NoMemory` if memory is refused.
pub(crate) fn load<'a, F: Shelf>(
    alloc: Global,
    shelf: &mut F,
    name: &'a str,
) -> Result<Vec<u8>, Refusal<'a>>
    ensures staged { Staged (λ files. Is (file_in files name.now)) (λ files file. file ≡ name.now)
        (shelved F.Shelf shelf.old) (shelved F.Shelf shelf.new) (bytes_result_view result) }
    ensures tells { IfErr result
        (λ refusal. TellsOne (λ file. file ≡ name.now) (reason_of refusal)) }
    ensures short { IfOk result (λ bytes. length bytes.items ≤ 67108864) }
{
    match read_file(alloc, shelf, name) {
        Ok(bytes) => Ok(bytes),
        Err(fault) => Err(file_refusal(fault, name)),
    }
}

/// The refusal for a file that was not read.
fn file_refusal<'a>(fault: FileFault, name: &'a str) -> Refusal<'a>
    ensures { reason_of result ≡ file_reason name.now fault }
{
    match fault {
        FileFault::Missing => Refusal::NoFile(name),
        FileFault::Failed => Refusal::ReadFault(name),
        FileFault::TooLarge => Refusal::TooLarge(name),
        FileFault::NoMemory => Refusal::NoMemory,
    }
}
