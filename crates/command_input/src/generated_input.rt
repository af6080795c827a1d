//! An input that is made from a number.
ghost use Rattle.std.specs.Prelude.{◌≡◌, ◌∷◌, ◌++◌, [], false, IfOk, OnOk, length, map};
ghost use Rattle.outer_io.specs.Entries.{entry_of};
ghost use Rattle.verdict.specs.MadeFiles.{made_files};
ghost use Rattle.verdict.specs.StageResults.{Pure};
ghost use Rattle.verdict.specs.Verdict.{IsLoadedOn};
ghost use Rattle.verdict.specs.Words.{load, input_files_of};
ghost use Rattle.command_input.specs.InputFiles.{sought_view};
ghost use Rattle.command_input.specs.StageViews.{input_result_view};

use crate::binding::Input;
use crate::generated::MadeTables;
use crate::input::read_files;
use crate::input_files::{InputFiles, SideFile};
use hash_keys::Keys;
use make_input::{query_of, tables_of};
use outer_io::{MemFile, PureShelf};
use refusals::Refusal;
use std::alloc::Global;
use step_counter::NoMemory;

/// The input of the query over the tables that are made, or its first refusal. No file is read. The
/// tables are the program's own, so that they are hashed with known keys.
pub fn generate_input<'a>(alloc: Global, made: &'a MadeTables) -> Result<Input, Refusal<'a>>
    ensures made { let asked = input_files_of (load made.now.number made.now.rows) in
        Pure (IsLoadedOn asked (made_files made.now.number made.now.rows))
        (input_result_view result) }
    ensures alone { IfOk result (λ input. length input.queries ≡ 1) }
{
    let sought = asked_of_made(made);
    match made_shelf(alloc, made) {
        Ok(files) => read_files(alloc, &sought, &mut PureShelf::new(files), Keys::Known),
        Err(_) => Err(Refusal::NoMemory),
    }
}

/// The names of the query and of the tables.
pub(crate) fn asked_of_made<'a>(made: &'a MadeTables) -> InputFiles<'a>
    ensures asked { sought_view result ≡ input_files_of (load made.now.number made.now.rows) }
    ensures one { result.several ≡ false }
{
    InputFiles {
        query: "load.sql",
        several: false,
        aside: SideFile::Nothing,
        named: made.named.as_slice(),
        best_of: None,
    }
}

/// The file of the query and the files of the tables, in memory.
fn made_shelf(alloc: Global, made: &MadeTables) -> Result<Vec<MemFile>, NoMemory>
    ensures { IfOk result
        (λ files. map entry_of files.items ≡ made_files made.now.number made.now.rows) }
{
    let mut files = Vec::new(alloc);
    let bytes = query_of(alloc)?;
    push_file(alloc, &mut files, "load.sql", bytes)?;
    let tables = tables_of(alloc, made.number, made.rows)?;
    for (named, bytes) in made.named.iter().zip(tables) {
        push_file(alloc, &mut files, named.file.as_str(), bytes)?;
    }
    Ok(files)
}

/// Puts a file of this name with these bytes after the others.
fn push_file(
    alloc: Global,
    files: &mut Vec<MemFile>,
    name: &str,
    bytes: Vec<u8>,
) -> Result<(), NoMemory>
    ensures { OnOk result
        (map entry_of files.new.items
        ≡ map entry_of files.old.items ++ (name.now, bytes.items) ∷ []) }
{
    let name = String::from_str(alloc, name)?;
    files.push(MemFile { name, bytes })?;
    Ok(())
}
