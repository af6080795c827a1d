//! From the arguments to a command.

ghost use Rattle.std.specs.Prelude.{◌≡◌, Some, None, map, option_map, IfOk, IsErrOf};
ghost use Rattle.std.specs.String.{string_bytes};
ghost use Rattle.clap.specs.Matches.{found_of};
ghost use Rattle.clap.specs.Walk.{rows_of};
ghost use Rattle.cmd_words.specs.Commands.{parsed_command, command_view, KeepsRange};
ghost use Rattle.cmd_words.specs.CommandNames.{command_said, said_as, said_by_rows};
ghost use Rattle.cmd_words.specs.ArgumentMeaning.{words_view};

use crate::WordsFault;
use crate::command::{Command, Words};
use crate::name::{CommandName, FilesName, command_named};
use crate::parse::parse_arguments;
use crate::texts::{read_load, read_texts_for, texts_for, texts_of};
use clap::ArgMatches;
use std::alloc::Global;

/// The command that the arguments after the program's name give. `Usage` exactly if they give none:
/// if the first is none of `run`, `session`, `plan`, `load`, `prove` and `verify`, if `clap`
/// rejects the others (a request for help is also rejected), if a TABLE=FILE argument has nothing
/// before or after its first `=`, or if two of them name the same table. `NoMemory` if memory is
/// refused.
pub fn read_words(alloc: Global, words: &[String]) -> Result<Command, WordsFault>
    ensures words { IfOk result
        (λ command. parsed_command (map string_bytes words.now) ≡ Some (command_view command)) }
    ensures usage { IsErrOf result WordsFault.Usage → parsed_command (map string_bytes words.now) ≡ None }
    ensures ranges { IfOk result KeepsRange }
{
    let [first, ..] = words else {
        return Err(WordsFault::Usage);
    };
    match command_named(first.as_str()) {
        Some(name) => read_named(alloc, name, words),
        None => Err(WordsFault::Usage),
    }
}

/// What the arguments say to the command of this name. `Usage` if they say nothing.
fn read_named(alloc: Global, name: CommandName, words: &[String]) -> Result<Command, WordsFault>
    ensures words { IfOk result
        (λ command. said_as name (map string_bytes words.now) ≡ Some (command_view command)) }
    ensures usage { IsErrOf result WordsFault.Usage
        → said_as name (map string_bytes words.now) ≡ None }
    ensures ranges { IfOk result KeepsRange }
{
    match parse_arguments(alloc, name, words) {
        Ok(matches) => read_matches(alloc, name, &matches),
        Err(fault) => Err(fault),
    }
}

/// What the matches say to the command of this name. `Usage` if they say nothing.
fn read_matches(
    alloc: Global,
    name: CommandName,
    matches: &ArgMatches<'_>,
) -> Result<Command, WordsFault>
    ensures words { IfOk result (λ command.
        said_by_rows name (rows_of (found_of matches.now)) ≡ Some (command_view command)) }
    ensures usage { IsErrOf result WordsFault.Usage
        → said_by_rows name (rows_of (found_of matches.now)) ≡ None }
    ensures ranges { IfOk result KeepsRange }
{
    match name {
        CommandName::OverFiles(name) => {
            let words = read_texts_for(alloc, name, texts_for(name, texts_of(matches)))?;
            Ok(command_of(name, words))
        }
        CommandName::Load => read_load(matches),
    }
}

/// The command over files that has this name and these words.
fn command_of(name: FilesName, words: Words) -> Command
    ensures command { command_view result ≡ command_said name (words_view words) }
    ensures range { KeepsRange result }
{
    match name {
        FilesName::Run => Command::Run(words),
        FilesName::Session => Command::Session(words),
        FilesName::Plan => Command::Plan(words),
        FilesName::Prove => Command::Prove(words),
        FilesName::Verify => Command::Verify(words),
    }
}
