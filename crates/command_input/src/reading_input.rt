//! The input of a command.
ghost use Rattle.std.specs.Prelude.{◌≡◌, None, false, IfOk, Option, length, option_map};
ghost use Rattle.std.specs.String.{string_bytes};
ghost use Rattle.cmd_words.specs.ArgumentMeaning.{words_view};
ghost use Rattle.command_input.specs.StageViews.{input_result_view};
ghost use Rattle.command_input.specs.InputFiles.{aside_view, sought_view};
ghost use Rattle.verdict.specs.Outcome.{IsUntouched};
ghost use Rattle.verdict.specs.StageResults.{shelved};
ghost use Rattle.verdict.specs.Words.{a_command, input_files_of};
ghost use Rattle.command_input.specs.Tasks.{words_of};
ghost use Rattle.command_input.specs.Planned.{HasOne, IsLooked, IsLookedUp, sought_in};
ghost use Rattle.command_input.specs.Tasks.{command_of};

use crate::binding::Input;
use crate::generated_input::{asked_of_made, generate_input};
use crate::input::read_files;
use crate::input_files::{InputFiles, SideFile};
use crate::task::Task;
use cmd_words::Words;
use hash_keys::Keys;
use outer_io::Shelf;
use refusals::Refusal;
use std::alloc::Global;

/// The input of the command, or its first refusal. It is read from the files of the shelf that the
/// words name, or it is the tables that are made. Only `run` may have several queries.
pub fn read_input<'a, F: Shelf>(
    alloc: Global,
    task: &'a Task,
    shelf: &mut F,
    keys: Keys,
) -> Result<Input, Refusal<'a>>
    ensures looked { IsLooked (command_of task.now)
        (shelved F.Shelf shelf.old) (shelved F.Shelf shelf.new) (input_result_view result) }
    ensures untouched { IsUntouched (a_command (command_of task.now)) shelf.old shelf.new }
    ensures alone { IfOk result (HasOne (command_of task.now)) }
{
    match task {
        Task::Run(words) => {
            read_files_of(
                alloc,
                words,
                true,
                SideFile::Nothing,
                text_of(&words.best_of),
                shelf,
                keys,
            )
        }
        Task::Plan(words) => {
            read_files_of(alloc, words, false, SideFile::Nothing, None, shelf, keys)
        }
        Task::Session { script, words } => read_files_of(
            alloc,
            words,
            false,
            SideFile::Script(script.as_str()),
            text_of(&words.best_of),
            shelf,
            keys,
        ),
        Task::Load(_, made) => generate_input(alloc, made),
        Task::Prove(words) => read_files_of(
            alloc,
            words,
            false,
            SideFile::Nothing,
            None,
            shelf,
            keys,
        ),
        Task::Verify { proof, words } => {
            let aside = SideFile::Certificate(proof.as_str());
            read_files_of(alloc, words, false, aside, None, shelf, keys)
        }
    }
}

/// The text, if there is one.
fn text_of(text: &Option<String>) -> Option<&str>
    ensures { option_map (λ t. t.now) result ≡ option_map string_bytes text.now }
{
    match text {
        Some(text) => Some(text.as_str()),
        None => None,
    }
}

/// The input that is in the files of the shelf. It has one query if several are not allowed, and no
/// item whose rows are asked for if none is named.
pub fn read_files_of<'a, F: Shelf>(
    alloc: Global,
    words: &'a Words,
    several: bool,
    aside: SideFile<'a>,
    best_of: Option<&'a str>,
    shelf: &mut F,
    keys: Keys,
) -> Result<Input, Refusal<'a>>
    ensures looked { IsLookedUp (sought_in (words_of (words_view words.now)) several
        (aside_view aside.entry) (option_map (λ t. t.now) best_of.entry))
        (shelved F.Shelf shelf.old) (shelved F.Shelf shelf.new) (input_result_view result) }
    ensures alone { several ≡ false → IfOk result (λ input. length input.queries ≡ 1) }
    ensures unnamed { best_of.entry ≡ None → IfOk result (λ input. input.best ≡ None) }
{
    let sought = asked_in(words, several, aside, best_of);
    read_files(alloc, &sought, shelf, keys)
}

/// What these words name, with this script or certificate and this alias.
fn asked_in<'a>(
    words: &'a Words,
    several: bool,
    aside: SideFile<'a>,
    best_of: Option<&'a str>,
) -> InputFiles<'a>
    ensures asked { sought_view result ≡ sought_in (words_of (words_view words.now)) several
        (aside_view aside.entry) (option_map (λ t. t.now) best_of.entry) }
    ensures best_of { result.best_of ≡ best_of.entry }
{
    InputFiles {
        query: words.query.as_str(),
        several,
        aside,
        named: words.tables.as_slice(),
        best_of,
    }
}

/// What a command reads.
pub(crate) fn asked_of<'a>(task: &'a Task) -> InputFiles<'a>
    ensures { sought_view result ≡ input_files_of (command_of task.now) }
{
    match task {
        Task::Run(words) => asked_in(words, true, SideFile::Nothing, text_of(&words.best_of)),
        Task::Plan(words) => asked_in(words, false, SideFile::Nothing, None),
        Task::Session { script, words } => {
            let aside = SideFile::Script(script.as_str());
            asked_in(words, false, aside, text_of(&words.best_of))
        }
        Task::Load(_, made) => asked_of_made(made),
        Task::Prove(words) => asked_in(words, false, SideFile::Nothing, None),
        Task::Verify { proof, words } => {
            asked_in(words, false, SideFile::Certificate(proof.as_str()), None)
        }
    }
}
