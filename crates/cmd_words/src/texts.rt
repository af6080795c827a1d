//! The values of options and arguments as text, and what they say.

ghost use Rattle.std.specs.Prelude.{◌≡◌, ◌≤◌, Some, None, map, option_and_then, option_map, IfOk, IfSome, IsErrOf};
ghost use Rattle.std.specs.String.{string_bytes};
ghost use Rattle.clap.specs.Matches.{found_of};
ghost use Rattle.clap.specs.Walk.{rows_of};
ghost use Rattle.cmd_words.specs.NamedPairs.{named_pair};
ghost use Rattle.cmd_words.specs.Numbers.{begins_plainly, number_in};
ghost use Rattle.cmd_words.specs.ArgumentMeaning.{engine_of, is_set, said_by, arguments_view, words_view, tables_of, texts_of};
ghost use Rattle.cmd_words.specs.Commands.{command_view, KeepsRange};
ghost use Rattle.cmd_words.specs.CommandNames.{load_by_options, said_by_rows, texts_for, words_by};

use crate::WordsFault;
use crate::command::{Command, Engine, Words};
use crate::name::{CommandName, FilesName};
use crate::pairs::{Named, name_distinct_tables, read_pairs};
use clap::ArgMatches;
use std::alloc::{AllocError, Global};

/// The values of the options and arguments of a command over files, as text.
#[derive(Clone, Copy, Drop)]
pub struct OptionTexts<'m, 'a> {
    pub engine: Option<&'a str>,
    pub ranks: Option<&'a str>,
    pub rows: Option<&'a str>,
    pub script: Option<&'a str>,
    pub proof: Option<&'a str>,
    pub best_of: Option<&'a str>,
    pub query: Option<&'a str>,
    pub tables: Option<&'m [&'a str]>,
}

/// The values that the matches hold.
pub fn texts_of<'m, 'a>(matches: &'m ArgMatches<'a>) -> OptionTexts<'m, 'a>
    ensures { arguments_view result ≡ texts_of (rows_of (found_of matches.entry.now)) }
{
    OptionTexts {
        engine: matches.get_str("engine"),
        ranks: matches.get_str("ranks"),
        rows: matches.get_str("rows"),
        script: matches.get_str("script"),
        proof: matches.get_str("proof"),
        best_of: matches.get_str("best-of"),
        query: matches.get_str("query"),
        tables: matches.get_strs("tables"),
    }
}

/// The values that the command of this name has. It has the engine `part` if it has no `--engine`.
pub fn texts_for<'m, 'a>(name: FilesName, texts: OptionTexts<'m, 'a>) -> OptionTexts<'m, 'a>
    ensures { arguments_view result ≡ texts_for name (arguments_view texts.entry) }
{
    let plain = OptionTexts {
        engine: Some("part"),
        ranks: None,
        rows: None,
        script: None,
        proof: None,
        best_of: None,
        ..texts
    };
    match name {
        FilesName::Run => OptionTexts {
            script: None,
            proof: None,
            ..texts
        },
        FilesName::Session => OptionTexts {
            proof: None,
            ..texts
        },
        FilesName::Plan => plain,
        FilesName::Prove => OptionTexts {
            engine: texts.engine,
            ..plain
        },
        FilesName::Verify => OptionTexts {
            ranks: texts.ranks,
            rows: texts.rows,
            proof: texts.proof,
            ..plain
        },
    }
}

/// What the values say. `Usage` if they say nothing, and `NoMemory` if memory is refused.
fn read_texts(alloc: Global, texts: OptionTexts<'_, '_>) -> Result<Words, WordsFault>
    ensures words { IfOk result
        (λ said. said_by (arguments_view texts.entry) ≡ Some (words_view said)) }
    ensures usage { IsErrOf result WordsFault.Usage → said_by (arguments_view texts.entry) ≡ None }
{
    let Some(engine) = read_engine(texts.engine) else {
        return Err(WordsFault::Usage);
    };
    let Some(query) = texts.query else {
        return Err(WordsFault::Usage);
    };
    let tables = read_tables(alloc, texts.tables)?;
    let script = owned(alloc, texts.script)?;
    let proof = owned(alloc, texts.proof)?;
    let best_of = owned(alloc, texts.best_of)?;
    let query = String::from_str(alloc, query)?;
    Ok(Words {
        engine,
        ranks: is_set(texts.ranks),
        rows: is_set(texts.rows),
        script,
        proof,
        best_of,
        query,
        tables,
    })
}

/// What the values say to the command of this name: a session has a script, and a verification a
/// certificate. `Usage` if they say nothing, and `NoMemory` if memory is refused.
pub fn read_texts_for(
    alloc: Global,
    name: FilesName,
    texts: OptionTexts<'_, '_>,
) -> Result<Words, WordsFault>
    ensures words { IfOk result
        (λ said. words_by name (arguments_view texts.entry) ≡ Some (words_view said)) }
    ensures usage { IsErrOf result WordsFault.Usage
        → words_by name (arguments_view texts.entry) ≡ None }
{
    match name {
        FilesName::Session if texts.script.is_none() => Err(WordsFault::Usage),
        FilesName::Verify if texts.proof.is_none() => Err(WordsFault::Usage),
        _ => read_texts(alloc, texts),
    }
}

/// The tables and files that the arguments name. `Usage` if one is no TABLE=FILE, or a table is
/// named twice.
fn read_tables(alloc: Global, words: Option<&[&str]>) -> Result<Vec<Named>, WordsFault>
    ensures tables { IfOk result
        (λ named. tables_of (option_map (λ s. map (λ v. v.now) s.now) words.entry)
        ≡ Some (map named_pair named.items)) }
    ensures usage { IsErrOf result WordsFault.Usage
        → tables_of (option_map (λ s. map (λ v. v.now) s.now) words.entry) ≡ None }
{
    let Some(words) = words else {
        return Err(WordsFault::Usage);
    };
    let named = read_pairs(alloc, words)?;
    if !name_distinct_tables(alloc, &named)? {
        return Err(WordsFault::Usage);
    }
    Ok(named)
}

/// The text as a string of its own, if there is one.
fn owned(alloc: Global, text: Option<&str>) -> Result<Option<String>, AllocError>
    ensures { IfOk result
        (λ copy. option_map string_bytes copy ≡ option_map (λ s. s.now) text.entry) }
{
    match text {
        Some(text) => Ok(Some(String::from_str(alloc, text)?)),
        None => Ok(None),
    }
}

/// Whether a flag is set, by the text that `clap` gives for it.
fn is_set(text: Option<&str>) -> bool
    ensures { result ≡ is_set (option_map (λ s. s.now) text.entry) }
{
    match text {
        Some(text) => text == "true",
        None => false,
    }
}

/// The engine that a text names.
fn read_engine(text: Option<&str>) -> Option<Engine>
    ensures { result ≡ engine_of (option_map (λ s. s.now) text.entry) }
{
    match text? {
        "part" => Some(Engine::Part),
        "rec" => Some(Engine::Rec),
        _ => None,
    }
}

/// What the matches say to `load`: the engine, the generator's number and the rows of each table.
/// `Usage` if they say nothing.
pub fn read_load(matches: &ArgMatches<'_>) -> Result<Command, WordsFault>
    ensures words { IfOk result (λ command.
        said_by_rows CommandName.Load (rows_of (found_of matches.now))
        ≡ Some (command_view command)) }
    ensures usage { IsErrOf result WordsFault.Usage
        → said_by_rows CommandName.Load (rows_of (found_of matches.now)) ≡ None }
    ensures ranges { IfOk result KeepsRange }
{
    read_load_options(
        matches.get_str("engine"),
        matches.get_str("number"),
        matches.get_str("rows"),
    )
}

/// The engine, the generator's number and the rows, by the texts of their options. `Usage` if one
/// is missing or out of range.
fn read_load_options(
    engine: Option<&str>,
    number: Option<&str>,
    rows: Option<&str>,
) -> Result<Command, WordsFault>
    ensures words { IfOk result
        (λ command. load_by_options (option_map (λ s. s.now) engine.entry)
        (option_map (λ s. s.now) number.entry) (option_map (λ s. s.now) rows.entry)
        ≡ Some (command_view command)) }
    ensures usage { IsErrOf result WordsFault.Usage
        → load_by_options (option_map (λ s. s.now) engine.entry)
        (option_map (λ s. s.now) number.entry) (option_map (λ s. s.now) rows.entry) ≡ None }
    ensures ranges { IfOk result KeepsRange }
{
    let Some(engine) = read_engine(engine) else {
        return Err(WordsFault::Usage);
    };
    let Some(number) = read_number(number, 0, 2147483647) else {
        return Err(WordsFault::Usage);
    };
    let Some(rows) = read_number(rows, 1, 100000) else {
        return Err(WordsFault::Usage);
    };
    Ok(Command::Load(engine, number, rows))
}

/// The whole number that a text is, if it is from `low` to `high`.
fn read_number(text: Option<&str>, low: u32, high: u32) -> Option<u32>
    ensures value { result
        ≡ option_and_then (number_in low high) (option_map (λ s. s.now) text.entry) }
    ensures low { IfSome result (λ number. low ≤ number) }
    ensures high { IfSome result (λ number. number ≤ high) }
{
    match text {
        Some(text) => number_in(text, low, high),
        None => None,
    }
}

/// Decimal digits are a number if no sign and no leading zero is before them.
fn number_in(text: &str, low: u32, high: u32) -> Option<u32>
    ensures value { result ≡ number_in low high text.now }
    ensures low { IfSome result (λ number. low ≤ number) }
    ensures high { IfSome result (λ number. number ≤ high) }
{
    if !begins_plainly(text) {
        return None;
    }
    match text.parse::<u32>() {
        Ok(number) if low <= number && number <= high => Some(number),
        _ => None,
    }
}

/// Whether the text begins with no `+`, and with no `0` before another digit.
fn begins_plainly(text: &str) -> bool
    ensures { result ≡ begins_plainly text.now }
{
    !matches!(text.as_bytes(), [b'+', ..] | [b'0', _, ..])
}
