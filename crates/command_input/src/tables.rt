//! Reading the tables that the query uses.
ghost use Rattle.std.specs.Prelude.{◌≡◌, ◌≤◌, ◌<◌, ◌+◌, [], IfErr, IfOk, OnOk, List, ℕ, length, map};
ghost use Rattle.std.specs.List.{AllByRecursion};
ghost use Rattle.std.specs.String.{string_bytes};
ghost use Rattle.cmd_words.specs.NamedPairs.{named_pair};
ghost use Rattle.rankings.specs.Order.{IsMember};
ghost use Rattle.refusals.specs.RefusalReasons.{reason_of};
ghost use Rattle.verdict.specs.Loading.{files_read, tables_in};
ghost use Rattle.verdict.specs.Stages.{Is};
ghost use Rattle.verdict.specs.StageResults.{Staged, TellsOne, shelved};
ghost use Rattle.verdict.specs.Words.{table_file_names};
ghost use Rattle.command_input.specs.Entries.{IsEntryOf, IsNext, tables_of};
ghost use Rattle.command_input.specs.StageViews.{said_as, tables_result_view, table_reason};

use crate::file::load;
use cmd_words::Named;
use csv_tables::{TableFault, Tables};
use hash_keys::Keys;
use outer_io::Shelf;
use refusals::Refusal;
use std::alloc::Global;

/// The tables of these entries, hashed with these keys. The tables are read one after another, and
/// the error is the refusal of the first bad one, or `NoMemory`.
pub(crate) fn read_tables<'a, F: Shelf>(
    alloc: Global,
    entries: &[&'a Named],
    shelf: &mut F,
    keys: Keys,
) -> Result<table_store::Tables, Refusal<'a>>
    requires { length entries.now ≤ 16 }
    ensures staged { let words = map (λ e. named_pair e.now) entries.now in
        (named : List (List ℕ × List ℕ)) → AllByRecursion (IsEntryOf named) words
        → Staged (λ files. Is (tables_in files named (tables_of words)))
        (λ files file. IsMember file (files_read files named (tables_of words)))
        (shelved F.Shelf shelf.old) (shelved F.Shelf shelf.new) (tables_result_view result) }
    ensures tells { let words = map (λ e. named_pair e.now) entries.now in
        (named : List (List ℕ × List ℕ)) → AllByRecursion (IsEntryOf named) words
        → IfErr result (λ refusal.
        TellsOne (λ file. IsMember file (table_file_names named)) (reason_of refusal)) }
    ensures count { IfOk result (λ tables. length tables ≡ length entries.now) }
{
    let mut tables = Tables::with_keys(alloc, keys);
    let read = read_each(alloc, entries, shelf, &mut tables);
    read.and(Ok(tables.into_tables()))
}

/// Reads the tables of these entries, of which none was read yet.
fn read_each<'a, F: Shelf>(
    alloc: Global,
    entries: &[&'a Named],
    shelf: &mut F,
    tables: &mut Tables,
) -> Result<(), Refusal<'a>>
    requires few { length entries.now ≤ 16 }
    requires none { tables.old ≡ [] }
    ensures staged { let words = map (λ e. named_pair e.now) entries.now in
        (named : List (List ℕ × List ℕ)) → AllByRecursion (IsEntryOf named) words
        → Staged (λ files. Is (tables_in files named (tables_of words)))
        (λ files file. IsMember file (files_read files named (tables_of words)))
        (shelved F.Shelf shelf.old) (shelved F.Shelf shelf.new) (said_as tables.new result) }
    ensures tells { let words = map (λ e. named_pair e.now) entries.now in
        (named : List (List ℕ × List ℕ)) → AllByRecursion (IsEntryOf named) words
        → IfErr result (λ refusal.
        TellsOne (λ file. IsMember file (table_file_names named)) (reason_of refusal)) }
    ensures count { OnOk result (length tables.new ≡ length entries.now) }
{
    for entry in entries {
        read_entry(alloc, entry, shelf, tables)?;
    }
    Ok(())
}

/// Reads the table of this entry. The error is the refusal of its file or for its first flaw.
fn read_entry<'a, F: Shelf>(
    alloc: Global,
    entry: &'a Named,
    shelf: &mut F,
    tables: &mut Tables,
) -> Result<(), Refusal<'a>>
    requires few { length tables.old < 16 }
    ensures staged { (named : List (List ℕ × List ℕ)) → IsEntryOf named (named_pair entry.now)
        → Staged (IsNext named (string_bytes entry.now.table) tables.old)
        (λ files file. file ≡ string_bytes entry.now.file)
        (shelved F.Shelf shelf.old) (shelved F.Shelf shelf.new) (said_as tables.new result) }
    ensures tells { IfErr result
        (λ refusal. TellsOne (λ file. file ≡ string_bytes entry.now.file) (reason_of refusal)) }
    ensures longer { OnOk result (length tables.new ≡ length tables.old + 1) }
{
    let bytes = load(alloc, shelf, entry.file.as_str())?;
    match tables.read(&bytes) {
        Ok(_) => Ok(()),
        Err(fault) => Err(table_refusal(entry.table.as_bytes(), fault)),
    }
}

/// The refusal for a fault of a table's records.
fn table_refusal<'a>(table: &'a [u8], fault: TableFault) -> Refusal<'a>
    ensures { reason_of result ≡ table_reason table.now fault }
{
    match fault {
        TableFault::NoHeader => Refusal::NoHeader(table),
        TableFault::TooManyColumns => Refusal::TooManyColumns(table),
        TableFault::DuplicateName(column) => Refusal::DuplicateName { table, column },
        TableFault::TooManyRows => Refusal::TooManyTableRows(table),
        TableFault::Ragged(row) => Refusal::Ragged { table, row },
        TableFault::NoMemory => Refusal::NoMemory,
    }
}
