//! The counted steps of a whole call.
ghost use Rattle.std.specs.Prelude.{◌≡◌, ◌<◌, ◌≤◌, ◌+◌, IfOk, map};
ghost use Rattle.std.specs.String.{string_bytes};
ghost use Rattle.row_law.specs.Row.{row_arguments, row_files};
ghost use Rattle.row_law.specs.UnionRow.{union_files};

use super::cases::{LEFT, RIGHT, file, sink_of};
use anyk_top::run_words;
use outer_io::MemShelf;
use std::alloc::{AllocError, Global};
use std::marker::Brand;
use std::sync::ledger::{Blank, Ledger};
use step_counter::Steps;

const THREE_BEST: &str = "select R.a, S.c from R, S where R.b = S.b order by R.w + S.w limit 3";

const FOUR_OF_TWO: &str =
    "select R.a from R order by R.w union all select S.c from S order by S.w limit 4";

/// The words of the command line.
fn words_of_row(alloc: Global) -> Result<Vec<String>, AllocError>
    ensures { IfOk result (λ words. map string_bytes words.items ≡ row_arguments) }
{
    let mut words = Vec::new(alloc);
    words.push(String::from_str(alloc, "run")?)?;
    words.push(String::from_str(alloc, "q.sql")?)?;
    words.push(String::from_str(alloc, "R=R.csv")?)?;
    words.push(String::from_str(alloc, "S=S.csv")?)?;
    Ok(words)
}

/// A shelf with the files of the row.
fn shelf_of_row(alloc: Global) -> Result<MemShelf, AllocError>
    ensures { IfOk result (λ shelf. shelf.holding.files ≡ row_files) }
{
    let mut files = Vec::new(alloc);
    files.push(file(alloc, "q.sql", THREE_BEST)?)?;
    files.push(file(alloc, "R.csv", LEFT)?)?;
    files.push(file(alloc, "S.csv", RIGHT)?)?;
    Ok(MemShelf::new(files, Vec::new(alloc)))
}

/// A shelf with the files of the second row.
fn shelf_of_union(alloc: Global) -> Result<MemShelf, AllocError>
    ensures { IfOk result (λ shelf. shelf.holding.files ≡ union_files) }
{
    let mut files = Vec::new(alloc);
    files.push(file(alloc, "q.sql", FOUR_OF_TWO)?)?;
    files.push(file(alloc, "R.csv", LEFT)?)?;
    files.push(file(alloc, "S.csv", RIGHT)?)?;
    Ok(MemShelf::new(files, Vec::new(alloc)))
}

/// Whether the call of the row gives its answers. It takes at most as many steps as the bound
/// allows for two items, 12 rows of tables and nodes, and three calls for answers.
fn answers_row<L: Ledger>(alloc: Global, steps: &mut Steps<L>) -> Result<bool, AllocError>
    ensures { steps.new ≤ steps.old + 7936 }
{
    let words = words_of_row(alloc)?;
    let mut shelf = shelf_of_row(alloc)?;
    let mut out = sink_of(alloc, 1000, &[], 0)?;
    let mut err = sink_of(alloc, 1000, &[], 0)?;
    let words = words.as_slice();
    let status = run_words(alloc, words, &mut shelf, &mut out, &mut err, steps);
    let is_quiet = err.bytes().is_empty();
    Ok(status == 0 && is_quiet && out.bytes() == "a,c\n2,q\n3,q\n3,p\n".as_bytes())
}

/// Whether the call of the second row gives its answers. It takes at most as many steps as the
/// bound allows for two queries, each with one item and 6 rows: 4 calls of the first engine, and 2
/// of the second one.
fn answers_union<L: Ledger>(alloc: Global, steps: &mut Steps<L>) -> Result<bool, AllocError>
    ensures { steps.new ≤ steps.old + 2816 }
{
    let words = words_of_row(alloc)?;
    let mut shelf = shelf_of_union(alloc)?;
    let mut out = sink_of(alloc, 1000, &[], 0)?;
    let mut err = sink_of(alloc, 1000, &[], 0)?;
    let words = words.as_slice();
    let status = run_words(alloc, words, &mut shelf, &mut out, &mut err, steps);
    let is_quiet = err.bytes().is_empty();
    Ok(status == 0 && is_quiet && out.bytes() == "a\n2\n3\nq\n1\n".as_bytes())
}

/// The same, with a counter of its own.
fn union_is_answered<L: Ledger>(alloc: Global, blank: Blank) -> Result<bool, AllocError>
    requires name { blank.name ≡ L.name }
    requires parts { blank.parts ≡ L.parts }
    requires share { 0 < L.parts }
{
    let mut steps: Steps<L> = Steps::new(blank);
    answers_union(alloc, &mut steps)
}

/// The same as `answers_row`, with a counter of its own.
fn row_is_answered<L: Ledger>(alloc: Global, blank: Blank) -> Result<bool, AllocError>
    requires name { blank.name ≡ L.name }
    requires parts { blank.parts ≡ L.parts }
    requires share { 0 < L.parts }
{
    let mut steps: Steps<L> = Steps::new(blank);
    answers_row(alloc, &mut steps)
}

#[test]
fn a_row_takes_few_steps(rt: HostRuntime) {
    let answered = row_is_answered::<Brand>(rt.alloc(), Blank::new(1));
    assert!(rt; answered == Ok(true));
}

#[test]
fn a_union_takes_few_steps(rt: HostRuntime) {
    let answered = union_is_answered::<Brand>(rt.alloc(), Blank::new(1));
    assert!(rt; answered == Ok(true));
}
