//! A call of the program over files in memory, and what it must do.
ghost use Rattle.std.specs.Prelude.{◌≡◌, ◌<◌, IfOk};
ghost use Rattle.outer_io.specs.Entries.{entry_of};

use anyk_top::run_words;
use outer_io::{MemFile, MemShelf, MemSink, have_distinct_names};
use std::alloc::{AllocError, Global};
use std::marker::Brand;
use std::sync::ledger::{Blank, Ledger};
use step_counter::Steps;

/// A table whose column `b` is joined.
pub(super) const LEFT: &str = "a,b,w\n1,x,3\n2,y,1\n3,x,1\n";

/// The table that it is joined with.
pub(super) const RIGHT: &str = "b,c,w\nx,p,5\ny,q,2\nx,q,4\n";

const JOIN: &str = "select R.a, S.c from R, S where R.b = S.b order by R.w + S.w";

/// The answers of the join of the two tables.
pub(super) const FOUND: &str = "a,c\n2,q\n3,q\n3,p\n1,q\n1,p\n";

/// The two tables that share a column.
const TWO: &[(&str, &str)] = &[("R.csv", LEFT), ("S.csv", RIGHT)];

/// The numbers of all writes of a line: none is written in more pieces.
pub(super) const EVERY: &[u64] = &[1, 2, 3, 4, 5, 6, 7, 8, 9, 10, 11, 12, 13, 14, 15, 16];

/// A run of the join of the two tables, in which no call fails.
pub(super) const RUN: Case<'static> = Case {
    words: "run q.sql R=R.csv S=S.csv",
    query: JOIN,
    files: TWO,
    unread: 0,
    unwritten: 0,
    stuck: 0,
    untold: &[],
    most: 1000,
    status: 0,
    out: "",
    err: "",
};

/// The words of a call, the text of the query's file and the other files; the numbers, from 1, of
/// the calls that fail, where 0 stands for none; and what the call must do.
#[derive(Clone, Copy)]
pub(super) struct Case<'a> {
    pub(super) words: &'a str,
    pub(super) query: &'a str,
    pub(super) files: &'a [(&'a str, &'a str)],
    /// The call of the shelf that fails.
    pub(super) unread: u64,
    /// The write of the output that fails.
    pub(super) unwritten: u64,
    /// The write of the output that takes nothing.
    pub(super) stuck: u64,
    /// The writes of the errors that fail.
    pub(super) untold: &'a [u64],
    /// The greatest number of bytes that a write of the output takes.
    pub(super) most: usize,
    pub(super) status: u8,
    pub(super) out: &'a str,
    pub(super) err: &'a str,
}

const ROOM: usize = 50000;

/// A file of this name with this text.
pub(super) fn file(alloc: Global, name: &str, text: &str) -> Result<MemFile, AllocError>
    ensures { IfOk result (λ file. entry_of file ≡ (name.now, text.now)) }
{
    let name = String::from_str(alloc, name)?;
    let bytes = Vec::from_slice(alloc, text.as_bytes())?;
    Ok(MemFile { name, bytes })
}

/// Appends a file.
fn push_file(
    alloc: Global,
    files: &mut Vec<MemFile>,
    name: &str,
    text: &str,
) -> Result<(), AllocError> {
    files.push(file(alloc, name, text)?)?;
    Ok(())
}

/// The file of the query, and the other files.
fn files_of(alloc: Global, case: &Case<'_>) -> Result<Vec<MemFile>, AllocError> {
    let mut files = Vec::new(alloc);
    push_file(alloc, &mut files, "q.sql", case.query)?;
    for (name, text) in case.files {
        push_file(alloc, &mut files, name, text)?;
    }
    Ok(files)
}

/// Appends a word.
fn push_word(alloc: Global, words: &mut Vec<String>, word: &str) -> Result<(), AllocError> {
    words.push(String::from_str(alloc, word)?)?;
    Ok(())
}

/// The words of a text.
fn words_of(alloc: Global, text: &str) -> Result<Vec<String>, AllocError> {
    let mut words = Vec::new(alloc);
    for word in text.split(' ') {
        push_word(alloc, &mut words, word)?;
    }
    Ok(words)
}

fn one(alloc: Global, number: u64) -> Result<Vec<u64>, AllocError> {
    Ok(vec![in alloc; number]?)
}

/// The shelf with the files of the case, if their names differ.
fn shelf_of(alloc: Global, case: &Case<'_>) -> Result<Option<MemShelf>, AllocError> {
    let unread = one(alloc, case.unread)?;
    let files = files_of(alloc, case)?;
    if !have_distinct_names(&files) {
        return Ok(None);
    }
    Ok(Some(MemShelf::new(files, unread)))
}

/// A sink that takes at most `most` bytes in a call, fails at some calls and takes nothing at
/// another.
pub(super) fn sink_of(
    alloc: Global,
    most: usize,
    fails: &[u64],
    stuck: u64,
) -> Result<MemSink, AllocError> {
    let failing = Vec::from_slice(alloc, fails)?;
    let stuck = one(alloc, stuck)?;
    MemSink::new(alloc, ROOM, most, failing, stuck)
        .ok()
        .ok_or(AllocError)
}

/// The status of the call of these words.
fn status_of<L: Ledger>(
    alloc: Global,
    words: &[String],
    shelf: &mut MemShelf,
    out: &mut MemSink,
    err: &mut MemSink,
    blank: Blank,
) -> u8
    requires name { blank.name ≡ L.name }
    requires parts { blank.parts ≡ L.parts }
    requires share { 0 < L.parts }
{
    let mut steps: Steps<L> = Steps::new(blank);
    run_words(alloc, words, shelf, out, err, &mut steps)
}

/// Whether the call of these words does what the case says.
fn comes_out(
    alloc: Global,
    case: &Case<'_>,
    words: &[String],
    shelf: &mut MemShelf,
    out: &mut MemSink,
    err: &mut MemSink,
) -> bool {
    let status = status_of::<Brand>(alloc, words, shelf, out, err, Blank::new(1));
    status == case.status
        && out.bytes() == case.out.as_bytes()
        && err.bytes() == case.err.as_bytes()
}

/// The same, over this output.
fn comes_out_on(
    alloc: Global,
    case: &Case<'_>,
    words: &[String],
    shelf: &mut MemShelf,
    out: &mut MemSink,
) -> Result<bool, AllocError> {
    let mut err = sink_of(alloc, 3, case.untold, 0)?;
    Ok(comes_out(alloc, case, words, shelf, out, &mut err))
}

/// The same, over this shelf.
fn comes_out_from(
    alloc: Global,
    case: &Case<'_>,
    words: &[String],
    shelf: &mut MemShelf,
) -> Result<bool, AllocError> {
    let mut out = sink_of(alloc, case.most, &[case.unwritten], case.stuck)?;
    comes_out_on(alloc, case, words, shelf, &mut out)
}

/// The same with these words.
fn holds_of(alloc: Global, case: &Case<'_>, words: &[String]) -> Result<bool, AllocError> {
    match shelf_of(alloc, case)? {
        Some(mut shelf) => comes_out_from(alloc, case, words, &mut shelf),
        None => Ok(false),
    }
}

/// The same with the words of the case.
fn holds_as_said(alloc: Global, case: &Case<'_>) -> Result<bool, AllocError> {
    let words = words_of(alloc, case.words)?;
    holds_of(alloc, case, &words)
}

/// The same with one word more, which names the engine by recursion.
fn holds_by_recursion(alloc: Global, case: &Case<'_>) -> Result<bool, AllocError> {
    let mut words = words_of(alloc, case.words)?;
    push_word(alloc, &mut words, "--engine=rec")?;
    holds_of(alloc, case, &words)
}

/// Whether the command has engines to choose from, and the words name none.
fn leaves_engine_open(words: &str) -> bool {
    !words.starts_with("plan ") && !words.starts_with("verify ") && !words.contains("--engine")
}

/// Whether the case does what it says, with each engine.
pub(super) fn holds(alloc: Global, case: &Case<'_>) -> Result<bool, AllocError> {
    if leaves_engine_open(case.words) && !holds_by_recursion(alloc, case)? {
        return Ok(false);
    }
    holds_as_said(alloc, case)
}

/// The place of the first case that does not do what it says, with one engine or the other.
pub(super) fn first_failing(
    alloc: Global,
    cases: &[Case<'_>],
) -> Result<Option<usize>, AllocError> {
    for (i, case) in cases.iter().enumerate() {
        if !holds(alloc, case)? {
            return Ok(Some(i));
        }
    }
    Ok(None)
}

/// A file by its name.
pub(super) fn named<'a>(name: &'a str, text: &'a str) -> (&'a str, &'a str) {
    (name, text)
}

/// A call over these files, one of which may be made in a test, with the query that joins the two
/// tables.
pub(super) fn over<'a>(
    words: &'a str,
    files: &'a [(&'a str, &'a str)],
    status: u8,
    out: &'a str,
    err: &'a str,
) -> Case<'a> {
    Case {
        words,
        files,
        status,
        out,
        err,
        ..RUN
    }
}

/// A text, repeated `count` times, between two others.
pub(super) fn repeated(
    alloc: Global,
    before: &str,
    text: &str,
    count: u32,
    after: &str,
) -> Result<String, AllocError> {
    let mut whole = String::from_str(alloc, before)?;
    for _ in 0..count {
        whole.push_str(text)?;
    }
    whole.push_str(after)?;
    Ok(whole)
}
