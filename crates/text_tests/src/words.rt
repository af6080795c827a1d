//! Command lines.
use cmd_words::{Command, Engine, Words, WordsFault, read_words};
use std::alloc::{AllocError, Global};

fn words(alloc: Global, texts: &[&str]) -> Result<Vec<String>, AllocError> {
    let mut all = Vec::new(alloc);
    for text in texts {
        all.push(String::from_str(alloc, text)?)?;
    }
    Ok(all)
}

/// What the arguments of a command say.
#[derive(Clone, Copy)]
struct Said {
    engine: Engine,
    ranks: bool,
    rows: bool,
    script: Option<&'static str>,
    proof: Option<&'static str>,
    best_of: Option<&'static str>,
    query: &'static str,
    tables: &'static [(&'static str, &'static str)],
}

/// A command.
#[derive(Clone, Copy)]
enum Read {
    Run(Said),
    Session(Said),
    Plan(Said),
    Load(Engine, u32, u32),
    Prove(Said),
    Verify(Said),
}

fn is_text(text: &Option<String>, wanted: Option<&str>) -> bool {
    let Some(text) = text else {
        return wanted.is_none();
    };
    match wanted {
        Some(wanted) => text.as_str() == wanted,
        None => false,
    }
}

fn are_tables(words: &Words, wanted: &[(&str, &str)]) -> bool {
    if words.tables.len() != wanted.len() {
        return false;
    }
    for i in 0..wanted.len() {
        let (table, file) = wanted[i];
        if words.tables[i].table.as_str() != table || words.tables[i].file.as_str() != file {
            return false;
        }
    }
    true
}

fn say(words: &Words, said: &Said) -> bool {
    words.engine == said.engine
        && words.ranks == said.ranks
        && words.rows == said.rows
        && words.query.as_str() == said.query
        && is_text(&words.script, said.script)
        && is_text(&words.proof, said.proof)
        && is_text(&words.best_of, said.best_of)
        && are_tables(words, said.tables)
}

fn is_command(command: &Command, read: &Read) -> bool {
    match (command, read) {
        (Command::Run(words), Read::Run(said)) => say(words, said),
        (Command::Session(words), Read::Session(said)) => say(words, said),
        (Command::Plan(words), Read::Plan(said)) => say(words, said),
        (Command::Prove(words), Read::Prove(said)) => say(words, said),
        (Command::Verify(words), Read::Verify(said)) => say(words, said),
        (Command::Load(engine, number, rows), Read::Load(wanted, first, count)) => {
            engine == wanted && number == first && rows == count
        }
        _ => false,
    }
}

/// The arguments of a command, and the command.
type Line = (&'static [&'static str], Read);

const PLAIN: Said = Said {
    engine: Engine::Part,
    ranks: false,
    rows: false,
    script: None,
    proof: None,
    best_of: None,
    query: "q.sql",
    tables: &[("R", "a")],
};

const COMMANDS: &[Line] = &[
    // Options are before, between and after the other arguments, and the first `=` ends the table's
    // name.
    (
        &["run", "--engine=rec", "q.sql", "R=a", "--ranks", "S=b=c"],
        Read::Run(Said {
            engine: Engine::Rec,
            ranks: true,
            tables: &[("R", "a"), ("S", "b=c")],
            ..PLAIN
        }),
    ),
    (&["plan", "q.sql", "R=a"], Read::Plan(PLAIN)),
    (
        &["session", "q.sql", "--rows", "R=a", "--script", "s.txt"],
        Read::Session(Said {
            rows: true,
            script: Some("s.txt"),
            ..PLAIN
        }),
    ),
    (
        &["run", "--best-of", "R", "q.sql", "R=R.csv"],
        Read::Run(Said {
            best_of: Some("R"),
            tables: &[("R", "R.csv")],
            ..PLAIN
        }),
    ),
    (
        &[
            "session",
            "--script=s.txt",
            "q.sql",
            "R=a",
            "--best-of",
            "second leg",
        ],
        Read::Session(Said {
            script: Some("s.txt"),
            best_of: Some("second leg"),
            ..PLAIN
        }),
    ),
    // An alias may be any text, also the empty one.
    (
        &["run", "--best-of=", "q.sql", "R=a"],
        Read::Run(Said {
            best_of: Some(""),
            ..PLAIN
        }),
    ),
    // What follows the option is its alias, also if it was meant as the query file.
    (
        &["run", "--best-of", "q.sql", "R=R.csv", "S=S.csv"],
        Read::Run(Said {
            best_of: Some("q.sql"),
            query: "R=R.csv",
            tables: &[("S", "S.csv")],
            ..PLAIN
        }),
    ),
    (
        &[
            "load",
            "--number",
            "2147483647",
            "--rows=100000",
            "--engine",
            "rec",
        ],
        Read::Load(Engine::Rec, 2147483647, 100000),
    ),
    (
        &["prove", "q.sql", "--engine", "rec", "R=a"],
        Read::Prove(Said {
            engine: Engine::Rec,
            ..PLAIN
        }),
    ),
    (
        &[
            "verify",
            "--rows",
            "q.sql",
            "R=a",
            "--proof=p.txt",
            "--ranks",
        ],
        Read::Verify(Said {
            ranks: true,
            rows: true,
            proof: Some("p.txt"),
            ..PLAIN
        }),
    ),
];

/// Whether the arguments are this command.
fn are_read(alloc: Global, words: &[String], read: &Read) -> bool {
    match read_words(alloc, words) {
        Ok(command) => is_command(&command, read),
        Err(_) => false,
    }
}

/// The same for these texts.
fn is_read(alloc: Global, texts: &[&str], read: &Read) -> Result<bool, AllocError> {
    let line = words(alloc, texts)?;
    Ok(are_read(alloc, line.as_slice(), read))
}

/// The place of the first line that is read in another way.
fn first_failing(alloc: Global, lines: &[Line]) -> Result<Option<usize>, AllocError> {
    for (i, (texts, read)) in lines.iter().enumerate() {
        if !is_read(alloc, texts, read)? {
            return Ok(Some(i));
        }
    }
    Ok(None)
}

#[test]
fn reads_each_command(rt: HostRuntime) {
    assert!(rt; first_failing(rt.alloc(), COMMANDS) == Ok(None));
}

fn is_usage(alloc: Global, words: &[String]) -> bool {
    match read_words(alloc, words) {
        Ok(_) => false,
        Err(fault) => fault == WordsFault::Usage,
    }
}

fn is_refused(alloc: Global, texts: &[&str]) -> Result<bool, AllocError> {
    let line = words(alloc, texts)?;
    Ok(is_usage(alloc, line.as_slice()))
}

/// The place of the first line that is refused, or that is not refused.
fn first_of(alloc: Global, lines: &[&[&str]], refused: bool) -> Result<Option<usize>, AllocError> {
    for (i, texts) in lines.iter().enumerate() {
        if is_refused(alloc, texts)? == refused {
            return Ok(Some(i));
        }
    }
    Ok(None)
}

const REFUSED: &[&[&str]] = &[
    &[],
    &["stop", "q.sql", "R=a"],
    &["Run", "q.sql", "R=a"],
    &["--help"],
    &["run"],
    &["run", "q.sql"],
    &["run", "q.sql", "x"],
    &["run", "q.sql", "=x"],
    &["run", "q.sql", "x="],
    &["run", "q.sql", "R=R.csv", "R=R.csv"],
    &["run", "q.sql", "R=a", "S=b", "R=c"],
    &["run", "--help"],
    &["run", "-h", "q.sql", "R=a"],
    &["run", "--engine", "best", "q.sql", "R=a"],
    &["run", "--engine", "part", "--engine", "rec", "q.sql", "R=a"],
    &["run", "--eng", "part", "q.sql", "R=a"],
    &["run", "--ranks=true", "q.sql", "R=a"],
    &["run", "--script", "s.txt", "q.sql", "R=a"],
    &["run", "--best-of", "R", "--best-of", "R", "q.sql", "R=a"],
    &["run", "q.sql", "R=a", "--best-of"],
    &["session", "q.sql", "R=a"],
    &["plan", "--ranks", "q.sql", "R=a"],
    &["plan", "--engine", "rec", "q.sql", "R=a"],
    &["plan", "--best-of", "R", "q.sql", "R=a"],
    &["run", "--proof", "p.txt", "q.sql", "R=a"],
    &[
        "session", "--script", "s.txt", "--proof", "p.txt", "q.sql", "R=a",
    ],
    &["prove", "--ranks", "q.sql", "R=a"],
    &["prove", "--best-of", "R", "q.sql", "R=a"],
    &["prove", "--proof", "p.txt", "q.sql", "R=a"],
    &["verify", "q.sql", "R=a"],
    &[
        "verify", "--proof", "p.txt", "--engine", "rec", "q.sql", "R=a",
    ],
    &[
        "verify",
        "--proof",
        "p.txt",
        "--best-of",
        "R",
        "q.sql",
        "R=a",
    ],
    &["load", "--number", "5"],
    &["load", "--number", "5", "--rows", "5", "--best-of", "R"],
    &["load", "--number", "2147483648", "--rows", "5"],
    &["load", "--number", "5", "--rows", "0"],
    &["load", "--number", "5", "--rows", "100001"],
    &["load", "--number", "5", "--rows", "five"],
    &["load", "--number", "01", "--rows", "5"],
    &["load", "--number", "00", "--rows", "5"],
    &["load", "--number", "+5", "--rows", "5"],
    &["load", "--number", "5", "--rows", "0001"],
    &["load", "--number", "5", "--rows", "+1"],
    &["load", "--number", "5", "--rows", ""],
];

const TAKEN: &[&[&str]] = &[
    &["run", "--", "--q", "R=a"],
    &["load", "--number", "0", "--rows", "1"],
];

#[test]
fn refuses_what_is_no_command(rt: HostRuntime) {
    assert!(rt; first_of(rt.alloc(), REFUSED, false) == Ok(None));
    assert!(rt; first_of(rt.alloc(), TAKEN, true) == Ok(None));
}
