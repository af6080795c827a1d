//! Scripts of cursors.
use session_script::{ScriptFault, Step, read_script};
use std::alloc::{AllocError, Global};

fn is(bytes: &[u8], text: &str) -> bool {
    bytes == text.as_bytes()
}

fn are_first(open: &Step, next: &Step, fork: &Step) -> bool {
    matches!(open, Step::Open(name) if is(name.bytes(), "a"))
        && matches!(next, Step::Next(name, 2) if is(name.bytes(), "a"))
        && matches!(fork, Step::Fork(name, new) if is(name.bytes(), "a") && is(new.bytes(), "b_1"))
}

fn are_last(rewind: &Step, close: &Step, open: &Step) -> bool {
    matches!(rewind, Step::Rewind(name) if is(name.bytes(), "b_1"))
        && matches!(close, Step::Close(name) if is(name.bytes(), "a"))
        && matches!(open, Step::Open(name) if is(name.bytes(), "a"))
}

fn are_six(steps: &[Step]) -> bool {
    let [first, second, third, fourth, fifth, last] = steps else {
        return false;
    };
    are_first(first, second, third) && are_last(fourth, fifth, last)
}

/// Whether a script with comments and empty lines is read as its six steps.
fn reads_six_steps(alloc: Global) -> bool {
    let text = b"open a\r\n# c\n\r\n\nnext a 000000002\nfork a b_1\nrewind b_1\nclose a\nopen a";
    match read_script(alloc, text) {
        Ok(steps) => are_six(steps.as_slice()),
        Err(_) => false,
    }
}

/// Whether an empty script has no steps.
fn reads_none(alloc: Global) -> bool {
    match read_script(alloc, b"") {
        Ok(steps) => steps.is_empty(),
        Err(_) => false,
    }
}

#[test]
fn a_script_is_read(rt: HostRuntime) {
    assert!(rt; reads_six_steps(rt.alloc()));
    assert!(rt; reads_none(rt.alloc()));
}

/// A script, and its fault if it has one.
type Read = (&'static str, Option<ScriptFault>);

const READ: &[Read] = &[
    ("open a\nopen a\n", Some(ScriptFault::CursorExists(2))),
    ("next a 1", Some(ScriptFault::UnknownCursor(1))),
    (
        "open a\n\n# b\nfork a a",
        Some(ScriptFault::CursorExists(4)),
    ),
    ("open a\nfork b a", Some(ScriptFault::UnknownCursor(2))),
    (
        "open a\nclose a\nrewind a",
        Some(ScriptFault::UnknownCursor(3)),
    ),
    ("open a b", Some(ScriptFault::BadLine(1))),
    ("open  a", Some(ScriptFault::BadLine(1))),
    ("open a ", Some(ScriptFault::BadLine(1))),
    (" ", Some(ScriptFault::BadLine(1))),
    ("Open a", Some(ScriptFault::BadLine(1))),
    ("open a-b", Some(ScriptFault::BadLine(1))),
    ("open a\r", Some(ScriptFault::BadLine(1))),
    ("open a\nnext a 1234567890", Some(ScriptFault::BadLine(2))),
    ("open a\nnext a -1", Some(ScriptFault::BadLine(2))),
    ("open a\nnext a", Some(ScriptFault::BadLine(2))),
    (
        "open abcdefghijklmnopqrstuvwxyz_0123456",
        Some(ScriptFault::BadLine(1)),
    ),
    ("open abcdefghijklmnopqrstuvwxyz_01234", None),
];

fn fault_of(alloc: Global, script: &str) -> Option<ScriptFault> {
    read_script(alloc, script.as_bytes()).err()
}

/// The place of the first script that is read in another way.
fn first_failing(alloc: Global, scripts: &[Read]) -> Option<usize> {
    for (i, (script, fault)) in scripts.iter().enumerate() {
        if fault_of(alloc, script) != *fault {
            return Some(i);
        }
    }
    None
}

#[test]
fn faults_have_their_lines(rt: HostRuntime) {
    assert_eq!(rt; first_failing(rt.alloc(), READ), None);
}

/// Opens this many cursors, and ends with one more line.
fn opened(alloc: Global, cursors: u32, last: &str) -> Result<String, AllocError> {
    let mut script = String::new(alloc);
    for cursor in 0..cursors {
        script.push_str(&format!(in alloc; "open c{cursor}\n")?)?;
    }
    script.push_str(last)?;
    Ok(script)
}

/// The fault of such a script.
fn fault_of_many(
    alloc: Global,
    cursors: u32,
    last: &str,
) -> Result<Option<ScriptFault>, AllocError> {
    let script = opened(alloc, cursors, last)?;
    Ok(fault_of(alloc, script.as_str()))
}

/// This many comments.
fn comments(alloc: Global, lines: u32) -> Result<String, AllocError> {
    let mut script = String::new(alloc);
    for _ in 0..lines {
        script.push_str("#\n")?;
    }
    Ok(script)
}

/// The fault of a script of this many comments.
fn fault_of_comments(alloc: Global, lines: u32) -> Result<Option<ScriptFault>, AllocError> {
    let script = comments(alloc, lines)?;
    Ok(fault_of(alloc, script.as_str()))
}

#[test]
fn limits_are_kept(rt: HostRuntime) {
    let alloc = rt.alloc();
    assert!(rt; fault_of_many(alloc, 64, "") == Ok(None));
    let exists = Some(ScriptFault::CursorExists(65));
    assert!(rt; fault_of_many(alloc, 64, "fork c1 c2\n") == Ok(exists));
    assert!(rt; fault_of_many(alloc, 65, "") == Ok(Some(ScriptFault::TooManyOpen(65))));
    assert!(rt; fault_of_comments(alloc, 10000) == Ok(None));
    assert!(rt; fault_of_comments(alloc, 10001) == Ok(Some(ScriptFault::TooManyLines)));
}
