//! Files that are read, and sinks that take bytes.
use outer_io::{
    FileFault, FileShelf, MemFile, MemShelf, MemSink, PureShelf, ReadFailed, Shelf, ShelfFault,
    Sink, StdSink, Unwritten, WriteFailed, have_distinct_names, read_file, write_all,
};
use std::alloc::{AllocError, Global};

/// A call on a shelf, and what it returns.
#[derive(Clone, Copy)]
enum Call {
    Open(&'static str, Result<(), ShelfFault>),
    // Into a buffer of this many bytes, 16 at most.
    Read(usize, Result<&'static str, ReadFailed>),
    // The whole file.
    Whole(&'static str, Result<&'static str, FileFault>),
}

/// Whether a read into a buffer of this many bytes moves these.
fn gives<S: Shelf>(shelf: &mut S, size: usize, wanted: Result<&str, ReadFailed>) -> bool {
    if size > 16 {
        return false;
    }
    let mut buf = [0u8; 16];
    let count = shelf.read(&mut buf[..size]);
    match wanted {
        Ok(text) => count == Ok(text.len()) && buf.starts_with(text.as_bytes()),
        Err(fault) => count == Err(fault),
    }
}

/// Whether a file has these bytes, or cannot be read for this reason.
fn is_whole<S: Shelf>(
    alloc: Global,
    shelf: &mut S,
    name: &str,
    wanted: Result<&str, FileFault>,
) -> bool {
    match read_file(alloc, shelf, name) {
        Ok(bytes) => match wanted {
            Ok(text) => bytes.as_slice() == text.as_bytes(),
            Err(_) => false,
        },
        Err(found) => match wanted {
            Ok(_) => false,
            Err(fault) => found == fault,
        },
    }
}

fn returns<S: Shelf>(alloc: Global, shelf: &mut S, call: Call) -> bool {
    match call {
        Call::Open(name, wanted) => shelf.open(name) == wanted,
        Call::Read(size, wanted) => gives(shelf, size, wanted),
        Call::Whole(name, wanted) => is_whole(alloc, shelf, name, wanted),
    }
}

/// The place of the first of these calls, made in this order, that returns something else.
fn first_failing<S: Shelf>(alloc: Global, shelf: &mut S, calls: &[Call]) -> Option<usize> {
    for (i, call) in calls.iter().enumerate() {
        if !returns(alloc, shelf, *call) {
            return Some(i);
        }
    }
    None
}

fn file(alloc: Global, name: &str, bytes: &[u8]) -> Result<MemFile, AllocError> {
    Ok(MemFile {
        name: String::from_str(alloc, name)?,
        bytes: Vec::from_slice(alloc, bytes)?,
    })
}

/// A file `a` with some bytes, and an empty file `b`.
fn two_files(alloc: Global) -> Result<Vec<MemFile>, AllocError> {
    let mut files = Vec::new(alloc);
    files.push(file(alloc, "a", b"some bytes")?)?;
    files.push(file(alloc, "b", b"")?)?;
    Ok(files)
}

const OF_FILES: &[Call] = &[
    // No file is open yet.
    Call::Read(4, Ok("")),
    Call::Whole("a", Ok("some bytes")),
    Call::Whole("b", Ok("")),
    Call::Whole("c", Err(FileFault::Missing)),
    Call::Open("a", Ok(())),
    Call::Read(4, Ok("some")),
    Call::Open("", Err(ShelfFault::Missing)),
    // After a refusal no file is open.
    Call::Read(4, Ok("")),
];

fn first_failing_of_files(alloc: Global) -> Result<Option<usize>, AllocError> {
    let files = two_files(alloc)?;
    if !have_distinct_names(&files) {
        return Ok(Some(0));
    }
    Ok(first_failing(alloc, &mut PureShelf::new(files), OF_FILES))
}

#[test]
fn files_are_read_whole(rt: HostRuntime) {
    assert!(rt; first_failing_of_files(rt.alloc()) == Ok(None));
}

/// Over a shelf that fails at its calls 2, 4 and 7. The lines here make calls 1 and 2, 3, 4, none,
/// 5 and so on.
const OF_FAILING_CALLS: &[Call] = &[
    Call::Whole("a", Err(FileFault::Failed)),
    Call::Open("a", Ok(())),
    Call::Open("b", Err(ShelfFault::Failed)),
    // The failed call closed the file.
    Call::Read(16, Ok("")),
    Call::Open("a", Ok(())),
    Call::Read(16, Err(ReadFailed)),
    // A failed read leaves the rest as it was.
    Call::Read(16, Ok("some bytes")),
    Call::Whole("b", Ok("")),
];

fn failing_shelf(alloc: Global, files: Vec<MemFile>) -> Result<Option<MemShelf>, AllocError> {
    let failing = vec![in alloc; 2, 4, 7]?;
    if !have_distinct_names(&files) {
        return Ok(None);
    }
    Ok(Some(MemShelf::new(files, failing)))
}

fn first_failing_of_calls(alloc: Global) -> Result<Option<usize>, AllocError> {
    let Some(mut shelf) = failing_shelf(alloc, two_files(alloc)?)? else {
        return Ok(Some(0));
    };
    Ok(first_failing(alloc, &mut shelf, OF_FAILING_CALLS))
}

#[test]
fn a_shelf_fails_at_its_numbers(rt: HostRuntime) {
    assert!(rt; first_failing_of_calls(rt.alloc()) == Ok(None));
}

/// A text to be written whole, the result, and all bytes that the sink has then.
type Written = (&'static str, Result<(), Unwritten>, &'static str);

/// Whether the texts, written one after another, give these results.
fn are_written(sink: &mut MemSink, texts: &[Written]) -> bool {
    for (text, wanted, whole) in texts {
        if write_all(sink, text.as_bytes()) != *wanted || sink.bytes() != whole.as_bytes() {
            return false;
        }
    }
    true
}

const CUT: &[Written] = &[
    ("some bytes", Err(Unwritten { taken: 4 }), "some"),
    ("+more", Err(Unwritten { taken: 4 }), "some+mor"),
];

const CUT_BY_ROOM: &[Written] = &[(
    "e, and too much",
    Err(Unwritten { taken: 4 }),
    "some+more, a",
)];

const BYTE_BY_BYTE: &[Written] = &[
    ("byte by byte", Ok(()), "byte by byte"),
    ("", Ok(()), "byte by byte"),
];

/// Whether after the texts that were cut writing nothing is no fault, and a byte is refused when no
/// room is left.
fn is_filled(sink: &mut MemSink) -> bool {
    are_written(sink, CUT)
        && sink.write(b"") == Ok(0)
        && are_written(sink, CUT_BY_ROOM)
        && sink.write(b"x") == Err(WriteFailed)
}

/// A sink with room for 12 bytes that takes four bytes a call, fails at call 2 and takes nothing at
/// call 4.
fn failing_sink(alloc: Global) -> Result<Option<MemSink>, AllocError> {
    let failing = vec![in alloc; 2]?;
    let zeros = vec![in alloc; 2, 4]?;
    Ok(MemSink::new(alloc, 12, 4, failing, zeros).ok())
}

fn failing_is_filled(alloc: Global) -> Result<bool, AllocError> {
    match failing_sink(alloc)? {
        Some(mut sink) => Ok(is_filled(&mut sink)),
        None => Ok(false),
    }
}

fn slow_takes_all(alloc: Global) -> bool {
    match MemSink::new(alloc, 100, 1, Vec::new(alloc), Vec::new(alloc)) {
        Ok(mut sink) => are_written(&mut sink, BYTE_BY_BYTE),
        Err(_) => false,
    }
}

#[test]
fn a_sink_takes_what_it_says(rt: HostRuntime) {
    assert!(rt; failing_is_filled(rt.alloc()) == Ok(true));
    assert!(rt; slow_takes_all(rt.alloc()));
}

const OF_SYSTEM: &[Call] = &[
    // No file is open yet.
    Call::Read(4, Ok("")),
    Call::Open("no such folder/no such file", Err(ShelfFault::Missing)),
    Call::Whole(".", Err(FileFault::Failed)),
];

#[test]
fn the_system_answers(rt: HostRuntime) {
    let mut shelf = FileShelf::new(rt);
    assert!(rt; first_failing(rt.alloc(), &mut shelf, OF_SYSTEM).is_none());
    let mut sink = StdSink::new(rt.stdout());
    assert!(rt; write_all(&mut sink, b"") == Ok(()));
}
