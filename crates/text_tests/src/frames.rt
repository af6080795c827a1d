//! Requests as frames.
use outer_io::{MemFile, MemShelf, Shelf, have_distinct_names};
use request_frames::{Frame, FrameReader, MAX_WORDS, Request, RequestFault, read_request};
use std::alloc::{AllocError, Global};
use step_counter::NoMemory;

/// What a call for a request gives.
#[derive(Clone, Copy)]
enum Wanted {
    /// None, since the file is at its end.
    End,
    /// A request of these words, query and certificate.
    Texts(&'static str, &'static str, &'static str),
    /// A request of too many words, with this query and nothing beside it.
    LongWords(&'static str),
    /// No request.
    Fault(RequestFault),
}

/// A shelf of one file with these bytes, that fails at the call of this number.
fn shelf_of(alloc: Global, bytes: &[u8], failing: u64) -> Result<Option<MemShelf>, AllocError> {
    let mut files = Vec::new(alloc);
    files.push(MemFile {
        name: String::from_str(alloc, "requests")?,
        bytes: Vec::from_slice(alloc, bytes)?,
    })?;
    if !have_distinct_names(&files) {
        return Ok(None);
    }
    Ok(Some(MemShelf::new(files, vec![in alloc; failing]?)))
}

fn is_kept(frame: &Frame, text: &str) -> bool {
    match frame {
        Frame::Kept(bytes) => bytes.as_slice() == text.as_bytes(),
        _ => false,
    }
}

fn is_too_long(frame: &Frame) -> bool {
    match frame {
        Frame::TooLong => true,
        _ => false,
    }
}

/// Whether a request is this.
fn is_request(request: Request, wanted: Wanted) -> bool {
    let Request { words, query, side } = request;
    match wanted {
        Wanted::Texts(a, b, c) => is_kept(&words, a) && is_kept(&query, b) && is_kept(&side, c),
        Wanted::LongWords(text) => {
            is_too_long(&words) && is_kept(&query, text) && is_kept(&side, "")
        }
        _ => false,
    }
}

/// Whether the next call for a request gives this.
fn gives<F: Shelf>(alloc: Global, reader: &mut FrameReader, shelf: &mut F, wanted: Wanted) -> bool {
    match read_request(alloc, reader, shelf) {
        Ok(Some(request)) => is_request(request, wanted),
        Ok(None) => match wanted {
            Wanted::End => true,
            _ => false,
        },
        Err(found) => match wanted {
            Wanted::Fault(fault) => found == fault,
            _ => false,
        },
    }
}

/// Whether the calls for requests over a file of these bytes give these one after another. Its
/// shelf fails at the call of this number.
fn are_read(
    alloc: Global,
    bytes: &[u8],
    failing: u64,
    wanted: &[Wanted],
) -> Result<bool, NoMemory> {
    let Some(mut shelf) = shelf_of(alloc, bytes, failing)? else {
        return Ok(false);
    };
    let mut reader = FrameReader::new(alloc)?;
    if shelf.open("requests") != Ok(()) {
        return Ok(false);
    }
    for one in wanted {
        if !gives(alloc, &mut reader, &mut shelf, *one) {
            return Ok(false);
        }
    }
    Ok(true)
}

const PLAN: &str = "00000005\nplan\n00000015\nselect a from R00000000\n";

const TWO: &str =
    "00000005\nplan\n00000015\nselect a from R00000000\n00000000\n00000000\n00000001\nx";

const BAD: &[&str] = &[
    "5\nplan\n",
    "00000005 plan\n",
    "0000000x\nplan\n",
    "00000005\nplan",
    "00000005\nplan\n",
    "00000005\nplan\n00000001\nx0000000",
];

const IS_PLAN: Wanted = Wanted::Texts("plan\n", "select a from R", "");

#[test]
fn requests_are_read_one_after_another(rt: HostRuntime) {
    let alloc = rt.alloc();
    assert!(rt; are_read(alloc, b"", 0, &[Wanted::End, Wanted::End]) == Ok(true));
    assert!(rt; are_read(alloc, PLAN.as_bytes(), 0, &[IS_PLAN, Wanted::End]) == Ok(true));
    let both = &[IS_PLAN, Wanted::Texts("", "", "x"), Wanted::End];
    assert!(rt; are_read(alloc, TWO.as_bytes(), 0, both) == Ok(true));
}

#[test]
fn what_is_no_request_is_refused(rt: HostRuntime) {
    let alloc = rt.alloc();
    for text in BAD {
        let bad = &[Wanted::Fault(RequestFault::Bad)];
        assert!(rt; are_read(alloc, text.as_bytes(), 0, bad) == Ok(true));
    }
    // Call 1 opens the file, and call 2 is the first read.
    let failed = &[Wanted::Fault(RequestFault::Failed)];
    assert!(rt; are_read(alloc, b"00000000\n", 2, failed) == Ok(true));
    assert!(rt; are_read(alloc, b"00000000\n", 3, failed) == Ok(true));
}

/// A request whose words have this many bytes.
fn long_request(alloc: Global, count: usize) -> Result<Vec<u8>, AllocError> {
    let mut bytes = Vec::from_slice(alloc, b"00004097\n")?;
    for _ in 0..count {
        bytes.push(b'x')?;
    }
    bytes.extend_from_slice(b"00000001\nq00000000\n")?;
    Ok(bytes)
}

/// Whether a request of too many words is read past, and its query read.
fn long_is_read(alloc: Global) -> Result<bool, NoMemory> {
    let bytes = long_request(alloc, MAX_WORDS + 1)?;
    are_read(alloc, &bytes, 0, &[Wanted::LongWords("q"), Wanted::End])
}

#[test]
fn a_long_frame_is_read_past(rt: HostRuntime) {
    assert!(rt; long_is_read(rt.alloc()) == Ok(true));
}
