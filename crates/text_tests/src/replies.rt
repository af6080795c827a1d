//! Replies as parts.
use outer_io::{MemSink, Sink, write_all};
use reply_parts::{ERRORS, OUTPUT, PartBuffer, PartSink, write_end, write_greeting};
use std::alloc::Global;
use step_counter::NoMemory;

/// Writes all of the bytes, and goes on once where it was stopped.
fn is_written<S: Sink>(sink: &mut S, bytes: &[u8]) -> bool {
    match write_all(sink, bytes) {
        Ok(()) => true,
        Err(fault) => write_all(sink, &bytes[fault.taken..]).is_ok(),
    }
}

/// The sink after these bytes went to it as parts of this stream, and whether they all did.
fn sent<const STREAM: u8>(
    sink: MemSink,
    buffer: PartBuffer,
    bytes: &[u8],
) -> (MemSink, PartBuffer, bool) {
    let mut parts: PartSink<MemSink, STREAM> = PartSink::new(sink, buffer);
    let done = is_written(&mut parts, bytes) && parts.is_whole();
    let (sink, buffer) = parts.into_parts();
    (sink, buffer, done)
}

/// Whether an answer and a note are sent whole to a sink that takes so many bytes a call, fails at
/// the call of this number, and takes nothing at another.
fn are_sent(alloc: Global, most: usize, failing: u64, zero: u64) -> Result<bool, NoMemory> {
    let numbers = vec![in alloc; failing]?;
    let sink = MemSink::new(alloc, 100, most, numbers, vec![in alloc; zero]?)?;
    let buffer = PartBuffer::new(alloc)?;
    let (sink, buffer, answered) = sent::<OUTPUT>(sink, buffer, b"answers\n");
    let (sink, _buffer, noted) = sent::<ERRORS>(sink, buffer, b"note\n");
    let wanted = "out 00000008\nanswers\nerr 00000005\nnote\n";
    Ok(answered && noted && sink.bytes() == wanted.as_bytes())
}

#[test]
fn parts_go_on_after_a_fault(rt: HostRuntime) {
    let alloc = rt.alloc();
    for most in 1..15usize {
        for number in 0..41u64 {
            assert!(rt; are_sent(alloc, most, number, 0) == Ok(true));
            assert!(rt; are_sent(alloc, most, 0, number) == Ok(true));
        }
    }
}

/// Whether a greeting, an answer and the end of the reply are written as this text.
fn is_reply(alloc: Global, answer: &str, status: u8, wanted: &str) -> Result<bool, NoMemory> {
    let mut sink = MemSink::new(alloc, 100, 100, Vec::new(alloc), Vec::new(alloc))?;
    let greeted = write_greeting(&mut sink).is_ok();
    let buffer = PartBuffer::new(alloc)?;
    let (mut sink, _buffer, done) = sent::<OUTPUT>(sink, buffer, answer.as_bytes());
    let ended = write_end(&mut sink, status).is_ok();
    Ok(greeted && done && ended && sink.bytes() == wanted.as_bytes())
}

#[test]
fn a_reply_has_its_greeting_and_its_end(rt: HostRuntime) {
    let alloc = rt.alloc();
    let whole = "anyk-serve 1\nout 00000002\na\nend 00000003\n";
    assert!(rt; is_reply(alloc, "a\n", 3, whole) == Ok(true));
    assert!(rt; is_reply(alloc, "", 255, "anyk-serve 1\nend 00000255\n") == Ok(true));
}

/// Whether 9,000 bytes are sent as two parts.
fn long_is_sent(alloc: Global) -> Result<bool, NoMemory> {
    let mut answer = Vec::new(alloc);
    answer.resize(9000, b'x')?;
    let sink = MemSink::new(alloc, 10_000, 10_000, Vec::new(alloc), Vec::new(alloc))?;
    let buffer = PartBuffer::new(alloc)?;
    let (sink, _buffer, done) = sent::<OUTPUT>(sink, buffer, &answer);
    let bytes = sink.bytes();
    Ok(
        done && bytes.len() == 9026
            && bytes.starts_with(b"out 00008192\nxx")
            && bytes[8205..].starts_with(b"out 00000808\nxx"),
    )
}

#[test]
fn what_is_long_takes_several_parts(rt: HostRuntime) {
    assert!(rt; long_is_sent(rt.alloc()) == Ok(true));
}
