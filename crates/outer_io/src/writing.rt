//! Writing all bytes to a sink.

ghost use Rattle.std.specs.Prelude.{◌≡◌, ◌≤◌, ◌<◌, length, take, IfErr, OnErr, OnOk};
ghost use Rattle.std.specs.Io.KnownBytes.{Appends};
ghost use Rattle.outer_io.specs.Counts.{Rose};

use crate::Sink;

/// The sink took only the first `taken` of the bytes.
#[derive(Clone, Copy, PartialEq, Eq, Drop)]
pub struct Unwritten {
    pub taken: usize,
}

/// Passes all bytes to the sink, piece by piece as it takes them. It stops at the first fault, or
/// if the sink takes none of some bytes; `Unwritten` says how many were taken. It takes no memory.
pub fn write_all<S: Sink>(sink: &mut S, bytes: &[u8]) -> Result<(), Unwritten>
    ensures all { OnOk result (Appends (S.written sink.old) (S.written sink.new) bytes.now) }
    ensures part { IfErr result
        (λ e. Appends (S.written sink.old) (S.written sink.new) (take e.taken bytes.now)) }
    ensures within { IfErr result (λ e. e.taken < length bytes.now) }
    ensures cause { OnErr result (Rose (S.faults sink.old) (S.faults sink.new)) }
    ensures faults { S.faults sink.old ≤ S.faults sink.new }
{
    let mut taken = 0;
    while taken < bytes.len() {
        match sink.write(&bytes[taken..]) {
            Ok(0) => return Err(Unwritten { taken }),
            Ok(count) => taken += count,
            Err(_) => return Err(Unwritten { taken }),
        }
    }
    Ok(())
}
