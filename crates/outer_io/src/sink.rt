//! A place that takes bytes one after another.

ghost use Rattle.std.specs.Prelude.{◌≡◌, ◌≤◌, ◌<◌, List, ℕ, Option, length, IfOk, OnErr};
ghost use Rattle.std.specs.Io.KnownBytes.{WriteAppends};
ghost use Rattle.outer_io.specs.Counts.{Rose};

/// The sink took nothing.
#[derive(Clone, Copy, PartialEq, Eq, Drop)]
pub struct WriteFailed;

/// A place that takes bytes.
pub trait Sink {
    /// The bytes that were written, if they are known.
    ghost written: { Self → Option (List ℕ) };

    /// How often the sink failed.
    ghost faults: { Self → ℕ };

    /// Takes some of the first bytes, and returns how many. It returns 0 for some bytes only at a
    /// fault.
    fn write(&mut self, bytes: &[u8]) -> Result<usize, WriteFailed>
        ensures within { IfOk result (λ n. n ≤ length bytes.now) }
        ensures written { WriteAppends (written self.old) (written self.new) result bytes.now }
        ensures failed { OnErr result (Rose (faults self.old) (faults self.new)) }
        ensures stuck { IfOk result
            (λ n. n ≡ 0 → 0 < length bytes.now → Rose (faults self.old) (faults self.new)) }
        ensures faults { faults self.old ≤ faults self.new };
}
