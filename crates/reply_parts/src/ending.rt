//! The greeting, and the ends of replies.

ghost use Rattle.std.specs.Prelude.{◌≡◌, ◌≤◌, ◌+◌, Some, [], ◌∷◌, take, IfErr, OnErr, OnOk};
ghost use Rattle.std.specs.Io.KnownBytes.{Appends};
ghost use Rattle.outer_io.specs.Counts.{Rose};
ghost use Rattle.reply_parts.specs.History.{greeting, history};
ghost use Rattle.reply_parts.specs.Known.{told};

use crate::head::end_head;
use outer_io::{Sink, Unwritten, write_all};

/// The line with which the output begins.
const GREETING: &[u8] = b"anyk-serve 1\n";

/// Writes the greeting, which begins the output.
pub fn write_greeting<S: Sink>(out: &mut S) -> Result<(), Unwritten>
    ensures all { OnOk result (Appends (S.written out.old) (S.written out.new) greeting) }
    ensures first { OnOk result (S.written out.old ≡ Some [] → told (S.written out.new) ≡ Some []) }
    ensures part { IfErr result
        (λ e. Appends (S.written out.old) (S.written out.new) (take e.taken greeting)) }
    ensures cause { OnErr result (Rose (S.faults out.old) (S.faults out.new)) }
    ensures faults { S.faults out.old ≤ S.faults out.new }
{
    write_all(out, GREETING)
}

/// Ends a reply with its status, where no part is begun.
pub fn write_end<S: Sink>(out: &mut S, status: u8) -> Result<(), Unwritten>
    ensures ended { OnOk result
        (Appends (told (S.written out.old)) (told (S.written out.new)) ((512 + status) ∷ [])) }
    ensures part { OnErr result
        (Appends (told (S.written out.old)) (history (S.written out.new)) []) }
    ensures cause { OnErr result (Rose (S.faults out.old) (S.faults out.new)) }
    ensures faults { S.faults out.old ≤ S.faults out.new }
{
    write_all(out, &end_head(status))
}
