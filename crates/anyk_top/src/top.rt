//! The top call of the program.
ghost use Rattle.std.specs.Prelude.{◌≡◌, ◌<◌, map};
ghost use Rattle.std.specs.String.{string_bytes};
ghost use Rattle.verdict.specs.Bound.{IsBounded, IsPrompt};
ghost use Rattle.verdict.specs.MadeFiles.{files_of_call};
ghost use Rattle.verdict.specs.Outcome.{IsUntouched, Outcome};
ghost use Rattle.anyk_top.specs.CommandLine.{asked_in};
ghost use Rattle.verdict.specs.OutsideOf.{outside};

use crate::execute::execute;
use crate::finish::{finish, refusal_of};
use crate::task::read_task;
use hash_keys::Keys;
use outer_io::{Shelf, Sink};
use std::alloc::Global;
use std::sync::ledger::{Blank, Ledger};
use step_counter::Steps;

/// Runs the program, and returns its exit status. It reads the words and the files on the shelf
/// that they name. The answers go to `out`, and the line of a refusal goes to `err`. The tables are
/// hashed with known keys.
pub fn run_words<F: Shelf, S: Sink, E: Sink, L: Ledger>(
    alloc: Global,
    words: &[String],
    shelf: &mut F,
    out: &mut S,
    err: &mut E,
    steps: &mut Steps<L>,
) -> u8
    ensures outcome { let asked = asked_in (map string_bytes words.now) in
        Outcome asked (files_of_call asked (F.files shelf.old))
        (outside F.Shelf S.Sink E.Sink shelf.old out.old err.old)
        (outside F.Shelf S.Sink E.Sink shelf.new out.new err.new) result }
    ensures bounded { let asked = asked_in (map string_bytes words.now) in
        IsBounded asked (files_of_call asked (F.files shelf.old)) steps.old steps.new }
    ensures prompt { let asked = asked_in (map string_bytes words.now) in
        IsPrompt asked (files_of_call asked (F.files shelf.old)) (S.written out.old) (S.written out.new)
        steps.old steps.new }
    ensures untouched { IsUntouched (asked_in (map string_bytes words.now)) shelf.old shelf.new }
{
    run_keyed(alloc, words, shelf, out, err, Keys::Known, steps)
}

/// Runs the program, and returns its exit status. It reads the words and the files on the shelf
/// that they name. The answers go to `out`, and the line of a refusal goes to `err`. The tables of
/// the files are hashed with these keys; no clause depends on them.
pub fn run_keyed<F: Shelf, S: Sink, E: Sink, L: Ledger>(
    alloc: Global,
    words: &[String],
    shelf: &mut F,
    out: &mut S,
    err: &mut E,
    keys: Keys,
    steps: &mut Steps<L>,
) -> u8
    ensures outcome { let asked = asked_in (map string_bytes words.now) in
        Outcome asked (files_of_call asked (F.files shelf.old))
        (outside F.Shelf S.Sink E.Sink shelf.old out.old err.old)
        (outside F.Shelf S.Sink E.Sink shelf.new out.new err.new) result }
    ensures bounded { let asked = asked_in (map string_bytes words.now) in
        IsBounded asked (files_of_call asked (F.files shelf.old)) steps.old steps.new }
    ensures prompt { let asked = asked_in (map string_bytes words.now) in
        IsPrompt asked (files_of_call asked (F.files shelf.old)) (S.written out.old) (S.written out.new)
        steps.old steps.new }
    ensures untouched { IsUntouched (asked_in (map string_bytes words.now)) shelf.old shelf.new }
{
    match read_task(alloc, words) {
        Ok(task) => {
            let status = finish(err, execute(alloc, &task, shelf, out, keys, steps));
            drop(task);
            status
        }
        Err(fault) => finish(err, Err(refusal_of(fault))),
    }
}

/// `run_keyed` with a step counter of its own, which is not read.
pub fn run_uncounted<F: Shelf, S: Sink, E: Sink, L: Ledger>(
    alloc: Global,
    words: &[String],
    shelf: &mut F,
    out: &mut S,
    err: &mut E,
    keys: Keys,
    blank: Blank,
) -> u8
    requires name { blank.name ≡ L.name }
    requires parts { blank.parts ≡ L.parts }
    requires some_part { 0 < blank.parts }
    ensures outcome { let asked = asked_in (map string_bytes words.now) in
        Outcome asked (files_of_call asked (F.files shelf.old))
        (outside F.Shelf S.Sink E.Sink shelf.old out.old err.old)
        (outside F.Shelf S.Sink E.Sink shelf.new out.new err.new) result }
    ensures untouched { IsUntouched (asked_in (map string_bytes words.now)) shelf.old shelf.new }
{
    let mut steps = Steps::<L>::new(blank);
    run_keyed(alloc, words, shelf, out, err, keys, &mut steps)
}
