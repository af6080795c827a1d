//! Cursors over answers in memory.
ghost use Rattle.std.specs.Prelude.{◌≡◌, ◌≤◌, ℕ, ◌<◌, [], map, drop};
ghost use Rattle.std.proofs.Common.{rules};
ghost use Rattle.tdp_model.specs.KeyNumbers.{numbers};

use cursor_set::laws::{Driven, drive};
use cursor_set::{CursorFault, CursorId, Cursors, MAX_OPEN};
use rank_key::{Rank, SumRank};
use std::alloc::Global;
use std::marker::Brand;
use std::sync::ledger::{Blank, Ledger};
use step_counter::{NoMemory, Steps};
use tdp_core::{Answer, Ranked};

/// Answers in memory, given in their order. The first `refusals` calls are refused memory.
#[derive(Drop)]
struct GivenAnswers<R: Rank> {
    answers: Vec<Answer<R>>,
    place: usize,
    calls: u64,
    refusals: u64,
}

impl<R: Rank> Ranked for GivenAnswers<R> {
    type Key = R;

    ghost rest = { λ s. map (λ a. record { rows = a.rows; key = numbers R.KEYS 16 (R.key a.rank) })
        (drop s.place s.answers.items) };

    ghost calls = { λ s. s.calls };

    ghost due = { λ s. 0 };

    ghost size = { λ s. [] };

    ghost share = { λ s c. 0 };

    fn next<L: Ledger>(&mut self, _steps: &mut Steps<L>) -> Result<Option<Answer<R>>, NoMemory> {
        self.calls = self.calls.saturating_add(1);
        if self.refusals > 0 {
            self.refusals -= 1;
            return Err(NoMemory);
        }
        if self.place < self.answers.len() {
            let answer = self.answers[self.place];
            self.place += 1;
            return Ok(Some(answer));
        }
        Ok(None)
    }

    ghost share_rises = { Prim.search rules };

    ghost due_within = { Prim.search rules };
}

/// The answers with the row numbers below `count`.
fn answers_of<R: Rank>(alloc: Global, count: u16) -> Result<Vec<Answer<R>>, NoMemory>
    requires slots { 1 ≤ R.ITEMS }
{
    let mut answers = Vec::new(alloc);
    for number in 0..u32::from(count) {
        let rank = R::of_row(&[], 0, number);
        answers.push(Answer {
            rows: [number; 16],
            rank,
        })?;
    }
    Ok(answers)
}

/// No cursor yet over these answers.
fn cursors_over<R: Rank>(
    alloc: Global,
    count: u16,
    refusals: u64,
) -> Result<Cursors<GivenAnswers<R>>, NoMemory>
    requires slots { 1 ≤ R.ITEMS }
{
    let engine = GivenAnswers {
        answers: answers_of(alloc, count)?,
        place: 0,
        calls: 0,
        refusals,
    };
    Ok(Cursors::new(alloc, engine))
}

/// The row number of the first item in a cursor's next answer.
fn next_row<E: Ranked, L: Ledger>(
    cursors: &mut Cursors<E>,
    id: CursorId,
    steps: &mut Steps<L>,
) -> Result<Option<u32>, CursorFault> {
    match cursors.next(id, steps)? {
        Some(answer) => Ok(Some(answer.rows[0])),
        None => Ok(None),
    }
}

/// Whether a cursor returns these rows, and then its end.
fn gives<E: Ranked, L: Ledger>(
    cursors: &mut Cursors<E>,
    id: CursorId,
    rows: &[Option<u32>],
    steps: &mut Steps<L>,
) -> bool {
    for row in rows {
        if next_row(cursors, id, steps) != Ok(*row) {
            return false;
        }
    }
    true
}

/// Whether two cursors move apart, the second of which was forked from the first at place 2 of 3.
fn move_apart<E: Ranked, L: Ledger>(
    cursors: &mut Cursors<E>,
    a: CursorId,
    b: CursorId,
    steps: &mut Steps<L>,
) -> bool {
    gives(cursors, b, &[Some(2), None], steps)
        && gives(cursors, a, &[Some(2)], steps)
        && cursors.rewind(b) == Ok(())
        && gives(cursors, a, &[None], steps)
        && gives(cursors, b, &[Some(0)], steps)
}

/// Whether each call on a cursor returns that it is not open.
fn is_unknown<E: Ranked, L: Ledger>(
    cursors: &mut Cursors<E>,
    id: CursorId,
    steps: &mut Steps<L>,
) -> bool {
    let unknown = CursorFault::Unknown(id);
    next_row(cursors, id, steps) == Err(unknown)
        && cursors.fork(id) == Err(unknown)
        && cursors.rewind(id) == Err(unknown)
        && cursors.close(id) == Err(unknown)
}

/// Whether the first cursor is closed and opened again, and the second, at place 1, does not move.
fn closes_and_opens<E: Ranked, L: Ledger>(
    cursors: &mut Cursors<E>,
    a: CursorId,
    b: CursorId,
    steps: &mut Steps<L>,
) -> bool {
    cursors.close(a) == Ok(())
        && is_unknown(cursors, a, steps)
        && cursors.open() == Ok(a)
        && gives(cursors, b, &[Some(1)], steps)
}

/// Whether cursors over three answers move as the calls say.
fn move_over_three<E: Ranked, L: Ledger>(
    cursors: &mut Cursors<E>,
    steps: &mut Steps<L>,
) -> Result<bool, CursorFault> {
    let a = cursors.open()?;
    if !gives(cursors, a, &[Some(0), Some(1)], steps) {
        return Ok(false);
    }
    let b = cursors.fork(a)?;
    Ok(move_apart(cursors, a, b, steps) && closes_and_opens(cursors, a, b, steps))
}

fn cursors_move<R: Rank, L: Ledger>(
    alloc: Global,
    blank: Blank,
) -> Result<Result<bool, CursorFault>, NoMemory>
    requires slots { 1 ≤ R.ITEMS }
    requires name { blank.name ≡ L.name }
    requires parts { blank.parts ≡ L.parts }
    requires share { 0 < L.parts }
{
    let mut steps: Steps<L> = Steps::new(blank);
    let mut cursors = cursors_over::<R>(alloc, 3, 0)?;
    Ok(move_over_three(&mut cursors, &mut steps))
}

/// Whether this many cursors can be opened.
fn open_all<E: Ranked>(cursors: &mut Cursors<E>, count: usize) -> bool {
    for _ in 0..count {
        if cursors.open().is_err() {
            return false;
        }
    }
    true
}

/// Whether a closed cursor is unknown, and is opened again under the same number.
fn reopens<E: Ranked>(cursors: &mut Cursors<E>, first: CursorId) -> bool {
    cursors.close(first) == Ok(())
        && cursors.fork(first) == Err(CursorFault::Unknown(first))
        && cursors.open() == Ok(first)
}

/// Whether the greatest allowed number of cursors can be open, and no more.
fn open_as_many_as_can_be<E: Ranked>(cursors: &mut Cursors<E>) -> Result<bool, CursorFault> {
    let first = cursors.open()?;
    Ok(
        open_all(cursors, MAX_OPEN - 1)
            && cursors.open() == Err(CursorFault::TooMany)
            && cursors.fork(first) == Err(CursorFault::TooMany)
            && reopens(cursors, first),
    )
}

fn cursors_open<R: Rank>(alloc: Global) -> Result<Result<bool, CursorFault>, NoMemory>
    requires slots { 1 ≤ R.ITEMS }
{
    let mut cursors = cursors_over::<R>(alloc, 1, 0)?;
    Ok(open_as_many_as_can_be(&mut cursors))
}

/// Drives a cursor from the start of the list.
fn drive_from_the_front<E: Ranked, L: Ledger>(
    cursors: &mut Cursors<E>,
    members: u64,
    refusals: u64,
    steps: &mut Steps<L>,
) -> Result<Driven, CursorFault> {
    let id = cursors.open()?;
    Ok(drive(cursors, id, members, refusals, steps))
}

/// The members and refusals up to which a cursor is driven, the answers and refusals that it meets,
/// and whether it meets the end.
const DRIVES: &[(u64, u64, u64, u64, bool)] = &[
    (3, 1, 0, 2, false),
    (3, 1, 3, 1, false),
    (9, 0, 5, 0, true),
    (9, 0, 5, 0, true),
    (5, 0, 5, 0, false),
];

/// Whether cursors over five answers, one after another, are driven that far if the first three
/// calls are refused.
fn are_driven<E: Ranked, L: Ledger>(cursors: &mut Cursors<E>, steps: &mut Steps<L>) -> bool {
    for (members, refusals, given, refused, ended) in DRIVES {
        let driven = Driven {
            given: *given,
            refused: *refused,
            ended: *ended,
        };
        if drive_from_the_front(cursors, *members, *refusals, steps) != Ok(driven) {
            return false;
        }
    }
    true
}

fn cursors_are_driven<R: Rank, L: Ledger>(alloc: Global, blank: Blank) -> Result<bool, NoMemory>
    requires slots { 1 ≤ R.ITEMS }
    requires name { blank.name ≡ L.name }
    requires parts { blank.parts ≡ L.parts }
    requires share { 0 < L.parts }
{
    let mut steps: Steps<L> = Steps::new(blank);
    let mut cursors = cursors_over::<R>(alloc, 5, 3)?;
    Ok(are_driven(&mut cursors, &mut steps))
}

#[test]
fn cursors_move_apart(rt: HostRuntime) {
    let moved = cursors_move::<SumRank, Brand>(rt.alloc(), Blank::new(1));
    assert!(rt; moved == Ok(Ok(true)));
}

#[test]
fn the_65th_cursor_is_refused(rt: HostRuntime) {
    assert!(rt; cursors_open::<SumRank>(rt.alloc()) == Ok(Ok(true)));
}

#[test]
fn a_driven_cursor_meets_refusals_and_the_end(rt: HostRuntime) {
    let driven = cursors_are_driven::<SumRank, Brand>(rt.alloc(), Blank::new(1));
    assert!(rt; driven == Ok(true));
}
