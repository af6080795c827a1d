//! The step `next`: members from a cursor's place.
ghost use Rattle.std.specs.Prelude.{◌≡◌, ◌≤◌, ◌<◌, ◌+◌, ◌++◌, IfNone, IfOk, IfSome, IsSomeAnd, IsTrue, OnOk, Some, false, codes, drop, length, slice_get, take};
ghost use Rattle.anyk_model.specs.Output.{cut};
ghost use Rattle.cursor_set.specs.CursorSet.{place_of, with_place};
ghost use Rattle.bound_query.specs.WeighedQuery.{Fits};
ghost use Rattle.outer_io.specs.Printing.{Printed};
ghost use Rattle.outer_io.specs.SinkState.{state_of};
ghost use Rattle.tdp_model.specs.KeyNumbers.{numbers};
ghost use Rattle.output_model.specs.Session.{next_text};
ghost use Rattle.output_model.specs.SessionCalls.{calls_among};
ghost use Rattle.output_model.specs.SessionPieces.{next_pieces};
ghost use Rattle.bound_query.specs.Steps.{whole_lines};
ghost use Rattle.witness_key.specs.WitnessKey.{AreCombinations};
ghost use Rattle.command_output.specs.SessionCosts.{Paid, SetPaced, calls_at, engine_steps};
ghost use Rattle.command_output.specs.SessionListing.{ends_in, line_in, members_in};

use crate::listing::Listing;
use answer_print::{RecordWriter, Style, print_answer};
use cursor_set::{CursorId, Cursors};
use outer_io::{PrintFault, Sink, print};
use std::alloc::Global;
use std::sync::ledger::Ledger;
use step_counter::{NoMemory, Steps};
use tdp_core::{Answer, Ranked};

/// Prints at most `count` members from the place of the cursor `id`, each before the next call of
/// the set, and the cursor's name alone if the list ends before that. The list is the combinations
/// that the set's answers stand for, cut to the limit.
pub(crate) fn print_next<E: Ranked, S: Sink, L: Ledger>(
    records: &mut RecordWriter,
    listing: &Listing<'_>,
    name: &[u8],
    set: &mut Cursors<E>,
    id: CursorId,
    place: &mut u64,
    count: u64,
    out: &mut S,
    steps: &mut Steps<L>,
) -> Result<(), PrintFault>
    requires fits { Fits listing.now.query.now listing.now.tables.now }
    requires rows { AreCombinations listing.now.query.now.query listing.now.tables.now
        set.old.answers }
    requires here { place_of set.old id.number ≡ Some place.old }
    ensures printed { Printed (state_of S.Sink out.old) (state_of S.Sink out.new)
        (next_text (line_in listing.now name.now) (name.now ++ codes "\n")
        (drop place.old (members_in listing.now set.old.answers)) count) result }
    ensures moved { OnOk result (place.new
        ≡ place.old
        + length (take count (drop place.old (members_in listing.now set.old.answers)))) }
    ensures places { OnOk result
        (set.new.places ≡ (with_place set.old id.number (Some place.new)).places) }
    ensures kept { OnOk result (set.new.answers ≡ set.old.answers) }
    ensures paid { Paid E.share set.old set.new
        (place.old + calls_among (ends_in listing.now set.old.answers)
        (length (drop place.old (members_in listing.now set.old.answers))) count)
        (calls_among (ends_in listing.now set.old.answers)
        (length (drop place.old (members_in listing.now set.old.answers))) count) steps.old
        steps.new result }
    ensures paced { SetPaced E.share set.old (whole_lines
        (next_pieces (line_in listing.now name.now) (name.now ++ codes "\n")
        (drop place.old (members_in listing.now set.old.answers)) count))
        (S.written out.old) (S.written out.new) steps.old steps.new }
{
    let named = Style {
        ranks: listing.style.ranks,
        rows: listing.style.rows,
        cursor: Some(name),
    };
    for _given in 0..count {
        let Some(answer) = next_member(set, id, place, listing.query.limit(), steps)? else {
            return print_end(listing.alloc, name, out);
        };
        print_answer(
            records,
            listing.query,
            listing.tables,
            &named,
            &answer.rows,
            out,
        )?;
    }
    Ok(())
}

/// The member at the place of the cursor `id`, which then moves on by one, or `None` at the end.
/// The set is not called at the limit.
fn next_member<E: Ranked, L: Ledger>(
    set: &mut Cursors<E>,
    id: CursorId,
    place: &mut u64,
    limit: Option<u64>,
    steps: &mut Steps<L>,
) -> Result<Option<Answer<E::Key>>, NoMemory>
    requires { place_of set.old id.number ≡ Some place.old }
    ensures some { IfOk result
        (λ found. IfSome found
        (λ answer. IfSome limit (λ n. place.old < n) × (place.new ≡ place.old + 1)
        × (slice_get set.old.answers place.old
        ≡ Some (record {
          rows = answer.rows;
          key = numbers E.Key.KEYS 16
              (E.Key.key answer.rank);
        })))) }
    ensures end { IfOk result
        (λ found. IfNone found
        ((place.new ≡ place.old) × (length (cut limit set.old.answers) ≤ place.old))) }
    ensures places { set.new.places ≡ (with_place set.old id.number (Some place.new)).places }
    ensures kept { set.new.answers ≡ set.old.answers }
    ensures paid { Paid E.share set.old set.new (place.old + calls_at limit place.old)
        (calls_at limit place.old) steps.old steps.new result }
    ensures once { steps.new ≤ steps.old + engine_steps E.share set.old 1 + 4 }
{
    if is_reached(limit, *place) {
        return Ok(None);
    }
    // never refused: no list has 2^64 members
    let Some(after) = place.checked_add(1) else {
        return Err(NoMemory);
    };
    match set.next(id, steps) {
        Ok(Some(answer)) => {
            *place = after;
            Ok(Some(answer))
        }
        Ok(None) => Ok(None),
        Err(_) => Err(NoMemory),
    }
}

/// Whether a place is at the limit, if there is one.
fn is_reached(limit: Option<u64>, place: u64) -> bool
    ensures reached { IsTrue result → IsSomeAnd limit (λ n. n ≤ place) }
    ensures within { result ≡ false → IfSome limit (λ n. place < n) }
{
    match limit {
        Some(limit) => limit <= place,
        None => false,
    }
}

/// Prints the cursor's name alone.
fn print_end<S: Sink>(alloc: Global, name: &[u8], out: &mut S) -> Result<(), PrintFault>
    ensures { Printed (state_of S.Sink out.old) (state_of S.Sink out.new)
        (name.now ++ codes "\n") result }
{
    let mut text = Vec::from_slice(alloc, name)?;
    text.push(b'\n')?;
    print(out, &text)
}
