//! A session, one step after another.
ghost use Rattle.std.specs.Prelude.{◌≡◌, ◌≤◌, ◌+◌, ◌*◌, ◌++◌, [], List, None, OnOk, Some, map, option_map, replicate, ℕ};
ghost use Rattle.anyk_model.specs.Output.{cut};
ghost use Rattle.answer_print.specs.StyleView.{style_view};
ghost use Rattle.bound_query.specs.WeighedQuery.{Fits};
ghost use Rattle.outer_io.specs.Printing.{Printed};
ghost use Rattle.outer_io.specs.SinkState.{state_of};
ghost use Rattle.session_script.specs.Script.{KeepsRules};
ghost use Rattle.output_model.specs.Session.{Places, no_cursors, session_text};
ghost use Rattle.output_model.specs.SessionCalls.{calls_of_steps, ends_by_itself, reach_of_steps};
ghost use Rattle.output_model.specs.SessionPieces.{pieces_in};
ghost use Rattle.bound_query.specs.Steps.{steps_for};
ghost use Rattle.witness_key.specs.WitnessKey.{AreCombinations, combinations_in};
ghost use Rattle.command_output.specs.OpenCursors.{HoldsCursors};
ghost use Rattle.command_output.specs.SessionRules.{CanStep};
ghost use Rattle.command_output.specs.SessionCosts.{KeepsSessionCost, SetPaced};
ghost use Rattle.command_output.specs.SessionListing.{ends_in, line_in, members_in};
ghost use Rattle.command_output.specs.TakenSteps.{IsTaken};

use crate::listing::Listing;
use crate::next_step::print_next;
use crate::open_cursors::{OpenCursor, OpenCursors, cursor_of, move_cursor};
use answer_print::{RecordWriter, Style, print_header};
use bound_query::Query;
use cursor_set::{Cursors, MAX_OPEN};
use outer_io::{PrintFault, Sink};
use session_script::Step;
use std::alloc::Global;
use std::sync::ledger::Ledger;
use step_counter::Steps;
use table_store::Tables;
use tdp_core::Ranked;

/// Prints the header with the title of the cursors' names, and then what the steps of the script
/// print of the answers that the engine has left, as far as the limit allows. `NoMemory` if memory
/// is refused, and `Write` if a write failed. The engine is called only for places that a
/// cursor reaches for the first time. Each call for a member takes at most 4 more counted steps,
/// and what it gives is printed before the next call.
pub fn print_session<E: Ranked + Drop, S: Sink, L: Ledger>(
    alloc: Global,
    query: &Query,
    tables: &Tables,
    style: &Style<'_>,
    engine: E,
    script: &[Step],
    out: &mut S,
    steps: &mut Steps<L>,
) -> Result<(), PrintFault>
    requires fits { Fits query.now tables.now }
    requires rows { AreCombinations query.now.query tables.now (E.rest engine) }
    requires rules { KeepsRules [] script.now }
    ensures printed { Printed (state_of S.Sink out.old) (state_of S.Sink out.new)
        (session_text query.now.query tables.now (style_view style.now)
        (cut query.now.query.limit
        (combinations_in query.now.query (E.rest engine))) script.now) result }
    ensures bounded { steps.new ≤ steps.old
        + steps_for (λ n. E.share (E.size engine) (E.calls engine + n))
        (reach_of_steps (ends_by_itself query.now.query.limit
        (combinations_in query.now.query (E.rest engine)))
        (cut query.now.query.limit (combinations_in query.now.query (E.rest engine))) no_cursors
        script.now)
        + 4 * calls_of_steps
        (ends_by_itself query.now.query.limit (combinations_in query.now.query (E.rest engine)))
        (cut query.now.query.limit (combinations_in query.now.query (E.rest engine))) no_cursors
        script.now }
    ensures prompt { (start part : List ℕ) → S.written out.old ≡ Some start
        → S.written out.new ≡ Some (start ++ part) → steps.new ≤ steps.old
        + steps_for (λ n. E.share (E.size engine) (E.calls engine + n))
        (pieces_in query.now.query tables.now (style_view style.now) (cut query.now.query.limit
        (combinations_in query.now.query (E.rest engine))) script.now part + 1)
        + 4 * (pieces_in query.now.query tables.now (style_view style.now)
        (cut query.now.query.limit (combinations_in query.now.query (E.rest engine))) script.now
        part + 1) }
{
    let listing = Listing {
        alloc,
        query,
        tables,
        style,
    };
    let mut records = RecordWriter::new(alloc);
    let mut set = Cursors::new(alloc, engine);
    print_steps(&mut records, &listing, &mut set, script, out, steps)
}

/// Prints the header and what the steps print, over a set without an open cursor.
fn print_steps<E: Ranked, S: Sink, L: Ledger>(
    records: &mut RecordWriter,
    listing: &Listing<'_>,
    set: &mut Cursors<E>,
    script: &[Step],
    out: &mut S,
    steps: &mut Steps<L>,
) -> Result<(), PrintFault>
    requires fits { Fits listing.now.query.now listing.now.tables.now }
    requires rows { AreCombinations listing.now.query.now.query listing.now.tables.now
        set.old.answers }
    requires places { set.old.places ≡ replicate 64 None }
    requires rules { KeepsRules [] script.now }
    ensures printed { Printed (state_of S.Sink out.old) (state_of S.Sink out.new)
        (session_text listing.now.query.now.query listing.now.tables.now
        (style_view listing.now.style.now) (members_in listing.now set.old.answers) script.now)
        result }
    ensures within { KeepsSessionCost E.share set.old
        (reach_of_steps (ends_in listing.now set.old.answers)
        (members_in listing.now set.old.answers) no_cursors script.now)
        (calls_of_steps (ends_in listing.now set.old.answers)
        (members_in listing.now set.old.answers) no_cursors script.now) steps.old steps.new }
    ensures paced { SetPaced E.share set.old (pieces_in listing.now.query.now.query
        listing.now.tables.now (style_view listing.now.style.now)
        (members_in listing.now set.old.answers) script.now)
        (S.written out.old) (S.written out.new) steps.old steps.new }
{
    let titled = Style {
        ranks: listing.style.ranks,
        rows: listing.style.rows,
        cursor: Some(b""),
    };
    print_header(
        listing.alloc,
        records,
        listing.query,
        listing.tables,
        &titled,
        out,
    )?;
    let mut cursors = [None; MAX_OPEN];
    for step in script {
        take_step(records, listing, set, &mut cursors, step, out, steps)?;
    }
    Ok(())
}

/// Takes one step of the script, and prints what it gives. An error if a write failed or memory is
/// refused.
fn take_step<'s, E: Ranked, S: Sink, L: Ledger>(
    records: &mut RecordWriter,
    listing: &Listing<'_>,
    set: &mut Cursors<E>,
    cursors: &mut OpenCursors<'s>,
    step: &'s Step,
    out: &mut S,
    steps: &mut Steps<L>,
) -> Result<(), PrintFault>
    requires fits { Fits listing.now.query.now listing.now.tables.now }
    requires rows { AreCombinations listing.now.query.now.query listing.now.tables.now
        set.old.answers }
    requires same { set.old.places ≡ map (option_map (λ cursor. cursor.place)) cursors.old }
    ensures taken { (places : Places) → HoldsCursors set.old cursors.old places → CanStep places step.now
        → IsTaken E.share (line_in listing.now) (ends_in listing.now set.old.answers)
        (members_in listing.now set.old.answers) places step.now
        (record {
          set = set.old;
          cursors = cursors.old;
          sink = state_of S.Sink out.old;
          steps = steps.old;
        })
        (record {
          set = set.new;
          cursors = cursors.new;
          sink = state_of S.Sink out.new;
          steps = steps.new;
        }) result }
    ensures kept { OnOk result (set.new.answers ≡ set.old.answers) }
{
    match step {
        Step::Next(name, count) => {
            let name = name.bytes();
            let Some((id, mut place)) = cursor_of(cursors, name) else {
                return Ok(());
            };
            let printed = print_next(
                records, listing, name, set, id, &mut place, *count, out, steps,
            );
            cursors[id.number] = Some(OpenCursor { name, place });
            printed
        }
        _ => Ok(move_cursor(set, cursors, step)?),
    }
}
