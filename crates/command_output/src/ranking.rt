//! Printing the header and the answers that an engine has left, each by one write.
ghost use Rattle.std.specs.Prelude.{◌≡◌, ◌+◌, ◌++◌, ◌≤◌, IfOk, List, Some, drop, length, map, take, ℕ};
ghost use Rattle.std.specs.List.{flat_map};
ghost use Rattle.anyk_model.specs.Output.{cut, header_text, line_text, output_of};
ghost use Rattle.answer_print.specs.StyleView.{style_view};
ghost use Rattle.bound_query.specs.WeighedQuery.{Fits};
ghost use Rattle.witness_key.specs.WitnessKey.{AreCombinations, combinations_in};
ghost use Rattle.bound_query.specs.Steps.{Paced, calls_for, steps_for, whole_lines};
ghost use Rattle.outer_io.specs.Printing.{Printed};
ghost use Rattle.outer_io.specs.SinkState.{state_of};

use answer_print::{RecordWriter, Style, print_answer, print_header};
use bound_query::Query;
use outer_io::{PrintFault, Sink};
use std::alloc::Global;
use std::sync::ledger::Ledger;
use step_counter::Steps;
use table_store::Tables;
use tdp_core::Ranked;

/// Prints the header, and then the answers that the engine has left, as many as the limit allows.
/// `NoMemory` if memory is refused, and `Write` if a write failed.
pub fn print_ranking<E: Ranked, S: Sink, L: Ledger>(
    alloc: Global,
    query: &Query,
    tables: &Tables,
    style: &Style<'_>,
    engine: &mut E,
    out: &mut S,
    steps: &mut Steps<L>,
) -> Result<(), PrintFault>
    requires fits { Fits query.now tables.now }
    requires rows { AreCombinations query.now.query tables.now (E.rest engine.old) }
    ensures printed { Printed (state_of S.Sink out.old) (state_of S.Sink out.new)
        (output_of query.now.query tables.now (style_view style.now)
        (cut query.now.query.limit (combinations_in query.now.query (E.rest engine.old)))) result }
    ensures bounded { steps.new ≤ steps.old
        + steps_for (λ n. E.share (E.size engine.old) (E.calls engine.old + n))
        (calls_for query.now.query.limit (combinations_in query.now.query (E.rest engine.old))) }
    ensures prompt { (start part : List ℕ) → S.written out.old ≡ Some start
        → S.written out.new ≡ Some (start ++ part) → steps.new ≤ steps.old
        + steps_for (λ n. E.share (E.size engine.old) (E.calls engine.old + n)) (whole_lines
        (map (line_text query.now.query tables.now (style_view style.now))
        (cut query.now.query.limit (combinations_in query.now.query (E.rest engine.old))))
        (drop (length (header_text query.now.query tables.now (style_view style.now))) part) + 1) }
{
    let mut records = RecordWriter::new(alloc);
    print_header(alloc, &mut records, query, tables, style, out)?;
    print_answers(&mut records, query, tables, style, engine, out, steps)
}

/// Prints the answers, up to the limit or the engine's end. `records` keeps the memory for them.
fn print_answers<E: Ranked, S: Sink, L: Ledger>(
    records: &mut RecordWriter,
    query: &Query,
    tables: &Tables,
    style: &Style<'_>,
    engine: &mut E,
    out: &mut S,
    steps: &mut Steps<L>,
) -> Result<(), PrintFault>
    requires fits { Fits query.now tables.now }
    requires rows { AreCombinations query.now.query tables.now (E.rest engine.old) }
    ensures printed { Printed (state_of S.Sink out.old) (state_of S.Sink out.new)
        (flat_map (line_text query.now.query tables.now (style_view style.now))
        (cut query.now.query.limit (combinations_in query.now.query (E.rest engine.old)))) result }
    ensures paced { Paced (λ n. E.share (E.size engine.old) (E.calls engine.old + n))
        (map (line_text query.now.query tables.now (style_view style.now))
        (cut query.now.query.limit (combinations_in query.now.query (E.rest engine.old))))
        (calls_for query.now.query.limit (combinations_in query.now.query (E.rest engine.old)))
        (S.written out.old) (S.written out.new) steps.old steps.new }
{
    let most = query.limit().unwrap_or(u64::MAX);
    for _given in 0..most {
        let Some(answer) = engine.next(steps)? else {
            return Ok(());
        };
        print_answer(records, query, tables, style, &answer.rows, out)?;
    }
    // not met without a limit: no memory holds 2^64 - 1 answers
    if query.limit().is_none() {
        return Err(PrintFault::NoMemory);
    }
    Ok(())
}
