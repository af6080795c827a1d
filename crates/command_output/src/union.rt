//! Printing the header and the members that a merge has left, each by one write.
ghost use Rattle.std.specs.Prelude.{◌≡◌, ◌+◌, ◌++◌, ◌≤◌, List, Some, drop, length, map, take, ℕ};
ghost use Rattle.std.specs.List.{All, flat_map};
ghost use Rattle.anyk_model.specs.Output.{cut};
ghost use Rattle.answer_print.specs.StyleView.{style_view};
ghost use Rattle.bound_query.specs.WeighedQuery.{Fits};
ghost use Rattle.bound_query.specs.Steps.{whole_lines};
ghost use Rattle.outer_io.specs.Printing.{Printed};
ghost use Rattle.outer_io.specs.SinkState.{state_of};
ghost use Rattle.anyk_model.specs.UnionOutput.{union_header_text, union_line_text, union_output_of};
ghost use Rattle.union_all.specs.Firsts.{tagged_view};
ghost use Rattle.command_output.specs.UnionSteps.{AreMembers, IsMember, UnionPaced, union_steps};

use answer_print::{RecordWriter, Style};
use bound_query::Query;
use outer_io::{PrintFault, Sink, print};
use std::alloc::Global;
use std::sync::ledger::Ledger;
use step_counter::Steps;
use table_store::Tables;
use tdp_core::Ranked;
use union_all::{Merge, Tagged, write_header_of, write_line_of};

/// Prints the header, and then the members that the merge has left, as many as the limit allows.
/// `NoMemory` if memory is refused, and `Write` if a write failed.
pub fn print_union<'q, E: Ranked + Drop, S: Sink, L: Ledger>(
    alloc: Global,
    queries: &[Query],
    tables: &Tables,
    style: &Style<'_>,
    limit: Option<u64>,
    merge: &mut Merge<'q, E>,
    out: &mut S,
    steps: &mut Steps<L>,
) -> Result<(), PrintFault>
    requires some { 1 ≤ length queries.now }
    requires fits { All (λ q. Fits q tables.now) queries.now }
    requires queries { merge.old.queries ≡ map (λ q. q.query) queries.now }
    requires members { AreMembers (map (λ q. q.query) queries.now) tables.now merge.old.rest }
    ensures printed { let all = map (λ q. q.query) queries.now in
        Printed (state_of S.Sink out.old) (state_of S.Sink out.new)
        (union_output_of all tables.now (style_view style.now) (cut limit merge.old.rest)) result }
    ensures bounded { steps.new
        ≤ steps.old + union_steps E.share merge.old.engines (cut limit merge.old.rest) }
    ensures prompt { let all = map (λ q. q.query) queries.now in
        let members = cut limit merge.old.rest in
        (start part : List ℕ) → S.written out.old ≡ Some start
        → S.written out.new ≡ Some (start ++ part)
        → steps.new ≤ steps.old + union_steps E.share merge.old.engines
        (take (whole_lines (map (union_line_text all tables.now (style_view style.now)) members)
        (drop (length (union_header_text all tables.now (style_view style.now))) part)
        + 1) members) }
{
    let mut records = RecordWriter::new(alloc);
    print_union_header(alloc, &mut records, queries, tables, style, out)?;
    print_members(
        &mut records,
        queries,
        tables,
        style,
        limit,
        merge,
        out,
        steps,
    )
}

/// Prints the record above the members. `records` keeps the memory for it. `Write` if the write
/// failed, and `NoMemory` if memory is refused.
fn print_union_header<S: Sink>(
    alloc: Global,
    records: &mut RecordWriter,
    queries: &[Query],
    tables: &Tables,
    style: &Style<'_>,
    out: &mut S,
) -> Result<(), PrintFault>
    requires some { 1 ≤ length queries.now }
    requires fits { All (λ q. Fits q tables.now) queries.now }
    ensures { Printed (state_of S.Sink out.old) (state_of S.Sink out.new)
        (union_header_text (map (λ q. q.query) queries.now) tables.now
        (style_view style.now)) result }
{
    write_header_of(alloc, records, queries, tables, style)?;
    print(out, records.text())
}

/// Prints the members, up to the limit or the end of the union. `records` keeps the memory for a
/// record.
fn print_members<'q, E: Ranked + Drop, S: Sink, L: Ledger>(
    records: &mut RecordWriter,
    queries: &[Query],
    tables: &Tables,
    style: &Style<'_>,
    limit: Option<u64>,
    merge: &mut Merge<'q, E>,
    out: &mut S,
    steps: &mut Steps<L>,
) -> Result<(), PrintFault>
    requires fits { All (λ q. Fits q tables.now) queries.now }
    requires queries { merge.old.queries ≡ map (λ q. q.query) queries.now }
    requires members { AreMembers (map (λ q. q.query) queries.now) tables.now merge.old.rest }
    ensures printed { let all = map (λ q. q.query) queries.now in
        Printed (state_of S.Sink out.old) (state_of S.Sink out.new)
        (flat_map (union_line_text all tables.now (style_view style.now))
        (cut limit merge.old.rest)) result }
    ensures paced { let all = map (λ q. q.query) queries.now in
        UnionPaced (union_steps E.share merge.old.engines)
        (union_line_text all tables.now (style_view style.now)) (cut limit merge.old.rest)
        (S.written out.old) (S.written out.new) steps.old steps.new }
{
    let most = limit.unwrap_or(u64::MAX);
    for _given in 0..most {
        let Some(tagged) = merge.next(steps)? else {
            return Ok(());
        };
        print_member(records, &tagged, queries, tables, style, out)?;
    }
    // not met without a limit: no memory holds 2^64 - 1 answers
    if limit.is_none() {
        return Err(PrintFault::NoMemory);
    }
    Ok(())
}

/// Prints the record of a member. `records` keeps the memory for it. `Write` if the write
/// failed, and `NoMemory` if memory is refused.
fn print_member<S: Sink>(
    records: &mut RecordWriter,
    tagged: &Tagged,
    queries: &[Query],
    tables: &Tables,
    style: &Style<'_>,
    out: &mut S,
) -> Result<(), PrintFault>
    requires fits { All (λ q. Fits q tables.now) queries.now }
    requires member { let all = map (λ q. q.query) queries.now in
        IsMember all tables.now (tagged_view all tagged.now) }
    ensures { let all = map (λ q. q.query) queries.now in
        Printed (state_of S.Sink out.old) (state_of S.Sink out.new)
        (union_line_text all tables.now (style_view style.now)
        (tagged_view all tagged.now)) result }
{
    write_line_of(records, tagged, queries, tables, style)?;
    print(out, records.text())
}
