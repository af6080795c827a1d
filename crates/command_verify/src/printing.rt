//! Printing the header and the answers of a list, each by one write.
ghost use Rattle.std.specs.Prelude.{length, map, take};
ghost use Rattle.std.specs.List.{AllByRecursion, flat_map};
ghost use Rattle.anyk_model.specs.Output.{line_text, output_of};
ghost use Rattle.anyk_model.specs.Query.{IsCombination, row_counts};
ghost use Rattle.answer_print.specs.StyleView.{style_view};
ghost use Rattle.bound_query.specs.WeighedQuery.{Fits};
ghost use Rattle.outer_io.specs.Printing.{Printed};
ghost use Rattle.outer_io.specs.SinkState.{state_of};

use answer_print::{RecordWriter, Style, print_answer, print_header};
use bound_query::Query;
use outer_io::{PrintFault, Sink};
use std::alloc::Global;
use table_store::Tables;

/// Prints the header, and then the record of each answer. An answer is a row for each item, from 1.
/// `NoMemory` if memory is refused, and `Write` if a write failed.
pub fn print_listed<S: Sink>(
    alloc: Global,
    query: &Query,
    tables: &Tables,
    style: &Style<'_>,
    answers: &[[u32; 16]],
    out: &mut S,
) -> Result<(), PrintFault>
    requires fits { Fits query.now tables.now }
    requires rows { AllByRecursion
        (λ rows. IsCombination (row_counts query.now.query.items tables.now)
        (take (length query.now.query.items) rows)) answers.now }
    ensures { Printed (state_of S.Sink out.old) (state_of S.Sink out.new)
        (output_of query.now.query tables.now (style_view style.now)
        (map (take (length query.now.query.items)) answers.now)) result }
{
    let mut records = RecordWriter::new(alloc);
    print_header(alloc, &mut records, query, tables, style, out)?;
    print_records(&mut records, query, tables, style, answers, out)
}

/// Prints the record of each answer. `records` keeps the memory for them.
fn print_records<S: Sink>(
    records: &mut RecordWriter,
    query: &Query,
    tables: &Tables,
    style: &Style<'_>,
    answers: &[[u32; 16]],
    out: &mut S,
) -> Result<(), PrintFault>
    requires fits { Fits query.now tables.now }
    requires rows { AllByRecursion
        (λ rows. IsCombination (row_counts query.now.query.items tables.now)
        (take (length query.now.query.items) rows)) answers.now }
    ensures { Printed (state_of S.Sink out.old) (state_of S.Sink out.new)
        (flat_map (line_text query.now.query tables.now (style_view style.now))
        (map (take (length query.now.query.items)) answers.now)) result }
{
    for answer in answers {
        print_answer(records, query, tables, style, answer, out)?;
    }
    Ok(())
}
