//! Printing the header and the record of an answer, each by one write.
ghost use Rattle.std.specs.Prelude.{length, take};
ghost use Rattle.anyk_model.specs.Output.{header_text, line_text};
ghost use Rattle.anyk_model.specs.Query.{IsCombination, row_counts};
ghost use Rattle.answer_print.specs.StyleView.{style_view};
ghost use Rattle.bound_query.specs.WeighedQuery.{Fits};
ghost use Rattle.outer_io.specs.Printing.{Printed};
ghost use Rattle.outer_io.specs.SinkState.{state_of};

use crate::RecordWriter;
use crate::answer::write_line;
use crate::style::Style;
use crate::titles::write_header;
use bound_query::Query;
use outer_io::{PrintFault, Sink, print};
use std::alloc::Global;
use table_store::Tables;

/// Prints the header. `records` keeps the memory for it. `Write` if the write failed, and
/// `NoMemory` if memory is refused.
pub fn print_header<S: Sink>(
    alloc: Global,
    records: &mut RecordWriter,
    query: &Query,
    tables: &Tables,
    style: &Style<'_>,
    out: &mut S,
) -> Result<(), PrintFault>
    requires fits { Fits query.now tables.now }
    ensures { Printed (state_of S.Sink out.old) (state_of S.Sink out.new)
        (header_text query.now.query tables.now (style_view style.now)) result }
{
    write_header(alloc, records, query, tables, style)?;
    print(out, records.text())
}

/// Prints the record of the answer with these rows, one for each item, counted from 1. `records`
/// keeps the memory for it. `Write` if the write failed, and `NoMemory` if memory is refused.
pub fn print_answer<S: Sink>(
    records: &mut RecordWriter,
    query: &Query,
    tables: &Tables,
    style: &Style<'_>,
    rows: &[u32; 16],
    out: &mut S,
) -> Result<(), PrintFault>
    requires fits { Fits query.now tables.now }
    requires rows { IsCombination (row_counts query.now.query.items tables.now)
        (take (length query.now.query.items) rows.now) }
    ensures { Printed (state_of S.Sink out.old) (state_of S.Sink out.new)
        (line_text query.now.query tables.now (style_view style.now)
        (take (length query.now.query.items) rows.now)) result }
{
    write_line(records, query, tables, rows, style)?;
    print(out, records.text())
}
