//! The record above the answers.
ghost use Rattle.std.specs.Prelude.{◌≡◌, ◌++◌, [], List, ℕ, codes, if◌then◌else◌, length, map, option_map, IfOk, OnOk};
ghost use Rattle.anyk_model.specs.Output.{column_name, cursor_title, header_text, numbered, optional_field};
ghost use Rattle.bound_query.specs.WeighedQuery.{Fits};
ghost use Rattle.answer_print.specs.WrittenRecords.{HasFields};
ghost use Rattle.answer_print.specs.StyleView.{style_view};

use crate::RecordWriter;
use crate::fields::push_optional;
use crate::style::Style;
use bound_query::Query;
use std::alloc::Global;
use step_counter::NoMemory;
use table_store::Tables;

/// The record of the columns' titles, as `write_header` writes it. `NoMemory` if memory is refused.
pub fn header(
    alloc: Global,
    query: &Query,
    tables: &Tables,
    style: &Style<'_>,
) -> Result<Vec<u8>, NoMemory>
    requires { Fits query.now tables.now }
    ensures { IfOk result
        (λ text. text.items ≡ header_text query.now.query tables.now (style_view style.now)) }
{
    let mut records = RecordWriter::new(alloc);
    write_header(alloc, &mut records, query, tables, style)?;
    Ok(Vec::from_slice(alloc, records.text())?)
}

/// Writes the record of the columns' titles: `cursor` if a cursor is named, the names of the
/// selected columns, `rank1` and so on if sums are shown, and `row1` and so on if row numbers are
/// shown. `NoMemory` if memory is refused; further records can be written then.
pub fn write_header(
    alloc: Global,
    records: &mut RecordWriter,
    query: &Query,
    tables: &Tables,
    style: &Style<'_>,
) -> Result<(), NoMemory>
    requires { Fits query.now tables.now }
    ensures { OnOk result
        (records.new.text ≡ header_text query.now.query tables.now (style_view style.now)) }
{
    records.begin();
    push_optional(records, title_of_cursor(style))?;
    push_names(records, query, tables)?;
    push_number_titles(alloc, records, query, style)?;
    records.end()
}

/// The title above the cursors' names, if a cursor is named.
pub fn title_of_cursor<'a>(style: &Style<'_>) -> Option<&'a [u8]>
    ensures { optional_field (option_map (λ f. f.now) result)
        ≡ cursor_title (style_view style.now) }
{
    match style.cursor {
        None => None,
        Some(_) => Some(b"cursor"),
    }
}

/// Writes the titles above the numbers that the style shows.
fn push_number_titles(
    alloc: Global,
    records: &mut RecordWriter,
    query: &Query,
    style: &Style<'_>,
) -> Result<(), NoMemory>
    ensures { (fields : List (List ℕ)) → HasFields fields records.old.begun → OnOk result
        (HasFields (fields ++ ((if style.now.ranks
        then numbered (codes "rank") (length query.now.query.order) else [])
        ++ (if style.now.rows
        then numbered (codes "row") (length query.now.query.items) else []))) records.new.begun) }
{
    let ranks = if style.ranks { query.keys() } else { 0 };
    let rows = if style.rows { query.items() } else { 0 };
    push_numbered(alloc, records, "rank", ranks)?;
    push_numbered(alloc, records, "row", rows)
}

/// Writes `word` with each number from 1 to `count` after it. `NoMemory` if memory is refused.
pub fn push_numbered(
    alloc: Global,
    records: &mut RecordWriter,
    word: &str,
    count: u32,
) -> Result<(), NoMemory>
    ensures { (fields : List (List ℕ)) → HasFields fields records.old.begun → OnOk result
        (HasFields (fields ++ numbered word.now count) records.new.begun) }
{
    for place in 0..count {
        let number = place + 1;
        let title = format!(in alloc; "{word}{number}")?;
        records.push(title.as_bytes())?;
    }
    Ok(())
}

/// Writes the names of the selected columns. `NoMemory` if memory is refused.
pub fn push_names(
    records: &mut RecordWriter,
    query: &Query,
    tables: &Tables,
) -> Result<(), NoMemory>
    requires { Fits query.now tables.now }
    ensures { (fields : List (List ℕ)) → HasFields fields records.old.begun → OnOk result
        (HasFields (fields ++ map (column_name query.now.query tables.now) query.now.query.list)
        records.new.begun) }
{
    for (item, place) in query.columns() {
        records.push(tables.name(query.table_of(*item), *place))?;
    }
    Ok(())
}
