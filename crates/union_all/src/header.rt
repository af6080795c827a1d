//! The record above the members of a union.
ghost use Rattle.std.specs.Prelude.{◌≡◌, ◌≤◌, ◌++◌, ◌∷◌, [], List, ℕ, codes, if◌then◌else◌, length, map, IfOk, OnOk};
ghost use Rattle.std.specs.List.{All};
ghost use Rattle.anyk_model.specs.Output.{numbered};
ghost use Rattle.bound_query.specs.WeighedQuery.{Fits};
ghost use Rattle.answer_print.specs.WrittenRecords.{HasFields};
ghost use Rattle.answer_print.specs.StyleView.{style_view};
ghost use Rattle.anyk_model.specs.UnionOutput as output;

use answer_print::{
    RecordWriter, Style, push_names, push_numbered, push_optional, title_of_cursor,
};
use bound_query::Query;
use std::alloc::Global;
use step_counter::NoMemory;
use table_store::Tables;

/// The record of the columns' titles, as `write_header_of` writes it. `NoMemory` if memory is
/// refused.
pub fn header_of(
    alloc: Global,
    queries: &[Query],
    tables: &Tables,
    style: &Style<'_>,
) -> Result<Vec<u8>, NoMemory>
    requires some { 1 ≤ length queries.now }
    requires fits { All (λ q. Fits q tables.now) queries.now }
    ensures { IfOk result
        (λ text. text.items ≡ output.union_header_text (map (λ q. q.query) queries.now) tables.now
        (style_view style.now)) }
{
    let mut records = RecordWriter::new(alloc);
    write_header_of(alloc, &mut records, queries, tables, style)?;
    Ok(Vec::from_slice(alloc, records.text())?)
}

/// Writes the record of the columns' titles: `cursor` if a cursor is named, the names of the first
/// branch's columns, `rank1` and so on if sums are shown, and if row numbers are shown `branch`,
/// and `row1` and so on up to the items of the longest branch. `NoMemory` if memory is refused;
/// further records can be written then.
pub fn write_header_of(
    alloc: Global,
    records: &mut RecordWriter,
    queries: &[Query],
    tables: &Tables,
    style: &Style<'_>,
) -> Result<(), NoMemory>
    requires some { 1 ≤ length queries.now }
    requires fits { All (λ q. Fits q tables.now) queries.now }
    ensures { OnOk result
        (records.new.text
        ≡ output.union_header_text (map (λ q. q.query) queries.now) tables.now
        (style_view style.now)) }
{
    let first = &queries[0];
    let most = most_items(queries);
    records.begin();
    push_optional(records, title_of_cursor(style))?;
    push_names(records, first, tables)?;
    push_number_titles(alloc, records, first, most, style)?;
    records.end()
}

/// The number of items of the longest branch.
pub(crate) fn most_items(queries: &[Query]) -> u32
    ensures most { result ≡ output.most_items (map (λ q. q.query) queries.now) }
    ensures limit { result ≤ 16 }
{
    let mut most = 0;
    for query in queries {
        most = query.items().max(most);
    }
    most
}

/// Writes the titles above the numbers that the style shows.
fn push_number_titles(
    alloc: Global,
    records: &mut RecordWriter,
    query: &Query,
    most: u32,
    style: &Style<'_>,
) -> Result<(), NoMemory>
    ensures { (fields : List (List ℕ)) → HasFields fields records.old.begun → OnOk result
        (HasFields (fields
        ++ ((if style.now.ranks then numbered (codes "rank") (length query.now.query.order) else [])
        ++ (if style.now.rows then codes "branch" ∷ numbered (codes "row") most else [])))
        records.new.begun) }
{
    if style.ranks {
        push_numbered(alloc, records, "rank", query.keys())?;
    }
    if style.rows {
        records.push(b"branch")?;
        push_numbered(alloc, records, "row", most)
    } else {
        Ok(())
    }
}
