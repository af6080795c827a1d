//! The record of a member of a union.
ghost use Rattle.std.specs.Prelude.{◌≡◌, ◌+◌, ◌-◌, ◌<◌, ◌++◌, ◌∷◌, [], List, ℕ, if◌then◌else◌, length, map, replicate, IfOk, OnOk};
ghost use Rattle.std.specs.Fmt.{decimal, signed_decimal};
ghost use Rattle.std.specs.List.{All};
ghost use Rattle.anyk_model.specs.Query.{IsCombination, row_counts, sum_of};
ghost use Rattle.bound_query.specs.WeighedQuery.{Fits};
ghost use Rattle.answer_print.specs.WrittenRecords.{HasFields};
ghost use Rattle.answer_print.specs.StyleView.{style_view};
ghost use Rattle.anyk_model.specs.TaggedRows.{branch_at};
ghost use Rattle.anyk_model.specs.UnionOutput as output;
ghost use Rattle.union_all.specs.Firsts.{tagged_view};
ghost use Rattle.union_all.specs.Rows.{HasRows, rows_of};

use crate::header::most_items;
use crate::header_fields::push_empty;
use crate::tagged::Tagged;
use answer_print::{
    RecordWriter, Style, push_optional, push_rows, push_signed, push_sums, push_values,
};
use bound_query::Query;
use std::alloc::Global;
use step_counter::NoMemory;
use table_store::Tables;

/// The record of a member, as `write_line_of` writes it. `NoMemory` if memory is refused.
pub fn line_of(
    alloc: Global,
    tagged: &Tagged,
    queries: &[Query],
    tables: &Tables,
    style: &Style<'_>,
) -> Result<Vec<u8>, NoMemory>
    requires branch { tagged.now.branch < length queries.now }
    requires fits { All (λ q. Fits q tables.now) queries.now }
    requires rows { let all = map (λ q. q.query) queries.now in
        let shown = tagged_view all tagged.now in
        IsCombination (row_counts (branch_at all shown.branch).items tables.now) shown.rows }
    ensures { let all = map (λ q. q.query) queries.now in IfOk result
        (λ text. text.items ≡ output.union_line_text all tables.now (style_view style.now)
        (tagged_view all tagged.now)) }
{
    let mut records = RecordWriter::new(alloc);
    write_line_of(&mut records, tagged, queries, tables, style)?;
    Ok(Vec::from_slice(alloc, records.text())?)
}

/// Writes the record of a member: the cursor's name if there is one, the selected columns of its
/// branch, the sums of the order keys if they are shown, and if row numbers are shown the branch,
/// from 1, its row numbers, and an empty field for each item that it has less than the longest
/// branch. `NoMemory` if memory is refused; further records can be written then.
pub fn write_line_of(
    records: &mut RecordWriter,
    tagged: &Tagged,
    queries: &[Query],
    tables: &Tables,
    style: &Style<'_>,
) -> Result<(), NoMemory>
    requires branch { tagged.now.branch < length queries.now }
    requires fits { All (λ q. Fits q tables.now) queries.now }
    requires rows { let all = map (λ q. q.query) queries.now in
        let shown = tagged_view all tagged.now in
        IsCombination (row_counts (branch_at all shown.branch).items tables.now) shown.rows }
    ensures { let all = map (λ q. q.query) queries.now in OnOk result (records.new.text
        ≡ output.union_line_text all tables.now (style_view style.now)
        (tagged_view all tagged.now)) }
{
    let query = &queries[tagged.branch as usize];
    let lacking = lacking_items(queries, query, style);
    records.begin();
    push_optional(records, style.cursor)?;
    push_values(records, query, tables, &tagged.rows)?;
    push_shown(records, tagged, query, tables, style)?;
    push_empty(records, lacking)?;
    records.end()
}

/// The number of items that the branch of a query has less than the longest branch, if row numbers
/// are shown, else 0.
fn lacking_items(queries: &[Query], query: &Query, style: &Style<'_>) -> u32
    ensures { result ≡ (if style.now.rows
        then output.most_items (map (λ q. q.query) queries.now)
        - length query.now.query.items else 0) }
{
    if style.rows {
        most_items(queries).saturating_sub(query.items())
    } else {
        0
    }
}

/// Writes the numbers that the style shows, in decimal.
fn push_shown(
    records: &mut RecordWriter,
    tagged: &Tagged,
    query: &Query,
    tables: &Tables,
    style: &Style<'_>,
) -> Result<(), NoMemory>
    requires fits { Fits query.now tables.now }
    requires rows { HasRows query.now tables.now tagged.now.rows }
    ensures { let chosen = rows_of query.now tagged.now.rows in
        (fields : List (List ℕ)) → HasFields fields records.old.begun → OnOk result
        (HasFields (fields ++ ((if style.now.ranks then map
        (λ k. signed_decimal
        (sum_of query.now.query tables.now chosen k)) query.now.query.order else [])
        ++ (if style.now.rows
        then decimal (tagged.now.branch + 1) ∷ map decimal chosen else []))) records.new.begun) }
{
    if style.ranks {
        push_sums(records, query, tables, &tagged.rows)?;
    }
    if style.rows {
        push_places(records, tagged, query)
    } else {
        Ok(())
    }
}

/// Writes the branch, from 1, and the row numbers of its items.
fn push_places(records: &mut RecordWriter, tagged: &Tagged, query: &Query) -> Result<(), NoMemory>
    ensures { (fields : List (List ℕ)) → HasFields fields records.old.begun → OnOk result
        (HasFields (fields ++ decimal (tagged.now.branch + 1)
        ∷ map decimal (rows_of query.now tagged.now.rows)) records.new.begun) }
{
    push_signed(records, i128::from(tagged.branch) + 1)?;
    push_rows(records, query, &tagged.rows)
}
